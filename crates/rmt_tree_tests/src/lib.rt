//! Tests of the coordination tree, which need public calls alone.
#![tactic(auto)]

#[cfg(test)]
mod lists;
#[cfg(test)]
mod played;
#[cfg(test)]
mod steps;
#[cfg(test)]
mod tests;
