//! Tests of the program's call and of replies, which need public calls alone.
#![tactic(auto)]

#[cfg(test)]
mod faults;
#[cfg(test)]
mod gates;
#[cfg(test)]
mod plain;
#[cfg(test)]
mod played;
#[cfg(test)]
mod printed;
