//! Tests of part names, blocks, parts and log entries, which need public calls alone.
#![tactic(auto)]

#[cfg(test)]
mod blocks;
#[cfg(test)]
mod entries;
#[cfg(test)]
mod names;
#[cfg(test)]
mod parts;
#[cfg(test)]
mod tables;
