//! Elaboration and cells on flat designs that say most about them.
#![tactic(auto)]

#[cfg(test)]
mod elaboration;
#[cfg(test)]
mod sharing;

fn main() {}
