//! Single layers on designs that say most about them.
#![tactic(auto)]

#[cfg(test)]
mod layers;
#[cfg(test)]
mod prints;

fn main() {}
