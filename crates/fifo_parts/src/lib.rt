//! The parts of which FIFOs are made: sides, the synchronizers that bring their codes over, words, reads, flags and tests.
#![tactic(auto)]

pub mod brought;
pub mod flags;
pub mod pair;
pub mod reads;
pub mod side;
pub mod vars;
pub mod words;
