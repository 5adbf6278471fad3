//! Targets of assignments with their names resolved.
#![tactic(auto)]

pub mod parts;
pub mod pieces;
pub mod target;
