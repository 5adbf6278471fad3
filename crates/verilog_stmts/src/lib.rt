//! Targets and statements of a netlist, read from its tokens.
#![tactic(auto)]

pub mod assignment;
pub mod label;
pub mod make;
pub mod stmt;
pub mod target;
