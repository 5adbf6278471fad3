//! Items of a netlist, read from its tokens.
#![tactic(auto)]

pub mod copy;
pub mod decl;
pub mod delay;
pub mod header;
pub mod instance;
pub mod make;
