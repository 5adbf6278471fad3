//! Expressions of a netlist, read from its tokens.
#![tactic(auto)]

pub mod divider;
pub mod expr;
pub mod halt;
pub mod make;
pub mod operators;
pub mod tokens;
