//! Statements of processes with their names resolved, and what holds on all paths through them.
#![tactic(auto)]

pub mod latch;
pub mod masks;
pub mod statement;
