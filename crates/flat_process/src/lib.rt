//! Assignments, gates, processes and start values of a module, added to its flat design.
#![tactic(auto)]

pub mod always;
pub mod assign;
mod kept;
mod others;
mod reset;
mod sensitivity;
pub mod start;
mod tested;
