//! The names that the statements of a process mention.
#![tactic(auto)]

pub mod mentions;
pub mod rules;
pub mod sets;

pub use rules::{first_mixed, unlisted};
