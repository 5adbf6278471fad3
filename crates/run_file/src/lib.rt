//! Records of runs, as JSON files have them.
#![tactic(auto)]

mod document;
mod file;
mod names;
mod refusal;
mod shape;
mod table;
mod value;

pub use file::read;
