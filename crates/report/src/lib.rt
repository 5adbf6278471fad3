//! The texts that the program prints.
#![tactic(auto)]

pub mod fault;
pub mod finding;
pub mod json_verdict;
pub mod line;
pub mod names;
pub mod output;
pub mod pattern;
pub mod text;
pub mod verdict;
pub mod waivers;

pub use fault::fault_text;
pub use json_verdict::verdict_json;
pub use verdict::verdict_text;
pub use waivers::set_aside;
