//! Campaigns: eight random runs of a net at once, in search of a register bit that captures a loose bit.
#![tactic(auto)]

pub mod advance;
pub mod bits;
pub mod capture;
pub mod draws;
pub mod edges;
pub mod flipped;
pub mod found;
pub mod inputs;
pub mod lanes;
pub mod laws;
pub mod loose;
pub mod marks;
pub mod names;
pub mod numbers;
pub mod order;
pub mod plan;
pub mod probe;
pub mod races;
pub mod rows;
pub mod run;
pub mod runs;
pub mod text;
pub mod toss;

pub use found::Found;
pub use lanes::Lanes;
pub use runs::search;
pub use text::record_text;
