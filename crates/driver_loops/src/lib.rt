//! What the trees of a design's drivers lead to: orders in which operands come first, and combinational loops.
#![tactic(auto)]

pub mod links;
pub mod walk;

pub use links::Links;
