//! What drives the bits of a flat design: each bit has one driver at most, each bit that is read has one, and registers
//! are what clocked processes drive.
#![tactic(auto)]

mod clocked;
pub mod driven;
pub mod drivers;
mod reads;
pub mod registers;
