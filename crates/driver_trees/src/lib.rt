//! The drivers of a flat design as trees whose reads of signals are still open.
#![tactic(auto)]

mod assigned;
pub mod draft;
mod expr;
mod mask;
pub mod memory;
mod present;
mod process;
mod shared;
pub mod sketch;
mod target;

pub use draft::{Draft, Drafts, Form};
pub use sketch::{Piece, Register, Sketch};
