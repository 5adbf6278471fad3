//! Certificates as text.
#![tactic(auto)]

pub mod certificate;
mod entry;
pub mod laws;
mod names;
mod reading;
mod words;
mod writing;

pub use certificate::{Certificate, Entry};
pub use fifo_scheme::FifoPair;
pub use reading::read;
pub use writing::write;
