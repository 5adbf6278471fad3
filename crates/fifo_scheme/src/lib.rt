//! FIFOs between two clocks: all of a net over listed synchronizers and Gray registers.
#![tactic(auto)]

pub mod finder;
pub mod found;
pub mod index;
pub mod judge;
pub mod lines;

pub use finder::{fifos, fifos_of, fifos_with};
pub use found::{Column, Fifo, FifoPair, Fifos, FifosOf};
pub use lines::fifo_lines;
