//! The file of clock constraints.
#![tactic(auto)]

mod array;
mod entry;
mod file;
mod names;
pub mod refusal;
mod value;

use cdc_base::{List, Name, ResetPin};
pub use file::read;

/// What a constraint file says: the top, its clock pins, the clocks of its inputs, its resets, its static inputs and the
/// findings that are waived.
#[derive(Drop)]
pub struct Constraints {
    pub top: Name,
    pub clocks: List<ClockPin>,
    pub inputs: List<InputPin>,
    pub resets: List<ResetPin>,
    pub statics: List<Name>,
    pub waivers: List<Waiver>,
}

/// An input of the top that is a clock, the group of clocks that meet timing with it, and the cycles of this clock, 1 to
/// 3, within which a bit that captured a changing one settles.
#[derive(Debug, Drop)]
pub struct ClockPin {
    pub name: Name,
    pub group: Name,
    pub settle: u8,
}

/// An input of the top that changes at the edges of the clock with this place in the list.
#[derive(Debug, Drop)]
pub struct InputPin {
    pub name: Name,
    pub clock: u32,
}

/// A finding, by its first text line, that was looked at, and why it stands.
#[derive(Debug, Drop)]
pub struct Waiver {
    pub finding: Name,
    pub reason: Name,
}
