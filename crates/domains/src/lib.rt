//! The clock and the group of each bit of a net.
#![tactic(auto)]

ghost use Rattle.std.specs.Prelude.{◌≡◌};
ghost use Rattle.domains.specs.Assignment.{clock_of, group_of};

mod assignment;
mod group;
mod port;
mod register;
pub mod table;

pub use assignment::assign;
use cdc_base::{Bit, List, Name};
use clock_constraints::ClockPin;

/// The clocks of a net's signals. `clock_by_sig` has the clock of each register and clocked input, `group_by_clock` the
/// group of each clock, and `statics` the signals of the static inputs, ascending. Groups are numbered in the order in
/// which the clocks first name them.
#[derive(Drop)]
pub struct Domains {
    pub clocks: List<ClockPin>,
    pub groups: List<Name>,
    pub clock_by_sig: List<Option<u32>>,
    pub group_by_clock: List<u32>,
    pub statics: List<u32>,
}

impl Domains {
    /// The clock of a bit of a register or a clocked input; None for any other.
    pub fn clock_of(&self, bit: Bit) -> Option<u32>
        ensures { result ≡ clock_of self.now bit }
    {
        self.clock_by_sig
            .as_slice()
            .get(bit.sig as usize)
            .copied()
            .flatten()
    }

    /// The group of a bit's clock; None where the bit has no clock.
    pub fn group_of(&self, bit: Bit) -> Option<u32>
        ensures { result ≡ group_of self.now bit }
    {
        let clock = self.clock_of(bit)?;
        self.group_by_clock.as_slice().get(clock as usize).copied()
    }
}
