//! The flat design as it grows, with what is known of each signal beyond its printed form.
ghost use Rattle.std.specs.Prelude.{◌≡◌, List, false, slice_get};
ghost use Rattle.std.specs.Option.{option_map_or};
ghost use Rattle.cdc_base.specs.declared.signal.ResetPin as pin;
ghost use Rattle.flat_unfolding.specs.Design.{no_design};
ghost use Rattle.flat_unfolding.specs.Targets.{of_wires};
ghost use Rattle.flat_names.specs.declared.design.Entry.{Entry};
ghost use Rattle.flat_names.specs.Looks.{seen, takes_seen};
ghost use Rattle.flat_names.specs.Designs.{ShowsDesign};

use crate::fault::Faults;
use crate::scope::{Bounds, Look, Names};
use cdc_base::{Name, Place, Signal};
use flat_form::flat::{FlatAssign, FlatClocked, FlatComb, FlatReset};
use std::alloc::Global;

/// The direction of a signal in its module.
#[derive(Clone, Copy, PartialEq, Eq, Debug, Drop)]
pub enum Role {
    Inner,
    Input,
    Output,
}

/// The reset that a signal resolves to: its place among the resets, and its active level.
#[derive(Clone, Copy, PartialEq, Eq, Debug, Drop)]
pub struct Reset {
    pub pin: u32,
    pub is_high: bool,
}

/// What a signal was declared as. `start` is a start value that
/// a declaration or `initial` gives; `reset_known` masks the bits to which a reset gives one, and `reset_start` has these.
#[derive(Drop)]
pub struct Entry {
    pub own: Name,
    pub bounds: Option<Bounds>,
    pub width: u8,
    pub is_reg: bool,
    pub role: Role,
    /// A plain port of the old style, which may be declared once more.
    pub is_open: bool,
    pub reset: Option<Reset>,
    pub start: Option<u64>,
    pub reset_known: u64,
    pub reset_start: u64,
}

impl Entry {
    /// Whether `assign`, a gate or the output of an instance may assign it.
    pub fn is_wire(&self) -> bool
        ensures { result ≡ takes_seen of_wires (seen self.now) }
    {
        !self.is_reg && self.role != Role::Input
    }
}

/// A process whose resets break a rule, which is refused behind all items.
#[derive(Drop)]
pub struct Late {
    pub place: Place,
    pub faults: Faults,
}

/// All that was unfolded so far. `entries` has one entry for each signal.
#[derive(Drop)]
pub struct Design {
    pub signals: Vec<Signal>,
    pub entries: Vec<Entry>,
    pub assigns: Vec<FlatAssign>,
    pub combs: Vec<FlatComb>,
    pub clocked: Vec<FlatClocked>,
    /// One for each of `clocked`.
    pub resets: Vec<FlatReset>,
    pub outputs: Vec<u32>,
    /// The first such process, in the order of the visits.
    pub late: Option<Late>,
}

impl Design {
    /// A design without a signal.
    pub fn new(alloc: Global) -> Design
        ensures { (pins : List pin.ResetPin) → ShowsDesign pins result (no_design pins) }
    {
        Design {
            signals: Vec::new(alloc),
            entries: Vec::new(alloc),
            assigns: Vec::new(alloc),
            combs: Vec::new(alloc),
            clocked: Vec::new(alloc),
            resets: Vec::new(alloc),
            outputs: Vec::new(alloc),
            late: None,
        }
    }

    /// The design so far, to read a module's expressions in.
    pub fn look<'a>(&'a self, alloc: Global, names: &'a Names) -> Look<'a>
        ensures names { result.names.now ≡ names.entry.now }
        ensures signals { result.signals.now ≡ self.entry.now.signals.items }
        ensures entries { result.entries.now ≡ self.entry.now.entries.items }
        ensures active { result.active ≡ false }
    {
        Look {
            alloc,
            names,
            signals: self.signals.as_slice(),
            entries: self.entries.as_slice(),
            active: false,
        }
    }

    pub fn width(&self, sig: u32) -> u8
        ensures { result ≡ option_map_or (λ (e : Entry). e.width) (slice_get self.now.entries.items sig) 1 }
    {
        match self.entries.get(usize::try_from(sig).unwrap_or(usize::MAX)) {
            Some(entry) => entry.width,
            None => 1,
        }
    }
}
