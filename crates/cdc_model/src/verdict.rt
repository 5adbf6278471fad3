//! The verdict on a design.
ghost use Rattle.std.specs.Prelude.{◌≡◌, ◌≢◌, Bool, true, Some, List, ◌↔◌, Contains};
ghost use Rattle.cdc_base.specs.declared.bit.Bit.{Bit};
ghost use Rattle.cdc_model.specs.declared.scheme.GrayReg.{GrayReg};
ghost use Rattle.cdc_model.specs.Design.{Design};
ghost use Rattle.cdc_model.specs.Facts.{none_extra, no_extra, AreJustifiedBy, none_justified};
ghost use Rattle.cdc_model.specs.Ordered.{IsAscending};
ghost use Rattle.cdc_model.specs.Runs.{State};
ghost use Rattle.cdc_model.specs.Verdict.{crossing_key};
ghost use Rattle.cdc_model.specs.Schemes.{Trees, AreTrees, AreSyncs, IsCrossing, Sync, Ring};

use crate::scheme::{Arrival, Cover, Crossing, GrayReg, Ring};
use cdc_base::{Bit, List};
use cell_graph::Node;

/// A violation, with the path, the flops or the arrivals that show it. A `word` is a signal, `group` a place in the list
/// of groups and `ring` one in the list of rings.
#[derive(Debug, Drop)]
pub enum Finding {
    /// A crossing without a scheme.
    V1 {
        from: Bit,
        to: Bit,
        path: List<Node>,
    },
    /// A crossing into a plain copy that begins no synchronizer.
    V2 {
        from: Bit,
        to: Bit,
        path: List<Node>,
    },
    /// Several bits of a word enter a group, and the word is no Gray code.
    V3 {
        word: u32,
        group: u32,
        flops: List<Crossing>,
    },
    /// A bit enters a group by several first flops.
    V4 {
        from: Bit,
        group: u32,
        flops: List<Crossing>,
    },
    /// A word enters a group by first flops of several clocks.
    V5 {
        word: u32,
        group: u32,
        flops: List<Crossing>,
    },
    /// A register bit reads synchronized copies of several families.
    V6 {
        to: Bit,
        group: u32,
        arrivals: List<Arrival>,
    },
    /// A load that a ring gates, but whose data the ring doesn't hold.
    V7 {
        from: Bit,
        to: Bit,
        ring: u64,
        path: List<Node>,
    },
    /// Data that a ring holds, read without its gate.
    V8 {
        from: Bit,
        to: Bit,
        ring: u64,
        path: List<Node>,
    },
}

/// All crossings of a design, what guards them, and all violations. It is clean where it has no finding.
#[derive(Debug, Drop)]
pub struct Verdict {
    pub crossings: List<Crossing>,
    pub grays: List<GrayReg>,
    pub rings: List<Ring>,
    pub covers: List<Cover>,
    pub findings: List<Finding>,
}

/// Further crossings that something beside the schemes guards.
pub trait Extra {
    /// The crossings, by source and register bit.
    ghost is_extra: { Self → Bit → Bit → Bool };

    /// The value was made for this design and these lists.
    ghost fits: { Self → Design → Trees → List Sync → List GrayReg → Type 0 };

    /// What holds in each state of each run.
    ghost keeps: { Self → State → Type 0 };

    /// All of the crossings, in their order.
    fn covers(&self) -> &[Crossing]
        ensures listed { (b x : Bit) → (is_extra self.now b x ≡ true) ↔ Contains result.now (record { from = b; to = x }) }
        ensures ordered { IsAscending crossing_key result.now };

    /// They are crossings, and none is a plain copy.
    ghost crosses: { (a : Self) (d : Design) (t : Trees) (syncs : List Sync) (grays : List GrayReg) → fits a d t syncs grays →
        (b x : Bit) → is_extra a b x ≡ true → IsCrossing d t b x × (d.copied x ≢ Some b) };

    /// The fact holds at the start, each step keeps it, and under it what the crossings bring isn't seen.
    ghost justifies: { (a : Self) (d : Design) (t : Trees) (syncs : List Sync) (grays : List GrayReg) (rings : List Ring) →
        fits a d t syncs grays → AreTrees d t → AreSyncs d t syncs → ((g : GrayReg) → Contains grays g → t.is_gray g ≡ true) →
        AreJustifiedBy d syncs grays rings (is_extra a) (keeps a) };
}

/// No further crossing.
#[derive(Clone, Copy, Debug, Drop)]
pub struct NoExtra;

impl Extra for NoExtra {
    ghost is_extra = { λ a. none_extra };

    ghost fits = { λ a d t syncs grays. Unit {0} };

    ghost keeps = { λ a s. Unit {0} };

    fn covers(&self) -> &[Crossing] {
        &[]
    }

    ghost crosses = { λ a d t syncs grays fits b x extra. no_extra b x extra };

    ghost justifies = { λ a d t syncs grays rings fits laws are_syncs are_grays. none_justified d syncs grays rings };
}
