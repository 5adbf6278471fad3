//! What the model of runs promises of synchronizers, rings, Gray codes, verdicts and records. docs/model.md has it in
//! plain words.
ghost use Rattle.cdc_model.specs.Laws.{
  ShapesAreCodes,
  NetsShowWhatIsSo,
  NetsAreFinite,
  NetsAscend,
  PathsRead,
  CrossingsAreAll,
  SyncsAreAll,
  ChainSettlesInAStep,
  ChainSettlesInARun,
  RingsTurnOnce,
  CodesDifferInOne,
  StepsAreFixed,
  RecordsFixRuns,
  RunsHaveRecords,
  CleanIsJustified,
  VerdictsAreOne,
  ListingsAreOne,
  JustifiedIsSound,
  JustifiedKeepsFacts,
  JustifiedIsTogether,
  CleanIsSound,
  CleanIsTogether,
  NetsHaveOneVerdict,
  CleanNetsAreSound,
  CleanNetsAreTogether,
};

use crate::verdict::Extra;

/// The law of the chain: what the flops of synchronizers take in a step, and what settling flops hold after a run.
pub fn chain_settles()
    ensures step { ChainSettlesInAStep }
    ensures run { ChainSettlesInARun }
{}

/// The law of the ring: the values round a ring go on changing at most once.
pub fn ring_turns_once()
    ensures { RingsTurnOnce }
{}

/// The law of Gray codes: those of a count and of the next one differ in one bit.
pub fn codes_differ_in_one()
    ensures { CodesDifferInOne }
{}

/// A record's step is refused exactly where it asks for what isn't met, and what a record fixes is a run.
pub fn record_fixes_run()
    ensures step { StepsAreFixed }
    ensures run { RecordsFixRuns }
{}

/// Every run from an opened state has a record that goes through the same states.
pub fn run_has_record()
    ensures { RunsHaveRecords }
{}

/// A design that synchronizers, Gray registers, rings, loads and further crossings justify is sound; its facts hold in
/// each state of each run; and what meets behind synchronizers belongs to one moment.
pub fn justified_is_sound<E: Extra>(extra: &E)
    ensures sound { JustifiedIsSound (E.fits extra.now) (E.is_extra extra.now) }
    ensures facts { JustifiedKeepsFacts (E.fits extra.now) (E.is_extra extra.now) }
    ensures together { JustifiedIsTogether (E.fits extra.now) (E.is_extra extra.now) }
{}

/// A verdict without findings justifies the design by its lists.
pub fn clean_is_justified()
    ensures { CleanIsJustified }
{}

/// A design has one verdict, and the code lists it in one way.
pub fn verdict_is_one()
    ensures verdict { VerdictsAreOne }
    ensures listed { ListingsAreOne }
    ensures net { NetsHaveOneVerdict }
{}

/// A verdict without findings is sound, and what meets behind synchronizers belongs to one moment.
pub fn clean_is_sound<E: Extra>(extra: &E)
    ensures sound { CleanIsSound (E.fits extra.now) (E.is_extra extra.now) }
    ensures together { CleanIsTogether (E.fits extra.now) (E.is_extra extra.now) }
{}

/// The bridge from cells to runs: what the trees of a net show of register bits is so in its design, which is finite,
/// and its Gray registers are counters with their codes.
pub fn net_is_design()
    ensures trees { NetsShowWhatIsSo }
    ensures finite { NetsAreFinite }
    ensures registers { NetsAscend }
    ensures grays { ShapesAreCodes }
{}

/// Each bit on a crossing's path reads its source, and the path ends there.
pub fn paths_read()
    ensures { PathsRead }
{}

/// The list of all crossings of a net has exactly the crossings of its design, in order.
pub fn crossings_are_all()
    ensures { CrossingsAreAll }
{}

/// The list of all synchronizers of a net has exactly the synchronizers of its design, in order.
pub fn syncs_are_all()
    ensures { SyncsAreAll }
{}

/// The theorem on nets: where the verdict of a net has no finding, its design is sound, by the covers and rings that the
/// code lists, and what meets behind its synchronizers belongs to one moment.
pub fn clean_net_is_sound<E: Extra>(extra: &E)
    ensures sound { CleanNetsAreSound (E.fits extra.now) (E.is_extra extra.now) }
    ensures together { CleanNetsAreTogether (E.fits extra.now) (E.is_extra extra.now) }
{}
