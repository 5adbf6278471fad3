//! A replay goes through a run of the design that the texts describe.
#![tactic(auto)]

ghost use Rattle.replay_laws.specs.Laws.{ReplaysAreDescribed};

/// What a record's bytes mean on the net of a described design is replayed there as on the flat design that the netlist's
/// text means under the constraints, where declared resets are at their inactive levels: the run is the same, or the first
/// step that is refused and why.
pub fn replays_are_described()
    ensures { ReplaysAreDescribed }
{}
