//! What cofactors of trees of cells promise.
ghost use Rattle.cell_graph.specs.Laws.{KnownHasItsValue, SameHasItsValue, ReadsDecide, OriginHasTheValue};

/// The law of cofactors: what is known of a bit, what it is the same as and what it reads is so in every reading of
/// the cube, and its origin has its value.
pub fn cofactors_are_sound()
    ensures known { KnownHasItsValue }
    ensures same { SameHasItsValue }
    ensures reads { ReadsDecide }
    ensures origin { OriginHasTheValue }
{}
