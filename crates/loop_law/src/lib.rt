//! Combinational loops: the trees of a design's drivers lead back to themselves exactly where its segments depend on
//! themselves.
#![tactic(auto)]

ghost use Rattle.loop_law.specs.Designs.{SizedFirstLoopIsFirst, SizedLoopsAreSegments, SizedSignalsOnLoops, WellSizedIsFilled};
ghost use Rattle.loop_law.specs.Loops.{FirstLoopIsFirst, FirstMarkIsFirst, LoopsAreMarked, LoopsAreOfSignals, LoopsAreSegments, LoopsHavePieces, PiecesAreMet, SignalsOnLoops, WalksMeetLoops};

/// A piece of a signal leads back to itself exactly where a segment of the signal depends on itself.
pub fn signals_lie_on_loops()
    ensures { SignalsOnLoops }
{}

/// Nothing leads back to itself exactly where no segment depends on itself.
pub fn loops_are_segments()
    ensures { LoopsAreSegments }
{}

/// The first piece on a loop is of the first signal with a segment on a loop.
pub fn first_loop_is_first()
    ensures { FirstLoopIsFirst }
{}

/// A signal with a segment on a loop is one of the design's.
pub fn loops_are_of_signals()
    ensures { LoopsAreOfSignals }
{}

/// Where some tree leads back to itself, a piece does.
pub fn loops_have_pieces()
    ensures { LoopsHavePieces }
{}

/// A walk from all pieces, and from whatever other roots, meets all pieces.
pub fn pieces_are_met()
    ensures { PiecesAreMet }
{}

/// A walk from all pieces meets a loop exactly where some signal has a segment on a loop.
pub fn walks_meet_loops()
    ensures { WalksMeetLoops }
{}

/// Where such a walk meets a loop and its vertices on loops are marked, a piece is marked.
pub fn loops_are_marked()
    ensures { LoopsAreMarked }
{}

/// The first marked piece is of the first signal with a segment on a loop.
pub fn first_mark_is_first()
    ensures { FirstMarkIsFirst }
{}

/// No expression or statement of a well sized design has an empty part.
pub fn well_sized_is_filled()
    ensures { WellSizedIsFilled }
{}

/// `signals_lie_on_loops` of a well sized design.
pub fn sized_signals_lie_on_loops()
    ensures { SizedSignalsOnLoops }
{}

/// `loops_are_segments` of a well sized design.
pub fn sized_loops_are_segments()
    ensures { SizedLoopsAreSegments }
{}

/// `first_loop_is_first` of a well sized design.
pub fn sized_first_loop_is_first()
    ensures { SizedFirstLoopIsFirst }
{}
