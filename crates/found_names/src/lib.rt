//! The printed names of a described design's signals, clocks and bits are found again.
#![tactic(auto)]

ghost use Rattle.found_names.specs.Laws.{DesignsAreFound};

/// Each signal, each clock and each bit of the design that texts describe is found by its printed name.
pub fn designs_are_found()
    ensures { DesignsAreFound }
{}
