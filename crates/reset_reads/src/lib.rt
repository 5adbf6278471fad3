//! What flat designs read of their resets.
#![tactic(auto)]

ghost use Rattle.reset_reads.specs.Laws.{ResetsAreUnread};

/// No expression of a flat design reads an input that is a declared reset: each stands as the number of its inactive level.
pub fn resets_are_unread()
    ensures { ResetsAreUnread }
{}
