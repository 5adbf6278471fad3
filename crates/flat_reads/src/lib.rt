//! What finished trees read: the bits that the dependencies of segments name.
#![tactic(auto)]

ghost use Rattle.flat_reads.specs.Laws.{ExpressionReads, ProcessReads, DesignReads};

/// The tree of an expression reads the bits that the expression does.
pub fn expression_tree_reads()
    ensures { ExpressionReads }
{}

/// The finished tree of a wire that a process assigns reads the bits that it is made of.
pub fn process_tree_reads()
    ensures { ProcessReads }
{}

/// In a sound design each piece of a wire reads the bits that the segments of its own bits are made of.
pub fn pieces_read()
    ensures { DesignReads }
{}
