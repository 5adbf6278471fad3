//! What the trees of flat designs promise.
ghost use Rattle.flat_meaning.specs.Full.{FullLaw};
ghost use Rattle.flat_meaning.specs.Law.{ExpressionLaw, ClockedLaw, CombLaw};
ghost use Rattle.flat_meaning.specs.Pieces.{SelectLaw};
ghost use Rattle.flat_meaning.specs.Elaboration.{LawOfElaboration, TreesLaw};

/// The tree of an expression has the expression's value.
pub fn expression_has_value()
    ensures { ExpressionLaw }
{}

/// The trees of a clocked process have the values that one execution gives.
pub fn clocked_process_has_values()
    ensures { ClockedLaw }
{}

/// The trees of a process of wires have the values that one execution gives, at each bit that it surely assigns.
pub fn comb_process_has_values()
    ensures { CombLaw }
{}

/// A full case always runs one of its items.
pub fn full_case_is_met()
    ensures { FullLaw }
{}

/// A select of a wire, joined of the pieces that it meets and of zeros between them, has the wire's bits.
pub fn select_has_bits()
    ensures { SelectLaw }
{}

/// In a design in which no segment depends on itself each reading has exactly one consistent choice of values, each
/// signal's tree has the value that it gives, and each next tree has the next value.
pub fn design_is_elaborated()
    ensures { LawOfElaboration }
{}

/// Such a design has trees, and it has one choice of them.
pub fn trees_are_one()
    ensures { TreesLaw }
{}
