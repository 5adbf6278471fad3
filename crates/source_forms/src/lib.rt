//! What the tokens of a text read as is formed: numbers fit in their bits, and no list of parts or labels is empty.
#![tactic(auto)]

ghost use Rattle.source_forms.specs.Laws.{NumbersFit, ParsedAreFormed, ReadingsAreFormed};

/// What tokens read as is formed, if each number among them fits.
pub fn readings_are_formed()
    ensures { ReadingsAreFormed }
{}

/// Each number among the tokens of a text fits.
pub fn lexed_numbers_fit()
    ensures { NumbersFit }
{}

/// The source that the tokens of a text are parsed as is formed.
pub fn parsed_sources_are_formed()
    ensures { ParsedAreFormed }
{}
