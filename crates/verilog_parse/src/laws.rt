//! What ties the tokens of a text to those that are parsed, and a printed text to its source.
ghost use Rattle.std.specs.Prelude.{ℕ, ◌≡◌, List, Ok};
ghost use Rattle.verilog_ast.specs.declared.Source.{Source};
ghost use Rattle.verilog_lex.specs.declared.token.Token.{Token};
ghost use Rattle.verilog_lex.specs.Tokens.{tokens_of};
ghost use Rattle.verilog_parse.specs.Printed.{Printed, bytes_of};
ghost use Rattle.verilog_parse.specs.ReadBack.{IsPrintable, ReadsBack};
ghost use Rattle.verilog_parse.specs.Texts.{source_text};
ghost use Rattle.verilog_parse.specs.Written.{AreWritable, HasTokens};
ghost use Rattle.verilog_reading.specs.ItemReading.{IsSource};
ghost use Rattle.verilog_reading.specs.Refusals.{IsEnded};
ghost use Rattle.verilog_reading.specs.SourceTree.{source_of};

/// The tokens of a text end with their one end.
pub fn texts_are_ended()
    ensures { (text : List ℕ) (ts : List Token) → tokens_of text ≡ Ok ts → IsEnded ts }
{}

/// The tokens of a printed text are those that are printed.
pub fn printed_tokens_are_read()
    ensures { (ps : List Printed) → AreWritable ps → HasTokens (bytes_of ps) ps }
{}

/// What the tokens of a text read as can be printed, and its printed text reads as it again, places aside.
pub fn printed_sources_are_read_back()
    ensures printable { (text : List ℕ) (ts : List Token) (s : Source) → tokens_of text ≡ Ok ts → IsSource ts (source_of s) → IsPrintable (source_of s) }
    ensures back { (s : Source) → IsPrintable (source_of s) → ReadsBack (source_text s) (source_of s) }
{}
