//! The grammar of a netlist: from tokens to a source, and back to text.
#![tactic(auto)]

ghost use Rattle.std.specs.Prelude.{◌≡◌, ◌≤◌, List, IfOk, IfErr};
ghost use Rattle.refusals.specs.Numbers.{HasNumberIn, grammar_numbers};
ghost use Rattle.verilog_ast.specs.Depth.{source_depth};
ghost use Rattle.verilog_parse.specs.Refusals.{RefusesFirst};
ghost use Rattle.verilog_parse.specs.Texts.{source_text};
ghost use Rattle.verilog_reading.specs.ItemReading.{IsSource};
ghost use Rattle.verilog_reading.specs.Refusals.{IsEnded};
ghost use Rattle.verilog_reading.specs.SourceTree.{ModuleTree, source_of};

pub mod event;
pub mod halt;
pub mod laws;
pub mod make;
pub mod module;
pub mod text;

use cdc_base::{List, NoMemory, Stop};
use std::alloc::Global;
use verilog_ast::Source;
use verilog_lex::Token;

/// The one source that the tokens read as. What is said of it holds where they end with their one `End`.
///
/// The refusal stands at the first token up to which, itself included, no source of at most 256 levels begins. It is
/// E202 where a deeper source does begin so, and E201 where none does.
pub fn parse(alloc: Global, tokens: &[Token]) -> Result<Source, Stop>
    ensures reading { IfOk result (λ s. IsEnded tokens.now → IsSource tokens.now (source_of s)) }
    ensures within { IfOk result (λ s. IsEnded tokens.now → source_depth s ≤ 256) }
    ensures one { IfOk result (λ s. IsEnded tokens.now → (ms : List ModuleTree) → IsSource tokens.now ms → ms ≡ source_of s) }
    ensures refused { IfErr result (λ e. IsEnded tokens.now → RefusesFirst 255 tokens.now e) }
    ensures numbered { IfErr result (HasNumberIn grammar_numbers) }
{
    match module::read_source(alloc, tokens) {
        Ok(source) => Ok(source),
        Err(halt) => Err(halt::stop_at(alloc, tokens, halt)),
    }
}

/// One canonical text of the source: each token with a blank behind it, and a line for each item, each statement of a
/// block and each arm of a `case`.
pub fn print(alloc: Global, source: &Source) -> Result<List<u8>, NoMemory>
    ensures exact { IfOk result (λ bytes. bytes ≡ source_text source.now) }
{
    let mut out = Vec::new(alloc);
    text::module::put_source(alloc, &mut out, source)?;
    Ok(List::from_vec(out))
}
