//! The refusal of a text, from what ends its reading.
ghost use Rattle.std.specs.Prelude.{◌≡◌, ◌-◌, true, length, Some};
ghost use Rattle.std.specs.List.{slice_get};
ghost use Rattle.cdc_base.specs.declared.fault.Stop.TheVariants as stop;
ghost use Rattle.refusals.specs.Numbers.{HasNumberIn, grammar_numbers, is_listed};
ghost use Rattle.verilog_exprs.specs.declared.halt.Halt.TheVariants as halts;
ghost use Rattle.verilog_lex.specs.declared.token.Token.{Token};
ghost use Rattle.verilog_parse.specs.Refusals.{TellsWhere};
ghost use Rattle.verilog_parse.specs.Refusals as told;

use cdc_base::{Fault, Name, Place, Stop};
use std::alloc::Global;
use verilog_exprs::halt::Halt;
use verilog_lex::Token;

const NO_READING: u16 = 201;

const TOO_DEEP: u16 = 202;

/// The refusal at the place of the refused one of the tokens.
pub fn stop_at(alloc: Global, tokens: &[Token], halt: Halt) -> Stop
    ensures numbered { HasNumberIn grammar_numbers result }
    ensures memory { halt ≡ halts.Memory → result ≡ stop.Memory }
    ensures told { TellsWhere tokens.now halt result }
{
    let Halt::Refused { deep, left } = halt else {
        return Stop::Memory;
    };
    let Ok(name) = Name::from_text(alloc, "") else {
        return Stop::Memory;
    };
    Stop::Refused(Fault {
        number: number_of(deep),
        place: place_where(tokens, left),
        name,
    })
}

fn number_of(deep: bool) -> u16
    ensures is { result ≡ told.number_of deep }
    ensures listed { is_listed grammar_numbers result ≡ true }
{
    if deep { TOO_DEEP } else { NO_READING }
}

/// The place of the token with which so many are left.
fn place_where(tokens: &[Token], left: usize) -> Option<Place>
    ensures { (t : Token) → slice_get tokens.now (length tokens.now - left) ≡ Some t → result ≡ Some t.place }
{
    match tokens.get(tokens.len().saturating_sub(left)) {
        Some(token) => Some(token.place),
        None => None,
    }
}
