//! Why a form was not read.
ghost use Rattle.std.specs.Prelude.{◌≡◌, ◌≤◌, ◌+◌, length, true, IfOk, IfErr};

use cdc_base::NoMemory;
use verilog_lex::Token;

/// What ends the reading before its form ends.
#[derive(Debug, Drop)]
pub enum Halt {
    /// Of the tokens `left` are left, of which the first is refused. `deep` tells that a form which is nested deeper
    /// goes on with it.
    Refused { deep: bool, left: usize },
    Memory,
}

impl From<NoMemory> for Halt {
    ghost use Rattle.std.specs.Prelude.{◌≡◌};
    ghost use Rattle.verilog_exprs.specs.declared.halt.Halt.TheVariants.{Memory};

    ghost from_gives = { λ _ r. r ≡ Memory };

    fn from(_error: NoMemory) -> Halt {
        Halt::Memory
    }
}

/// The refusal of the first of these tokens.
pub fn refused(rest: &[Token], deep: bool) -> Halt
    ensures { result ≡ Halt.Refused deep (length rest.now) }
{
    Halt::Refused {
        deep,
        left: rest.len(),
    }
}

/// The levels that are left below one more level, which the first of the tokens opens and which holds a part that is
/// `height` levels high.
pub fn deeper(left: u32, height: u32, tokens: &[Token]) -> Result<u32, Halt>
    ensures within { IfOk result (λ below. height ≤ below) }
    ensures less { IfOk result (λ below. below + 1 ≡ left) }
    ensures high { IfErr result (λ h. left ≤ height) }
    ensures refused { IfErr result (λ h. h ≡ Halt.Refused true (length tokens.now)) }
{
    if left <= height {
        return Err(refused(tokens, true));
    }
    Ok(left - 1)
}
