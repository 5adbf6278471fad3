//! The tokens of a text.
#![tactic(auto)]

ghost use Rattle.std.specs.Prelude.{◌≡◌, ◌<◌, ◌^◌, ◌-◌, length, IfOk, Ok, Err};
ghost use Rattle.cdc_base.specs.declared.fault.Fault.{Fault};
ghost use Rattle.cdc_base.specs.declared.fault.Stop.TheVariants.{Refused};
ghost use Rattle.verilog_lex.specs.Tokens.{tokens_of};

pub mod laws;
pub mod lines;
pub mod marks;
pub mod number;
pub mod piece;
pub mod spans;
pub mod token;
pub mod walk;

use cdc_base::fault::{Fault, Stop};
use cdc_base::list::List;
pub use cdc_base::words::Keyword;
pub use marks::MarkKind;
use std::alloc::Global;
pub use token::{Token, TokenKind};

/// The tokens of the text.
pub fn lex(alloc: Global, text: &[u8]) -> Result<List<Token>, Stop>
    requires { length text.now < 2 ^ 32 - 1 }
    ensures tokens { IfOk result (λ ts. tokens_of text.now ≡ Ok ts) }
    ensures refused { (f : Fault) → result ≡ Err (Refused f) → tokens_of text.now ≡ Err f }
{
    walk::walk(alloc, text)
}
