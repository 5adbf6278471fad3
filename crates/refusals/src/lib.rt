//! The numbers of refusals: what a layer may refuse by is a list of numbers in its contract.
#![tactic(auto)]

ghost use Rattle.std.specs.Prelude.{ℕ, ◌≡◌, List, true};
ghost use Rattle.refusals.specs.Limits.{HasCause, IsPastLimit, Tells};
ghost use Rattle.refusals.specs.Numbers.{is_listed, HasNumberIn};

use cdc_base::{Fault, Name, Stop};
use std::alloc::Global;

/// The refusal of what is past a limit, which has neither a place nor a name.
pub fn past_limit(alloc: Global, number: u16) -> Stop
    ensures told { Tells (IsPastLimit number) result }
    ensures cause { HasCause number (Unit {0}) result }
    ensures numbered { (numbers : List ℕ) → is_listed numbers number ≡ true → HasNumberIn numbers result }
{
    match Name::from_text(alloc, "") {
        Ok(name) => Stop::Refused(Fault {
            number,
            place: None,
            name,
        }),
        Err(_) => Stop::Memory,
    }
}
