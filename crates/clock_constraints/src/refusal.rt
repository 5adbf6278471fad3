//! Refusals of a constraint file. None of them has a place.
ghost use Rattle.clock_constraints.specs.Refusals.{IsStop};

use cdc_base::{Fault, Name, Stop};
use std::alloc::Global;

/// The text isn't TOML. It has no name.
pub const NOT_TOML: u16 = 401;
/// A key is unknown, is missing, or has a value of another kind; the name is the key.
pub const WRONG_KEY: u16 = 402;
/// A port was declared before; the name is the port.
pub const DECLARED_TWICE: u16 = 404;
/// An input's clock isn't declared; the name is the clock.
pub const NO_SUCH_CLOCK: u16 = 409;
/// A finding was waived before; the name is the finding.
pub const WAIVED_TWICE: u16 = 410;

/// The refusal with this number and name, unless memory ran out.
pub fn refuse(alloc: Global, number: u16, name: &str) -> Stop
    ensures { IsStop number name.now result }
{
    match Name::from_text(alloc, name) {
        Ok(name) => Stop::Refused(Fault {
            number,
            place: None,
            name,
        }),
        Err(error) => Stop::from(error),
    }
}

/// The refusal of a key.
pub fn wrong_key(alloc: Global, key: &str) -> Stop
    ensures { IsStop WRONG_KEY key.now result }
{
    refuse(alloc, WRONG_KEY, key)
}
