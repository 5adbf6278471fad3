//! Refusals of a record. None of them has a place.
ghost use Rattle.std.specs.Prelude.{◌≡◌, true, []};
ghost use Rattle.refusals.specs.Numbers.{is_listed, HasNumberIn};
ghost use Rattle.clock_constraints.specs.Refusals.{IsStop};
ghost use Rattle.run_file.specs.Numbers.{record_numbers};

use cdc_base::Stop;
use clock_constraints::refusal;
use std::alloc::Global;

/// The text isn't JSON. It has no name.
pub const NOT_JSON: u16 = 501;
/// A key is unknown or missing, a value is of another kind, or two races of a step are of one bit. It has no name.
pub const WRONG_SHAPE: u16 = 502;
/// A name isn't one of those that may stand there.
pub const UNKNOWN_NAME: u16 = 503;
/// A value needs more bits than its signal has; the name is the signal.
pub const TOO_WIDE: u16 = 508;
/// A value differs from a known start value; the name is the signal.
pub const OTHER_START: u16 = 509;
/// There are more steps than the limit allows. It has no name.
pub const TOO_MANY_STEPS: u16 = 604;

/// The refusal with this number, which is one of a record's, and this name, unless memory ran out.
pub fn refuse(alloc: Global, number: u16, name: &str) -> Stop
    requires { is_listed record_numbers number ≡ true }
    ensures stop { IsStop number name.now result }
    ensures numbered { HasNumberIn record_numbers result }
{
    refusal::refuse(alloc, number, name)
}

/// The refusal of the record's shape.
pub fn wrong_shape(alloc: Global) -> Stop
    ensures stop { IsStop WRONG_SHAPE [] result }
    ensures numbered { HasNumberIn record_numbers result }
{
    refuse(alloc, WRONG_SHAPE, "")
}
