//! Why a step is refused.
use cdc_base::Bit;

/// Why a step is refused, in the order of trial: no clock ticks; the clock of an input or of a race doesn't; a flipped
/// bit isn't loose for the race's bit; the race's other bits give the value that its flipped ones give.
#[derive(Clone, Copy, PartialEq, Eq, Debug, Drop)]
pub enum StepFault {
    NoEdge,
    Unticked(Bit),
    NotLoose(Bit, Bit),
    NotOther(Bit),
}
