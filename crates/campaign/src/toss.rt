//! The choices of settling flops whose sources are loose.
use cdc_base::Bit;

/// The settling flop takes the other value of its source, or the value that the source has.
#[derive(Clone, Copy, PartialEq, Eq, Debug, Drop)]
pub struct Toss {
    pub flop: Bit,
    pub source: Bit,
    pub other: bool,
}
