//! Records of runs.
use cdc_base::{Bit, List};

/// The value of a signal.
#[derive(Clone, Copy, PartialEq, Eq, Debug, Drop)]
pub struct Given {
    pub sig: u32,
    pub value: u64,
}

/// How a register bit that reads changing bits settles: as if the bits of `flip` had their other value, and, where
/// `other` is there, unsettled between that and the same with `other`.
#[derive(Debug, Drop)]
pub struct Race {
    pub bit: Bit,
    pub flip: List<Bit>,
    pub other: Option<List<Bit>>,
}

/// One step: the clocks that tick together, the inputs that change with them, and the races.
#[derive(Debug, Drop)]
pub struct RecordStep {
    pub edges: List<u32>,
    pub inputs: List<Given>,
    pub races: List<Race>,
}

#[derive(Debug, Drop)]
pub struct Record {
    pub start: List<Given>,
    pub steps: List<RecordStep>,
}
