//! What a record says, by names.
use cdc_base::{List, Name};

/// A signal's name and a value.
#[derive(Drop)]
pub struct Entry {
    pub name: Name,
    pub value: u64,
}

#[derive(Drop)]
pub struct RaceEntry {
    pub bit: Name,
    pub flip: List<Name>,
    pub other: Option<List<Name>>,
}

#[derive(Drop)]
pub struct StepEntry {
    pub edges: List<Name>,
    pub inputs: List<Entry>,
    pub races: List<RaceEntry>,
}

#[derive(Drop)]
pub struct Document {
    pub start: List<Entry>,
    pub steps: List<StepEntry>,
}
