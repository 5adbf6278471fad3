//! Certificates, and the lines of their texts.
use cdc_base::List;
use cdc_model::{GrayReg, Load, Ring, Sync};
use fifo_scheme::FifoPair;

/// What justifies a design: synchronizers, Gray registers, rings, loads, whose rings are places in the list of rings,
/// and the counts of FIFOs.
#[derive(Debug, Drop)]
pub struct Certificate {
    pub syncs: List<Sync>,
    pub grays: List<GrayReg>,
    pub rings: List<Ring>,
    pub loads: List<Load>,
    pub fifos: List<FifoPair>,
}

/// What a line says behind the first: an item of a certificate, or that it ends.
#[derive(Debug, Drop)]
pub enum Entry {
    Sync(Sync),
    Gray(GrayReg),
    Ring(Ring),
    Load(Load),
    Fifo(FifoPair),
    End,
}
