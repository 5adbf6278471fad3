//! Crossings and the schemes that guard them.
use cdc_base::{Bit, List};

/// The register bit `to` reads the bit `from` of another group. Crossings are ordered by `to`, then `from`.
#[derive(Clone, Copy, PartialEq, Eq, Debug, Drop)]
pub struct Crossing {
    pub from: Bit,
    pub to: Bit,
}

/// A synchronizer: a chain of flops on one clock, the first of which copies the bit `from` of another group.
#[derive(Debug, Drop)]
pub struct Sync {
    pub from: Bit,
    pub flops: List<Bit>,
}

/// How a Gray register follows its counter: it takes the code of the next count (`G1`), it takes it under the same
/// conditions as the counter (`G2`), or it follows one step behind (`G3`).
#[derive(Clone, Copy, PartialEq, Eq, Debug, Drop)]
pub enum Shape {
    G1,
    G2,
    G3,
}

/// A counter and the register, both by signal, that holds its Gray code.
#[derive(Clone, Copy, PartialEq, Eq, Debug, Drop)]
pub struct GrayReg {
    pub count: u32,
    pub gray: u32,
    pub shape: Shape,
}

/// A handshake: the request, the flops of its synchronizer, the acknowledgement and the flops of the synchronizer back.
/// `end` and `ack` are places in the list: of the last flop on the way there, and of the acknowledgement.
#[derive(Debug, Drop)]
pub struct Ring {
    pub bits: List<Bit>,
    pub end: u32,
    pub ack: u32,
}

/// A crossing whose data a ring holds. `ring` is a place in the list of rings, and `gate` the place in the ring of the
/// first bit of the adjacent pair that gates the load.
#[derive(Clone, Copy, PartialEq, Eq, Debug, Drop)]
pub struct Load {
    pub from: Bit,
    pub to: Bit,
    pub ring: u64,
    pub gate: u32,
    pub recirculating: bool,
}

/// A synchronized copy of `source`, `depth` flops behind it.
#[derive(Clone, Copy, PartialEq, Eq, Debug, Drop)]
pub struct Arrival {
    pub bit: Bit,
    pub source: Bit,
    pub depth: u32,
}

/// What guards a crossing. `stages` counts flops, and `ring` is a place in the list of rings.
#[derive(Clone, Copy, PartialEq, Eq, Debug, Drop)]
pub enum Scheme {
    TwoFlop { stages: u8 },
    Gray { stages: u8 },
    Handshake { ring: u64 },
    Recirc { ring: u64 },
}

/// A crossing that a scheme guards.
#[derive(Clone, Copy, PartialEq, Eq, Debug, Drop)]
pub struct Cover {
    pub from: Bit,
    pub to: Bit,
    pub scheme: Scheme,
}
