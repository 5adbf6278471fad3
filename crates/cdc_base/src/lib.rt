//! What every crate of cdcaudit speaks of: names, places, bits, signals, refusals, limits, and what the program
//! asks of the outside.
#![tactic(auto)]

pub mod bit;
pub mod bytes;
pub mod fault;
pub mod host;
pub mod limits;
pub mod list;
pub mod mem_files;
pub mod mem_sinks;
pub mod name;
pub mod outside;
pub mod signal;
pub mod size;
pub mod words;

pub use bit::Bit;
pub use fault::{Fault, Place, Stop};
pub use host::{HostFiles, HostSink};
pub use list::{List, NoMemory};
pub use mem_files::{MemFile, MemFiles, SureFiles};
pub use mem_sinks::{MemSink, SureSink};
pub use name::Name;
pub use outside::{FileFault, Files, Sink, SinkFault};
pub use signal::{ResetPin, SigKind, Signal};
pub use size::NumberSize;
