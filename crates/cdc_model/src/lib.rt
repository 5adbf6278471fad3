//! Crossings, the schemes that guard them, and what a verdict and a run's record hold.
#![tactic(auto)]

pub mod below;
pub mod laws;
pub mod readers;
pub mod record;
pub mod scheme;
pub mod verdict;
pub mod view;

pub use below::{Below, Marks};
pub use readers::{Reader, Readers};
pub use record::{Given, Race, Record, RecordStep};
pub use scheme::{Arrival, Cover, Crossing, GrayReg, Load, Ring, Scheme, Shape, Sync};
pub use verdict::{Extra, Finding, NoExtra, Verdict};
