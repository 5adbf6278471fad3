//! Cells: words of 1 to 64 bits, each made from earlier ones. Equal cells are kept once.
#![tactic(auto)]

pub mod cell;
mod cone;
pub mod feeds;
pub mod graph;
pub mod laws;
pub mod net;
pub mod values;
pub mod word;

pub use cell::{Cell, CellId, Node, ReduceKind};
pub use feeds::Passed;
pub use graph::Graph;
pub use laws::cofactors_are_sound;
pub use net::{Cofactors, Net, Reg};
pub use values::Values;
