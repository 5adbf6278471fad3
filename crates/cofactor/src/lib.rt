//! Cofactors of cells: what a bit of a cell is known to be, the same as, or reads, where a few bits are fixed.
#![tactic(auto)]

pub mod cube;
mod marks;
pub mod masks;
pub mod nodes;
pub mod table;
pub mod walk;

pub use cube::{Cube, Fixed};
pub use masks::Masks;
pub use nodes::{Plain, known, origin, reads, same};
pub use table::Table;
