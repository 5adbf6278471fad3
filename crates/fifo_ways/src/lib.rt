//! Ways down the feeds of nodes: what each of them passes, where one of them leads, and among which words a node chooses.
#![tactic(auto)]

pub mod choice;
pub mod guard;
pub mod judge;
pub mod marked;
pub mod reach;
pub mod rows;
pub mod sought;

pub use choice::chosen;
pub use guard::guards;
pub use judge::passes;
pub use reach::leads;
pub use sought::{Guard, Sought};
