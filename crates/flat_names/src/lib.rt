//! What the names of a module stand for, and its expressions with their names resolved.
#![tactic(auto)]

pub mod design;
pub mod expr;
pub mod fault;
pub mod printed;
pub mod resolved;
pub mod scope;
pub mod select;
pub mod signs;
