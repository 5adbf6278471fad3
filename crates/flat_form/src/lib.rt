//! The form of a flat design: its types, and the sizes, constants and bits of its expressions.
#![tactic(auto)]

pub mod bits;
pub mod cases;
pub mod copy;
pub mod flat;
pub mod masks;
pub mod memory;
pub mod size;
pub mod uses;
pub mod value;
pub mod whole;

pub use flat::{
    FCaseItem, FExpr, FStmt, FTarget, FUnaryOp, Flat, FlatAssign, FlatClocked, FlatComb, FlatReset,
};
