//! A source as text: each token is written with a blank behind it.

pub mod expr;
pub mod item;
pub mod module;
pub mod spelling;
pub mod stmt;
pub mod token;
