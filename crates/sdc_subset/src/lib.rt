//! The constraints of an SDC file.
#![tactic(auto)]

mod arguments;
mod bytes;
mod command;
mod commands;
mod form;
mod groups;
mod marks;
mod names;
mod nest;
mod pins;
mod reader;
mod words;

pub use reader::read;
