//! What a list of tokens reads as: the relation of the grammar, a reader that decides it, and the laws that tie them.
#![tactic(auto)]

pub mod laws;

pub use laws::{
    depths_are_kept, expressions_are_read, sources_are_read, statements_are_read, targets_are_read,
    the_reader_is_exact,
};
