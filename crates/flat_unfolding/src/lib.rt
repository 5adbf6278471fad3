//! What flattening gives: the flat design that a source unfolds to, or the first rule that it breaks.
//!
//! The definitions stand in `specs/`, from expressions up to `Unfolding`; `proofs/Examples.antt` has sources with what
//! they unfold to, and `proofs/ResetExamples.antt` those with resets and start values.
#![tactic(auto)]

pub mod laws;

pub use laws::{
    bits_have_one_driver, depth_is_no_rule, first_rule_is_told, limits_are_kept,
    registers_have_one_clock, signals_keep_their_numbers, unfoldings_are_sound, words_have_bits,
};
