//! What flat designs mean, the trees of their expressions, processes and signals, and that both agree.
#![tactic(auto)]

pub mod laws;

pub use laws::{
    clocked_process_has_values, comb_process_has_values, design_is_elaborated,
    expression_has_value, full_case_is_met, select_has_bits, trees_are_one,
};
