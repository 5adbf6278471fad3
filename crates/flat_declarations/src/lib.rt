//! Parameters and declarations of a module, added to its flat design.
#![tactic(auto)]

pub mod declare;
pub mod parameter;
