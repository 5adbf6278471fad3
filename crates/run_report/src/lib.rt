//! A run as text.
#![tactic(auto)]

mod bits;
mod changes;
mod races;
mod refusal;
mod run;
mod start;
mod step;
mod value;

pub use run::run_text;
pub use start::start_text;
pub use step::step_text;
