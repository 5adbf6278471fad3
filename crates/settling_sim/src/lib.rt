//! A run of a net, step by step: racing bits settle either way, and may stay unsettled for some cycles.
#![tactic(auto)]

pub mod cycles;
pub mod design;
pub mod edges;
pub mod fault;
pub mod loose;
pub mod moment;
pub mod reader;
pub mod sim;
pub mod state;
pub mod trial;
pub mod word;

pub use fault::StepFault;
pub use sim::Sim;
pub use state::{is_clocked_input, is_register, is_state_signal};
