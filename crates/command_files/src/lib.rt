//! What all commands share: the files that the words name, read in turn, and the answer that a refusal ends in.
#![tactic(auto)]

pub mod answer;
pub mod input;
pub mod status;

pub use answer::{Answer, Ending, answer_of, or_refused};
pub use input::{read_both, read_three};
pub use status::Status;
