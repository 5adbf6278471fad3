//! The program, from its words to its status: what each command answers, and the texts that it writes.
#![tactic(auto)]

pub mod laws;
pub mod output;
pub mod page;
pub mod top;

pub use command_files::Status;
pub use generated_design::selftest_source;
pub use top::run;
