//! What single nodes show of a FIFO: the conditions under which they have a value, what a register bit takes, what a
//! word counts, and the tests for full and for empty.
#![tactic(auto)]

pub mod bits;
pub mod codes;
pub mod copies;
pub mod counts;
pub mod inversions;
pub mod search;
pub mod shows;
pub mod takes;
pub mod term;
pub mod walk;

pub use codes::{Code, Moment, is_code_bit};
pub use copies::{are_equal, copied};
pub use counts::counted;
pub use inversions::{Bare, bare_node};
pub use shows::{Apart, is_flag_test, is_test};
pub use takes::{Conditions, Taken, taken_by};
pub use term::{Term, has_term, have_one_set};
pub use walk::terms;
