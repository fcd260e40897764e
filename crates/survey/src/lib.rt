// What a rebuild finds in the row, and why it is sent back.
#![tactic(auto)]

mod reading;

pub use reading::{check_size, survey};
