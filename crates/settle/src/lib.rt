// What a step's access does to the row, and what becomes of the table after it.
#![tactic(auto)]

mod performing;
mod settling;

pub use performing::perform;
pub use settling::settle;
