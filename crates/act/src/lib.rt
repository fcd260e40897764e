// What change, remove and look do at the page they hold.
#![tactic(auto)]

mod acting;
mod splitting;
#[cfg(test)]
mod tests;

pub use acting::act;
pub use splitting::{RowTurn, SplitTurn, compare_swap};
