// What the next step of a runner is: read from key words, low words and the table, with nothing written.
#![tactic(auto)]

mod planning;
mod splitting;

pub use planning::plan;
