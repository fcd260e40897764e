// Locating: where a key belongs, and how a split is started.
#![tactic(auto)]

mod locating;
mod start;

pub use locating::locate;
pub use start::start_split;
