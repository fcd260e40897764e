// Kept memory: a row of 64-bit words that outlives a power cut.
//
// `kept` has the trait, with the one meaning that every memory has and every caller may lean on.
// Three memories are built on it: `flat` (words in the caller's slice), `bytes` (bytes in the caller's slice)
// and `window` (some words of another memory). What the first two share is in `row`. `lent` makes a memory of a `&mut` to one.
#![tactic(auto)]

pub mod bytes;
pub mod flat;
pub mod kept;
pub mod lent;
mod row;
#[cfg(test)]
mod tests;
pub mod window;
