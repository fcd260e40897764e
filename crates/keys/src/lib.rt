// Keys of the bay book: words with a kind that says which words are keys and how they are ordered.
#![tactic(auto)]

pub mod kind;
pub mod place;
pub mod plate;
pub mod refusal;
#[cfg(test)]
mod tests;
