// Value words: mark, change number and value in one word.
#![tactic(auto)]

pub mod value_word;
