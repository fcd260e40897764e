// The language of bench scripts: from the text of a script to its commands.
#![tactic(auto)]

pub mod command;
mod key;
mod number;
mod parse;
pub mod reader;
mod text;
