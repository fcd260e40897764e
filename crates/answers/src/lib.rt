// The answer line: what a person reads of one answer.
#![tactic(auto)]

mod line;
mod put;
mod refusal;

pub use line::AnswerLine;
pub use refusal::Refusal;
