// The bay book: make, rebuild, begin, step and collect over any kept memory and any key kind.
#![tactic(auto)]

mod begin;
pub mod book;
mod collect;
mod make;
mod rebuild;
mod step;
