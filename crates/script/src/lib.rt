// Scripts for the bench: running one on a book, and what it prints.
#![tactic(auto)]

mod answer;
mod calls;
mod key_text;
mod pages;
mod pairs;
mod run;
mod show;
mod stages;

use run::Run;
use std::alloc::{AllocError, Global};

// What a script prints.
pub fn printed(heap: Global, script: &[u8]) -> Result<String, AllocError> {
    Run::new(heap, script).printed()
}
