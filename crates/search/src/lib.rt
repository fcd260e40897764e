// What a step reads before it acts: key words, low words and the table.
#![tactic(auto)]

mod new_pages;
mod row;
mod slots;
mod view;

pub use new_pages::{goes_right, new_page, new_slot};
pub use row::{next_standing, pages_of, word};
pub use slots::Slots;
pub use view::View;
