// The bay book's protocol: the plain types of the table, the numbers, and in specs/ the definitions of
// what make, rebuild, begin, step and collect do to row and table.
#![tactic(auto)]

pub mod fields;
pub mod layout;
pub mod moves;
pub mod numbers;
pub mod record;
pub mod rows;
pub mod table;
