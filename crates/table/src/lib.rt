// Tables: the rows of a table and their check. It stands on blank and course.
#![tactic(auto)]

mod cuts;
mod flaw;
mod table;

pub use flaw::Flaw;
pub use table::TableRows;
