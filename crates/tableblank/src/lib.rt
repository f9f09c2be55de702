// A table as a blank: made from rows that pass the checks, or refused with what is wrong. It stands on course, blank and table.
#![tactic(auto)]

mod table_blank;
#[cfg(test)]
mod tests;

pub use table_blank::Table;
