// Blanks: what the search runs over, by one interface. It stands on course.
#![tactic(auto)]

mod blank_trait;
mod lent;

pub use blank_trait::Blank;
