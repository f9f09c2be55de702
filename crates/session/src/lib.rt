// A whole life of a last: a bench is clamped with a blank and a wish, a list of orders is performed in turn, and the last is lifted. It stands on
// planner, text (for the orders), wish, rank, blank and course, and its tests on table and tableblank too.
#![tactic(auto)]

mod perform;
mod reply;
#[cfg(test)]
mod tests;

pub use perform::perform_all;
pub use reply::{Reply, Route};
