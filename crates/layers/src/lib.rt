// Layers: a layer stands over any blank, lent or owned, and is a blank itself, so layers pile up. Knots empty the cuts into the states that
// are marked; rounding lowers the estimates. It stands on course, blank and arrayvec, whose lists lie in fixed memory.
#![tactic(auto)]

mod knots;
mod marking;
mod rounding;
#[cfg(test)]
mod tests;

pub use knots::Knots;
pub use marking::mark_number;
pub use rounding::{Rounding, Unrounded};
