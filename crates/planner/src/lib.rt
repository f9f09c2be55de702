// The planner: anytime focal search over any blank, under any wish. A bench is clamped with a blank and a wish into a last; the last works,
// is set, shows and tells its route; lifting it gives the bench back. It stands on course, blank, rank, queue and wish.
#![tactic(auto)]

mod alike;
mod bench;
mod chain;
mod last;
mod ratio;
mod search;

pub use alike::{Compared, compare};
pub use bench::Bench;
pub use last::{Last, Lifted, Shown, Told, Worked};
