// A clamped last. Its calls stand in the modules below, since the specs that they cite name the struct.
ghost use Rattle.wish.specs.Wished.{order_of};
ghost use Rattle.planner.specs.Searches.{search_state};
ghost use Rattle.planner.specs.Lives.{HasLife};

use crate::search::Search;
use blank::Blank;
use wish::Wish;

mod clamp;
mod route;
mod settings;
mod show;
mod work;

pub use clamp::Lifted;
pub use route::Told;
pub use show::Shown;
pub use work::Worked;

// A search over a blank under a wish, neither of which it alters. Some list of calls led to where it is. It must be lifted: it cannot be let go.
// It has no model: one that is the state of the machine would not tell lasts with unlike benches apart, and a refusal promises that nothing is
// altered. That a call leaves blank and wish stands in the contract of each that alters a last: a caller knows it from nowhere else.
pub struct Last<B: Blank, W: Wish> {
    blank: B,
    wish: W,
    search: Search,
    ghost lived: { HasLife (B.meaning blank) (order_of (W.ranked wish) W.Rank.Rank.precedes) (search_state search) },
}
