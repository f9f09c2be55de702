// What a last tells of itself.
ghost use Rattle.wish.specs.Wished.{order_of};
ghost use Rattle.planner.specs.Lasts.{state_of};
ghost use Rattle.planner.specs.Calls.{ShowAnswered};

use crate::last::Last;
use blank::Blank;
use wish::Wish;

// The cost of the standing route or none, the floor, the moves since clamping, the ceiling and the ratio p/q.
#[derive(Clone, Copy, Debug, PartialEq, Eq)]
pub struct Shown {
    pub cost: Option<u32>,
    pub floor: u32,
    pub moves: u32,
    pub ceiling: u32,
    pub p: u32,
    pub q: u32,
}

impl<B: Blank, W: Wish> Last<B, W> {
    // The standing route's cost, the floor, the moves and the settings.
    pub fn show(&self) -> Shown
        ensures { ShowAnswered (B.meaning self.now.blank) (order_of (W.ranked self.now.wish) W.Rank.Rank.precedes) (state_of self.now) result }
    {
        Shown {
            cost: self.search.standing.map(|found| found.cost),
            floor: self.search.floor,
            moves: self.search.moves,
            ceiling: self.search.ceiling,
            p: self.search.ratio.p,
            q: self.search.ratio.q,
        }
    }
}
