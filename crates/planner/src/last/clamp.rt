// Clamping and lifting.
ghost use Rattle.std.specs.Prelude.{◌≡◌, []};
ghost use Rattle.course.specs.Calls.{Life};
ghost use Rattle.wish.specs.Wished.{order_of};
ghost use Rattle.planner.specs.Idle.{Idle};
ghost use Rattle.planner.specs.Lasts.{state_of};

use crate::bench::Bench;
use crate::last::Last;
use crate::ratio::Ratio;
use crate::search::Search;
use blank::Blank;
use course::{Mark, Reach};
use wish::Wish;

// What lifting a last gives back.
#[derive(Drop)]
pub struct Lifted<B, W> {
    pub bench: Bench,
    pub blank: B,
    pub wish: W,
}

impl<B: Blank, W: Wish> Last<B, W> {
    // A last over a blank under a wish: a life with no calls yet, whatever lay on the bench.
    pub fn clamp(mut bench: Bench, blank: B, wish: W) -> Last<B, W>
        ensures life { Life (B.meaning blank) (order_of (W.ranked wish) W.Rank.Rank.precedes) [] (state_of result) }
        ensures blank { result.blank ≡ blank }
        ensures wish { result.wish ≡ wish }
    {
        bench.clean();
        bench.set_mark(blank.start(), Mark::Open(Reach { g: 0, from: None }));
        let mut search = Search {
            bench,
            standing: None,
            ceiling: 1023000,
            ratio: Ratio { p: 1, q: 1 },
            floor: 0,
            moves: 0,
        };
        search.raise_floor(&blank);
        Last {
            blank,
            wish,
            search,
        }
    }

    // The bench, idle, and what it was clamped with.
    pub fn lift(self) -> Lifted<B, W>
        ensures idle { Idle result.bench.marks.items result.bench.path.items }
        ensures blank { result.blank ≡ self.blank }
        ensures wish { result.wish ≡ self.wish }
    {
        let Last {
            blank,
            wish,
            search: Search { mut bench, .. },
        } = self;
        bench.clean();
        Lifted { bench, blank, wish }
    }
}
