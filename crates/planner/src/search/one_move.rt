// One move, and the look before it.
ghost use Rattle.std.specs.Prelude.{◌<◌, ◌≤◌, length, MatchOption};
ghost use Rattle.course.specs.Machine.{limit as state_limit, Move};
ghost use Rattle.course.specs.Calls.{Finished, Met as Near};
ghost use Rattle.course.proofs.Floor.{Held};
ghost use Rattle.wish.specs.Wished.{order_of};
ghost use Rattle.planner.specs.Searches.{search_state, Stops};
ghost use Rattle.planner.specs.Scans.{FoundLeast};

use crate::search::Search;
use blank::Blank;
use course::{Mark, Word};
use rank::CostRank;
use wish::Wish;

impl Search {
    // One move from the least sum; it answers the least sum after it. Where there is no state to choose, or no more moves can be counted, no
    // move is made: no life leads there.
    pub(crate) fn one_move<B: Blank, W: Wish>(
        &mut self,
        blank: &B,
        wish: &W,
        least: Option<u32>,
        costs: &mut [CostRank],
        wishes: &mut [W::Rank],
    ) -> Option<u32>
        ensures { Held (B.meaning blank.now) (search_state self.old)
            → FoundLeast (B.meaning blank.now) (search_state self.old) least
            → (B.meaning blank.now).states ≤ length costs.old
            → (B.meaning blank.now).states ≤ length wishes.old
            → self.old.moves < 4294967295
            → self.old.floor < state_limit (search_state self.old)
            → Move (B.meaning blank.now) (order_of (W.ranked wish.now) W.Rank.Rank.precedes) (search_state self.old) (search_state self.new)
            × FoundLeast (B.meaning blank.now) (search_state self.new) result }
    {
        let n = self.choose(blank, wish, wishes, least?)?;
        let Mark::Open(reach) = self.bench.mark(n) else {
            return None;
        };
        self.moves = self.moves.checked_add(1)?;
        self.bench.set_mark(n, Mark::Closed(reach));
        self.expand(blank, n, reach.g);
        let next = self.least_queued(blank, costs);
        self.raise_to(next);
        next
    }

    // The word by which a look tells a work to stop, if it does.
    pub(crate) fn look(&self) -> Option<Word>
        ensures { MatchOption result ((Finished (search_state self.now) → ⊥) × (Near (search_state self.now) → ⊥)) (λ w. Stops w (search_state self.now)) }
    {
        if self.limit() <= self.floor {
            return Some(Word::Done);
        }
        let found = self.standing?;
        let met = found.cost <= self.ceiling && self.ratio.spans(found.cost, self.floor);
        met.then_some(Word::Met)
    }
}
