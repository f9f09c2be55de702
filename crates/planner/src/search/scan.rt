// What the marks say of one state, and of all: the live states, the least sum and the floor.
ghost use Rattle.std.specs.Prelude.{◌≡◌, ℕ, ◌≤◌, length, MatchOption};
ghost use Rattle.course.specs.Blanks.{Meaning};
ghost use Rattle.course.specs.Machine.{limit as state_limit, sum, Live, Raised};
ghost use Rattle.planner.specs.Searches.{search_state};
ghost use Rattle.planner.specs.Scans.{Inside, FoundLeast};

use crate::search::Search;
use crate::search::first::first_of;
use blank::Blank;
use course::Mark;
use rank::CostRank;

impl Search {
    // Only a route that costs less is still looked for.
    pub(crate) fn limit(&self) -> u32
        ensures { result ≡ state_limit (search_state self.now) }
    {
        let over = self.ceiling + 1;
        self.standing.map_or(over, |found| over.min(found.cost))
    }

    // The cost at which u is live, and its estimate.
    pub(crate) fn live<B: Blank>(&self, blank: &B, u: u32) -> Option<(u32, u32)>
        ensures { MatchOption result
            ((g : ℕ) → Live (B.meaning blank.now) (search_state self.now) u g → ⊥)
            (λ x. Live (B.meaning blank.now) (search_state self.now) u x.0 × (x.1 ≡ (B.meaning blank.now).estimate u)) }
    {
        let Mark::Open(reach) = self.bench.mark(u) else {
            return None;
        };
        let h = blank.estimate(u);
        let below = u64::from(reach.g) + u64::from(h) < u64::from(self.limit());
        below.then_some((reach.g, h))
    }

    // The sum of u, where it is live.
    fn sum<B: Blank>(&self, blank: &B, u: u32) -> Option<u32>
        ensures { MatchOption result
            ((g : ℕ) → Live (B.meaning blank.now) (search_state self.now) u g → ⊥)
            (λ f. (g : ℕ) × Live (B.meaning blank.now) (search_state self.now) u g × (f ≡ sum (B.meaning blank.now) u g)) }
    {
        let (g, h) = self.live(blank, u)?;
        Some(g + h)
    }

    // The least sum of the live states, by looking at each, for clamp and ceiling, which are lent no row for a queue.
    fn least<B: Blank>(&self, blank: &B) -> Option<u32>
        ensures { Inside (B.meaning blank.now) (search_state self.now)
            → FoundLeast (B.meaning blank.now) (search_state self.now) result }
    {
        (0..blank.states()).filter_map(|u| self.sum(blank, u)).min()
    }

    // The least sum of the live states, by a queue of their cost ranks. (The hint is for speed: work asks for it at every move.)
    #[inline(always)]
    pub(crate) fn least_queued<B: Blank>(&self, blank: &B, row: &mut [CostRank]) -> Option<u32>
        ensures { Inside (B.meaning blank.now) (search_state self.now)
            → (B.meaning blank.now).states ≤ length row.old
            → FoundLeast (B.meaning blank.now) (search_state self.now) result }
    {
        let first = first_of(blank.states(), row, |u| {
            self.sum(blank, u).map(|sum| CostRank {
                sum: u64::from(sum),
                state: u,
            })
        })?;
        self.sum(blank, first)
    }

    // Raises the floor to the least sum, or to the limit where no state is live.
    pub(crate) fn raise_to(&mut self, least: Option<u32>)
        ensures { (m : Meaning) → FoundLeast m (search_state self.old) least
            → Raised m (search_state self.old) (search_state self.new) }
    {
        let limit = self.limit();
        let to = least.unwrap_or(limit).min(limit);
        self.floor = self.floor.max(to);
    }

    // Raises the floor by a scan.
    pub(crate) fn raise_floor<B: Blank>(&mut self, blank: &B)
        ensures { Inside (B.meaning blank.now) (search_state self.old)
            → Raised (B.meaning blank.now) (search_state self.old) (search_state self.new) }
    {
        let least = self.least(blank);
        self.raise_to(least);
    }
}
