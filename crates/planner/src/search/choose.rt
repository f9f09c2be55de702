// The choice of the state that a move closes.
ghost use Rattle.std.specs.Prelude.{◌≡◌, ℕ, ◌≤◌, length, MatchOption};
ghost use Rattle.course.specs.Machine.{Focal, Chosen, numbers};
ghost use Rattle.wish.specs.Wished.{order_of};
ghost use Rattle.planner.specs.Searches.{search_state};
ghost use Rattle.planner.specs.Scans.{Inside};

use crate::search::Search;
use crate::search::first::first_of;
use blank::Blank;
use course::Numbers;
use wish::Wish;

impl Search {
    // What a wish is told of u, where u is in the focal set at the least sum.
    fn focal<B: Blank>(&self, blank: &B, u: u32, least: u32) -> Option<Numbers>
        ensures { MatchOption result
            ((g : ℕ) → Focal (B.meaning blank.now) (search_state self.now) least u g → ⊥)
            (λ x. Focal (B.meaning blank.now) (search_state self.now) least u x.g
            × (x ≡ numbers (B.meaning blank.now) (search_state self.now) least u x.g)) }
    {
        let (g, h) = self.live(blank, u)?;
        self.ratio.spans(g + h, least).then(|| Numbers {
            state: u,
            g,
            h,
            limit: self.limit(),
            p: self.ratio.p,
            q: self.ratio.q,
            least,
        })
    }

    // The state of the focal set whose rank is first.
    pub(crate) fn choose<B: Blank, W: Wish>(
        &self,
        blank: &B,
        wish: &W,
        row: &mut [W::Rank],
        least: u32,
    ) -> Option<u32>
        ensures { Inside (B.meaning blank.now) (search_state self.now)
            → (B.meaning blank.now).states ≤ length row.old
            → MatchOption result
            ((u g : ℕ) → Focal (B.meaning blank.now) (search_state self.now) least u g → ⊥)
            (λ n. (g : ℕ) × Chosen (B.meaning blank.now) (order_of (W.ranked wish.now) W.Rank.Rank.precedes) (search_state self.now) least n g) }
    {
        first_of(blank.states(), row, |u| {
            self.focal(blank, u, least).map(|told| wish.rank(&told))
        })
    }
}
