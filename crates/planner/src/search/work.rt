// Moves, until a look or the budget ends them.
ghost use Rattle.std.specs.Prelude.{List, ◌≤◌, length};
ghost use Rattle.course.specs.Calls.{Call, Answer, Life, Works};
ghost use Rattle.wish.specs.Wished.{order_of};
ghost use Rattle.planner.specs.Searches.{search_state};

use crate::last::Worked;
use crate::search::Search;
use blank::Blank;
use course::Word;
use rank::CostRank;
use wish::Wish;

impl Search {
    // Moves until the search is done, the ratio is met or the budget is spent. Blank, wish and the two rows stay parameters by themselves, here
    // and in a move: behind that each goes on alone.
    pub(crate) fn work<B: Blank, W: Wish>(
        &mut self,
        blank: &B,
        wish: &W,
        budget: u32,
        costs: &mut [CostRank],
        wishes: &mut [W::Rank],
    ) -> Worked
        ensures { (cs : List (Call × Answer)) → Life (B.meaning blank.now) (order_of (W.ranked wish.now) W.Rank.Rank.precedes) cs (search_state self.old)
            → (B.meaning blank.now).states ≤ length costs.old
            → (B.meaning blank.now).states ≤ length wishes.old
            → Works (B.meaning blank.now) (order_of (W.ranked wish.now) W.Rank.Rank.precedes) budget (search_state self.old) result.word result.moves (search_state self.new) }
    {
        let mut least = self.least_queued(blank, costs);
        for moves in 0..budget {
            if let Some(word) = self.look() {
                return Worked { word, moves };
            }
            least = self.one_move(blank, wish, least, costs, wishes);
        }
        Worked {
            word: self.look().unwrap_or(Word::Spent),
            moves: budget,
        }
    }
}
