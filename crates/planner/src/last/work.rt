// Work, or why it is refused.
ghost use Rattle.std.specs.Prelude.{◌≡◌, ◌≤◌, length, OnErr, Some};
ghost use Rattle.wish.specs.Wished.{order_of};
ghost use Rattle.planner.specs.Lasts.{state_of};
ghost use Rattle.planner.specs.Calls.{AcceptedWork, WorkAnswered};
ghost use Rattle.planner.specs.Printed.{worked_text};

use crate::last::Last;
use blank::Blank;
use course::{Refusal, Word};
use rank::CostRank;
use std::fmt;
use wish::Wish;

// How a work ended, and the moves that it made.
#[derive(Clone, Copy, Debug, PartialEq, Eq)]
pub struct Worked {
    pub word: Word,
    pub moves: u32,
}

// The word, a space, and the moves.
impl fmt::Display for Worked {
    ghost output = { λ w. Some (worked_text w.word w.moves) };

    fn fmt<W: fmt::Write>(&self, f: &mut fmt::Formatter<W>) -> fmt::Result {
        let moves = self.moves;
        match self.word {
            Word::Done => write!(f, "done {moves}"),
            Word::Met => write!(f, "met {moves}"),
            Word::Spent => write!(f, "spent {moves}"),
        }
    }
}

// The largest budget.
const MOST_MOVES: u32 = 65535;

impl<B: Blank, W: Wish> Last<B, W> {
    // Moves until the search is done, the ratio is met or the budget is spent; or refuses.
    pub fn work(
        &mut self,
        budget: u32,
        costs: &mut [CostRank],
        wishes: &mut [W::Rank],
    ) -> Result<Worked, Refusal>
        ensures answer { WorkAnswered (B.meaning self.old.blank) (order_of (W.ranked self.old.wish) W.Rank.Rank.precedes) (state_of self.old) budget (length costs.old) (length wishes.old) result (state_of self.new) }
        ensures untouched { OnErr result ((self.new ≡ self.old) × (costs.new ≡ costs.old) × (wishes.new ≡ wishes.old)) }
        ensures blank { self.new.blank ≡ self.old.blank }
        ensures wish { self.new.wish ≡ self.old.wish }
    {
        let states = self.blank.states() as usize;
        if costs.len() < states || wishes.len() < states {
            return Err(Refusal::RowTooShort);
        }
        if budget > MOST_MOVES {
            return Err(Refusal::BudgetTooLarge);
        }
        Ok(self.work_on(budget, costs, wishes))
    }

    // Works, with a budget and rows that are allowed.
    fn work_on(&mut self, budget: u32, costs: &mut [CostRank], wishes: &mut [W::Rank]) -> Worked
        requires rows { ((B.meaning self.old.blank).states ≤ length costs.old) × ((B.meaning self.old.blank).states ≤ length wishes.old) }
        requires allowed { budget ≤ 65535 }
        ensures worked { AcceptedWork (B.meaning self.old.blank) (order_of (W.ranked self.old.wish) W.Rank.Rank.precedes) (state_of self.old) budget (length costs.old) (length wishes.old) result.word result.moves (state_of self.new) }
        ensures blank { self.new.blank ≡ self.old.blank }
        ensures wish { self.new.wish ≡ self.old.wish }
    {
        self.search
            .work(&self.blank, &self.wish, budget, costs, wishes)
    }
}
