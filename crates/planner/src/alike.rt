// Two lasts side by side.
ghost use Rattle.wish.specs.Wished.{order_of};
ghost use Rattle.planner.specs.Lasts.{state_of};
ghost use Rattle.planner.specs.Calls.{ShowAnswered, RouteAnswered};
ghost use Rattle.planner.specs.Alike.{Agree};

use crate::last::{Last, Shown, Told};
use blank::Blank;
use course::Refusal;
use wish::Wish;

// What each of two lasts shows, and what it answers when its route is asked for.
#[derive(Clone, Copy, Debug, PartialEq, Eq)]
pub struct Compared {
    pub first: Shown,
    pub second: Shown,
    pub first_route: Result<Told, Refusal>,
    pub second_route: Result<Told, Refusal>,
}

// Shows two lasts and writes the route of each into a row of its own. Where the blanks mean the same, the wishes are equal and so are the
// settings, each at equal moves, and the moves, both show the same, and routes that are told are the same.
pub fn compare<A: Blank, V: Wish, B: Blank, W: Wish>(
    first: &Last<A, V>,
    second: &Last<B, W>,
    first_row: &mut [u32],
    second_row: &mut [u32],
) -> Compared
    ensures first { ShowAnswered (A.Blank.meaning first.now.blank) (order_of (V.Wish.ranked first.now.wish) V.Rank.Rank.precedes) (state_of first.now) result.first }
    ensures second { ShowAnswered (B.Blank.meaning second.now.blank) (order_of (W.Wish.ranked second.now.wish) W.Rank.Rank.precedes) (state_of second.now) result.second }
    ensures tells { RouteAnswered (A.Blank.meaning first.now.blank) (order_of (V.Wish.ranked first.now.wish) V.Rank.Rank.precedes) (state_of first.now) first_row.old result.first_route first_row.new }
    ensures others { RouteAnswered (B.Blank.meaning second.now.blank) (order_of (W.Wish.ranked second.now.wish) W.Rank.Rank.precedes) (state_of second.now) second_row.old result.second_route second_row.new }
    ensures agree { Agree (A.Blank.meaning first.now.blank) (B.Blank.meaning second.now.blank) (order_of (V.Wish.ranked first.now.wish) V.Rank.Rank.precedes) (order_of (W.Wish.ranked second.now.wish) W.Rank.Rank.precedes) (state_of first.now) (state_of second.now) result first_row.new second_row.new }
{
    let first_shown = first.show();
    let second_shown = second.show();
    Compared {
        first: first_shown,
        second: second_shown,
        first_route: first.route(first_row),
        second_route: second.route(second_row),
    }
}
