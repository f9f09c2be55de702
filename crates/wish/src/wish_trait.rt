// What every wish answers, and the order by which a wish is known.
ghost use Rattle.std.specs.Prelude.{◌≡◌};
ghost use Rattle.course.specs.declared.machine.Numbers.{Numbers};
ghost use Rattle.course.specs.Machine.{LawfulRanks};
ghost use Rattle.wish.specs.Wished.{order_of};

use course::Numbers;
use rank::Rank;

// A wish turns the numbers of one open state into a rank of its own kind. The rank carries that state, and equal numbers give equal ranks.
pub trait Wish {
    type Rank: Rank + Copy;

    // the rank of the numbers
    ghost ranked: { Self → Numbers → Self.Rank };

    fn rank(&self, numbers: &Numbers) -> Self::Rank
        ensures { result ≡ ranked self.now numbers.now };

    ghost carries: { (w : Self) (n : Numbers) → Self.Rank.Rank.state (ranked w n) ≡ n.state };
}

// Whether the first of two sets of numbers ranks no later than the second: the order of a wish.
pub fn no_later<W: Wish>(wish: &W, a: &Numbers, b: &Numbers) -> bool
    ensures { result ≡ order_of (W.Wish.ranked wish.now) W.Rank.Rank.precedes a.now b.now }
{
    wish.rank(a).no_later(&wish.rank(b))
}

// The order of every wish keeps the laws of ranks.
pub fn ranks_are_lawful<W: Wish>(wish: &W)
    ensures { LawfulRanks (order_of (W.Wish.ranked wish.now) W.Rank.Rank.precedes) }
{}
