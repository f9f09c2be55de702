// Ranks by share.
ghost use Rattle.std.specs.Prelude.{◌≡◌, ◌^◌, ◌<◌};
ghost use Rattle.rank.specs.Orders.{weight, no_smaller_share, by_state};
ghost use Rattle.rank.specs.OrderLaws.{by_state_lawful, largest_share_first};

use crate::rank_trait::Rank;

// An over, an under and a state: the larger exact quotient over/under first, an under of 0 before every under above 0; equal quotients, and
// two unders of 0, by the smaller state. It is no Ord, whose equal values are ==: 0/0 and 5/0 of one state are unequal and tie.
#[derive(Clone, Copy, PartialEq, Eq, Debug)]
pub struct ShareRank {
    pub over: u32,
    pub under: u32,
    pub state: u32,
}

impl ShareRank {
    // The over of the quotient, or 1 where the under is 0: then 1/0 is above every quotient when two are compared by products.
    fn weighed(&self) -> u64
        ensures { (result ≡ weight self.now.over self.now.under) × (result < 2 ^ 32) }
    {
        if self.under == 0 {
            1
        } else {
            u64::from(self.over)
        }
    }
}

impl Rank for ShareRank {
    ghost state = { λ x. x.state };

    ghost precedes = { by_state (λ x y. no_smaller_share x.over x.under y.over y.under) (λ x. x.state) };

    ghost lawful = { by_state_lawful (λ x y. no_smaller_share x.over x.under y.over y.under) (λ x. x.state) (largest_share_first (λ x. x.over) (λ x. x.under)) };

    fn state(&self) -> u32 {
        self.state
    }

    fn no_later(&self, other: &ShareRank) -> bool {
        let theirs = other.weighed() * u64::from(self.under);
        let mine = self.weighed() * u64::from(other.under);
        (theirs, self.state) <= (mine, other.state)
    }
}
