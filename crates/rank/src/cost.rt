// Ranks by cost.
ghost use Rattle.std.specs.Prelude.{nat_le};
ghost use Rattle.rank.specs.Orders.{by_state};
ghost use Rattle.rank.specs.OrderLaws.{by_state_lawful, least_first};

use crate::rank_trait::Rank;

// A sum and a state: the smaller sum first, then the smaller state.
#[derive(Clone, Copy, PartialEq, Eq, PartialOrd, Ord, Debug)]
pub struct CostRank {
    pub sum: u64,
    pub state: u32,
}

impl Rank for CostRank {
    ghost state = { λ x. x.state };

    ghost precedes = { by_state (λ x y. nat_le x.sum y.sum) (λ x. x.state) };

    ghost lawful = { by_state_lawful (λ x y. nat_le x.sum y.sum) (λ x. x.state) (least_first (λ x. x.sum)) };

    fn state(&self) -> u32 {
        self.state
    }

    fn no_later(&self, other: &CostRank) -> bool {
        self <= other
    }
}
