// The three wishes.
ghost use Rattle.std.specs.Prelude.{◌≡◌, ◌+◌, ◌*◌, refl};
ghost use Rattle.wish.specs.Wished.{cut_off};

use crate::wish_trait::Wish;
use course::Numbers;
use rank::{CostRank, ShareRank};

// The share rank of an over of a − b, which is cut off, and an under of h.
fn share_of(a: u64, b: u64, numbers: &Numbers) -> ShareRank
    ensures { result ≡ record { over = cut_off a b; under = numbers.now.h; state = numbers.now.state } }
{
    ShareRank {
        over: u32::try_from(a.saturating_sub(b)).unwrap_or(u32::MAX),
        under: numbers.h,
        state: numbers.state,
    }
}

// Prefers the state that has the most of the limit left for what its estimate asks: a share rank, over is limit − g, under is h.
#[derive(Clone, Copy)]
pub struct Quick;

impl Wish for Quick {
    type Rank = ShareRank;

    ghost ranked = { λ _ n. record { over = cut_off n.limit n.g; under = n.h; state = n.state } };

    ghost carries = { λ _ _. refl };

    fn rank(&self, numbers: &Numbers) -> ShareRank {
        share_of(u64::from(numbers.limit), u64::from(numbers.g), numbers)
    }
}

// The same of the ratio's bound in place of the limit: a share rank, over is p × least sum − q × g, under is h.
#[derive(Clone, Copy)]
pub struct Level;

impl Wish for Level {
    type Rank = ShareRank;

    ghost ranked = { λ _ n. record { over = cut_off (n.p * n.least) (n.q * n.g); under = n.h; state = n.state } };

    ghost carries = { λ _ _. refl };

    fn rank(&self, numbers: &Numbers) -> ShareRank {
        let most = u64::from(numbers.p) * u64::from(numbers.least);
        let spent = u64::from(numbers.q) * u64::from(numbers.g);
        share_of(most, spent, numbers)
    }
}

// Prefers the smallest sum: the cost rank of g + h.
#[derive(Clone, Copy)]
pub struct Even;

impl Wish for Even {
    type Rank = CostRank;

    ghost ranked = { λ _ n. record { sum = n.g + n.h; state = n.state } };

    ghost carries = { λ _ _. refl };

    fn rank(&self, numbers: &Numbers) -> CostRank {
        CostRank {
            sum: u64::from(numbers.g) + u64::from(numbers.h),
            state: numbers.state,
        }
    }
}
