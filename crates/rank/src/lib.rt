// Ranks: what the search chooses by. A rank carries a state and says whether it is no later than another. It stands on std alone.
#![tactic(auto)]

mod cost;
mod rank_trait;
mod share;

pub use cost::CostRank;
pub use rank_trait::Rank;
pub use share::ShareRank;

#[cfg(test)]
mod tests {
    use super::*;
    use std::process::Abort;

    // a goes before b, and b not before a
    fn before<R: Rank + Copy>(rt: &impl Abort, a: R, b: R) {
        assert!(rt; a.no_later(&b));
        assert!(rt; !b.no_later(&a));
    }

    fn share(over: u32, under: u32, state: u32) -> ShareRank {
        ShareRank { over, under, state }
    }

    #[test]
    fn larger_shares_go_first(rt: HostRuntime) {
        before(&rt, share(60, 30, 9), share(90, 50, 1));
        before(&rt, share(40, 20, 3), share(60, 30, 4));
        before(&rt, share(u32::MAX, 1, 9), share(u32::MAX - 1, 1, 1));
        before(
            &rt,
            share(u32::MAX, u32::MAX - 1, 9),
            share(u32::MAX, u32::MAX, 1),
        );
    }

    #[test]
    fn unders_of_nought_go_first(rt: HostRuntime) {
        before(&rt, share(0, 0, 9), share(u32::MAX, 1, 1));
        before(&rt, share(0, 0, 1), share(5, 0, 2));
        before(&rt, share(0, 0, 9), share(0, 1, 1));
    }

    #[test]
    fn smaller_sums_go_first(rt: HostRuntime) {
        before(
            &rt,
            CostRank { sum: 6, state: 9 },
            CostRank { sum: 7, state: 1 },
        );
        before(
            &rt,
            CostRank { sum: 7, state: 1 },
            CostRank { sum: 7, state: 2 },
        );
        assert_eq!(rt; CostRank { sum: 7, state: 1 }.state(), 1);
    }
}
