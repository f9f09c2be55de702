// Wishes: how the search chooses among open states. A wish turns the numbers of a state into a rank. It stands on course, for the numbers and
// the laws of an order, and on rank.
#![tactic(auto)]

mod wish_trait;
mod wishes;

pub use wish_trait::{Wish, no_later, ranks_are_lawful};
pub use wishes::{Even, Level, Quick};

#[cfg(test)]
mod tests {
    use super::*;
    use course::Numbers;
    use rank::ShareRank;
    use std::process::Abort;

    const SOME: Numbers = Numbers {
        state: 5,
        g: 10,
        h: 4,
        limit: 30,
        p: 3,
        q: 2,
        least: 12,
    };

    fn is_share(rt: &impl Abort, r: ShareRank, over: u32, under: u32) {
        assert_eq!(rt; r.over, over);
        assert_eq!(rt; r.under, under);
        assert_eq!(rt; r.state, 5);
    }

    #[test]
    fn each_wish_ranks(rt: HostRuntime) {
        is_share(&rt, Quick.rank(&SOME), 20, 4);
        is_share(&rt, Level.rank(&SOME), 16, 4);
        let even = Even.rank(&SOME);
        assert_eq!(rt; even.sum, 14);
        assert_eq!(rt; even.state, 5);
    }

    #[test]
    fn an_over_is_cut_off(rt: HostRuntime) {
        is_share(&rt, Quick.rank(&Numbers { g: 31, ..SOME }), 0, 4);
        is_share(&rt, Level.rank(&Numbers { g: 19, ..SOME }), 0, 4);
        is_share(
            &rt,
            Level.rank(&Numbers {
                p: u32::MAX,
                least: u32::MAX,
                q: u32::MAX,
                ..SOME
            }),
            u32::MAX,
            4,
        );
        is_share(
            &rt,
            Level.rank(&Numbers {
                p: 65536,
                least: 65536,
                q: 1,
                ..SOME
            }),
            u32::MAX - 9,
            4,
        );
    }

    #[test]
    fn wishes_differ_in_their_orders(rt: HostRuntime) {
        let near = Numbers {
            state: 6,
            g: 15,
            h: 1,
            ..SOME
        };
        assert!(rt; no_later(&Quick, &near, &SOME));
        assert!(rt; no_later(&Even, &SOME, &near));
        assert!(rt; !no_later(&Even, &near, &SOME));
    }
}
