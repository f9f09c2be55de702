// The checks of the cuts, one by one: of rows whose whole is good, and then of rows whose targets are good too.
ghost use Rattle.std.specs.Prelude.{◌≡◌, ℕ, ◌+◌, ◌<◌, None, Decides, slice_index};
ghost use Rattle.table.specs.Table.{states, Shape, Ends, Holds, GoodTarget, GoodSlope, Bad};
ghost use Rattle.table.specs.Checks.{rows_in, First, FirstFailing};

use crate::table::TableRows;
use std::ops::Range;

// Rows that fit together and have two ends.
#[derive(Clone, Copy)]
pub(crate) struct Whole<'a> {
    pub(crate) rows: TableRows<'a>,
    ghost shape: { Shape (rows_in rows) },
    ghost ends: { Ends (rows_in rows) },
}

impl Whole<'_> {
    // The first entry whose target is bad.
    pub(crate) fn first_bad_target(&self) -> Option<usize>
        ensures { First (Bad (rows_in self.now.rows) 7) result }
    {
        self.first_failing(|u, e| self.is_good_target(u, e))
    }

    // Whether the cut at entry e of state u leads to another state, above the target before it in the same state.
    fn is_good_target(&self, u: usize, e: usize) -> bool
        requires { Holds (rows_in self.now.rows) u e }
        ensures { Decides result (GoodTarget (rows_in self.now.rows) u e) }
    {
        let rows = self.rows;
        let target = rows.targets[e] as usize;
        target < rows.estimates.len()
            && target != u
            && (e == rows.firsts[u] as usize || (rows.targets[e - 1] as usize) < target)
    }

    // The first entry, of all states, that fails a test of its state and of itself. The two stay two numbers, here and in the tests: that
    // the state holds the entry is a fact of the rows too, so a struct of the two could not keep it.
    fn first_failing<F: Fn(usize, usize) -> bool>(&self, is_good: F) -> Option<usize>
        requires { (u e : ℕ) → Holds (rows_in self.now.rows) u e → F.pre is_good u e }
        ensures { FirstFailing (rows_in self.now.rows) (λ u e b. F.post is_good u e b) result }
    {
        // two loops: a `find` inside would need a clause of its own, since its closure calls a parameter
        for u in 0..self.rows.estimates.len() {
            for e in self.entries(u) {
                if !is_good(u, e) {
                    return Some(e);
                }
            }
        }
        None
    }

    // The entries of state u.
    fn entries(&self, u: usize) -> Range<usize>
        requires { u < states (rows_in self.now.rows) }
        ensures from { result.start ≡ slice_index (rows_in self.now.rows).firsts u }
        ensures to { result.end ≡ slice_index (rows_in self.now.rows).firsts (u + 1) }
    {
        let firsts = self.rows.firsts;
        firsts[u] as usize..firsts[u + 1] as usize
    }
}

// Rows that fit together and have two ends, each of whose cuts leads to a state.
#[derive(Clone, Copy)]
pub(crate) struct Aimed<'a> {
    pub(crate) whole: Whole<'a>,
    ghost aimed: { First (Bad (rows_in whole.rows) 7) None },
}

impl Aimed<'_> {
    // The first entry where the state's estimate is too steep.
    pub(crate) fn first_steep_estimate(&self) -> Option<usize>
        ensures { First (Bad (rows_in self.now.whole.rows) 10) result }
    {
        self.whole.first_failing(|u, e| self.is_good_slope(u, e))
    }

    // Whether the estimate of state u is at most the cost of its cut at entry e and the estimate behind it: else it is too steep.
    fn is_good_slope(&self, u: usize, e: usize) -> bool
        requires { Holds (rows_in self.now.whole.rows) u e }
        ensures { Decides result (GoodSlope (rows_in self.now.whole.rows) u e) }
    {
        let rows = self.whole.rows;
        let behind = rows.estimates[rows.targets[e] as usize];
        u64::from(rows.estimates[u]) <= u64::from(rows.costs[e]) + u64::from(behind)
    }
}
