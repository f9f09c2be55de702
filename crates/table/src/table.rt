ghost use Rattle.std.specs.Prelude.{◌≡◌, ◌+◌, ◌<◌, length, Decides};
ghost use Rattle.table.specs.Table.{states, Shape, Ends, GoodCost, GoodEstimate, Bad};
ghost use Rattle.table.specs.Checks.{rows_in, Checked, Stepped, Rising, First};

use crate::cuts::{Aimed, Whole};
use crate::flaw::{Flaw, absent};
use course::Refusal;

// How many states and how many cuts a table may have, and how large its costs and estimates may be.
const LEAST_STATES: usize = 2;

const MOST_STATES: usize = 1024;

const MOST_CUTS: usize = 8192;

const LEAST_COST: u32 = 1;

const MOST_COST: u32 = 1000;

const MOST_ESTIMATE: u32 = 1023000;

// The four rows of a table, lent for reading, with its start and goal, as they come. There is an estimate for each state. A cut
// of a state is an entry of `targets` and of `costs`: those of state u stand from `firsts[u]` up to `firsts[u + 1]`. They stay four rows,
// not one of cuts: a table lends four rows of numbers, so that none is copied.
#[derive(Clone, Copy)]
pub struct TableRows<'a> {
    pub firsts: &'a [u32],
    pub targets: &'a [u32],
    pub costs: &'a [u32],
    pub estimates: &'a [u32],
    pub start: u32,
    pub goal: u32,
}

impl<'a> TableRows<'a> {
    // Nothing, or the smallest cause that applies, with its least bad place.
    pub fn check(&self) -> Result<(), Flaw>
        ensures { Checked (rows_in self.now) result }
    {
        let aimed = self.aimed()?;
        absent(Refusal::BadCost, self.first_bad_cost())?;
        absent(Refusal::BadEstimate, self.first_bad_estimate())?;
        absent(Refusal::SteepEstimate, aimed.first_steep_estimate())
    }

    // These rows, once they are whole and no target is bad.
    fn aimed(&self) -> Result<Aimed<'a>, Flaw>
        ensures { Stepped (rows_in self.now) (λ a. rows_in a.whole.rows) result }
    {
        let whole = self.whole()?;
        absent(Refusal::BadTarget, whole.first_bad_target())?;
        Ok(Aimed { whole })
    }

    // These rows, once no cause applies that means the whole: they fit together, and have two ends.
    fn whole(&self) -> Result<Whole<'a>, Flaw>
        ensures { Stepped (rows_in self.now) (λ w. rows_in w.rows) result }
    {
        if !self.fits_together() {
            return Err(Flaw {
                cause: Refusal::WrongShape,
                place: 0,
            });
        }
        if !self.has_two_ends() {
            return Err(Flaw {
                cause: Refusal::BadEnds,
                place: 0,
            });
        }
        Ok(Whole { rows: *self })
    }

    // Whether the lengths of the rows go together, and `firsts` cuts the entries up among the states.
    fn fits_together(&self) -> bool
        ensures { Decides result (Shape (rows_in self.now)) }
    {
        let n = self.estimates.len();
        let cuts = self.targets.len();
        (LEAST_STATES..=MOST_STATES).contains(&n)
            && self.firsts.len() == n + 1
            && cuts == self.costs.len()
            && cuts <= MOST_CUTS
            && self.firsts[0] == 0
            && self.firsts[n] as usize == cuts
            && self.rises()
    }

    // Whether `firsts` never falls.
    #[tactic(auto, using(crate::proofs::Firsts::sorted_rises))]
    fn rises(&self) -> bool
        requires { length (rows_in self.now).firsts ≡ states (rows_in self.now) + 1 }
        ensures { Decides result (Rising (rows_in self.now)) }
    {
        self.firsts.is_sorted()
    }

    // Whether start and goal are two states.
    fn has_two_ends(&self) -> bool
        ensures { Decides result (Ends (rows_in self.now)) }
    {
        let n = self.estimates.len();
        (self.start as usize) < n && (self.goal as usize) < n && self.start != self.goal
    }

    // The first entry whose cost is bad. A loop over the slice with its index: the costs are looked at in turn, each with its entry.
    fn first_bad_cost(&self) -> Option<usize>
        ensures { First (Bad (rows_in self.now) 8) result }
    {
        for (i, cost) in self.costs.iter().enumerate() {
            if !is_good_cost(*cost) {
                return Some(i);
            }
        }
        None
    }

    // The first state whose estimate is bad.
    fn first_bad_estimate(&self) -> Option<usize>
        ensures { First (Bad (rows_in self.now) 9) result }
    {
        (0..self.estimates.len()).find(|s| !self.is_good_estimate(*s))
    }

    // Whether the estimate of state s is not too large, and 0 at the goal.
    fn is_good_estimate(&self, s: usize) -> bool
        requires { s < states (rows_in self.now) }
        ensures { Decides result (GoodEstimate (rows_in self.now) s) }
    {
        let estimate = self.estimates[s];
        estimate <= MOST_ESTIMATE && (s != self.goal as usize || estimate == 0)
    }
}

// Whether a cost lies within its bounds.
fn is_good_cost(cost: u32) -> bool
    ensures { Decides result (GoodCost cost) }
{
    (LEAST_COST..=MOST_COST).contains(&cost)
}

#[cfg(test)]
mod tests {
    use super::TableRows;
    use crate::flaw::Flaw;
    use course::Refusal;
    use std::process::Abort;

    // Three states: 0 leads to 1 and to the goal 2, and 1 to 2.
    fn good() -> TableRows<'static> {
        TableRows {
            firsts: &[0, 2, 3, 3],
            targets: &[1, 2, 2],
            costs: &[1, 3, 2],
            estimates: &[3, 2, 0],
            start: 0,
            goal: 2,
        }
    }

    fn told(rt: &impl Abort, rows: TableRows<'_>, cause: Refusal, place: usize) {
        assert_eq!(rt; rows.check(), Err(Flaw { cause, place }));
    }

    #[test]
    fn a_good_table_passes(rt: HostRuntime) {
        assert_eq!(rt; good().check(), Ok(()));
    }

    #[test]
    fn the_whole_is_told_at_nought(rt: HostRuntime) {
        told(
            &rt,
            TableRows {
                firsts: &[0, 2, 1, 3],
                ..good()
            },
            Refusal::WrongShape,
            0,
        );
        told(
            &rt,
            TableRows {
                costs: &[1, 3],
                ..good()
            },
            Refusal::WrongShape,
            0,
        );
        told(&rt, TableRows { start: 2, ..good() }, Refusal::BadEnds, 0);
        told(
            &rt,
            TableRows {
                goal: 3,
                costs: &[0, 0, 0],
                ..good()
            },
            Refusal::BadEnds,
            0,
        );
    }

    #[test]
    fn a_part_is_told_at_its_first_place(rt: HostRuntime) {
        told(
            &rt,
            TableRows {
                targets: &[1, 1, 1],
                ..good()
            },
            Refusal::BadTarget,
            1,
        );
        told(
            &rt,
            TableRows {
                targets: &[1, 2, 1],
                costs: &[0, 0, 0],
                ..good()
            },
            Refusal::BadTarget,
            2,
        );
        told(
            &rt,
            TableRows {
                costs: &[1, 1001, 0],
                ..good()
            },
            Refusal::BadCost,
            1,
        );
        told(
            &rt,
            TableRows {
                estimates: &[3, 1_023_001, 1],
                ..good()
            },
            Refusal::BadEstimate,
            1,
        );
        told(
            &rt,
            TableRows {
                estimates: &[3, 2, 1],
                ..good()
            },
            Refusal::BadEstimate,
            2,
        );
        told(
            &rt,
            TableRows {
                estimates: &[2, 3, 0],
                ..good()
            },
            Refusal::SteepEstimate,
            2,
        );
    }
}
