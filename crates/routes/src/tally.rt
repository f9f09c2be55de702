// What was tried, and what did not come out as it should.

// Something that a last told and that brute force denies.
#[derive(Clone, Copy, Debug)]
pub enum Lapse {
    // the two counts by brute force differ
    Count,
    // a lawful table was refused
    Table,
    // a call that is in order was refused
    Refused,
    // a call that is not in order was not refused, or with another number
    Accepted,
    // a refused call altered something
    Altered,
    // the floor is above a route
    Floor,
    // the standing route is no route of the blank, or costs something else
    Standing,
    // the standing route costs less than any
    Cheap,
    // done, and not so
    Done,
    // met, and not so
    Met,
    // spent, and not so
    Spent,
    // the moves do not add up
    Moves,
    // the last does not come to an end
    Endless,
    // another split of the budgets came to something else
    Split,
}

// Counts, and the first lapse.
#[derive(Clone, Copy, Default)]
pub struct Tally {
    pub tables: u64,
    pub counted: u64,
    pub lasts: u64,
    // lasts with more moves than states, so that some state was opened again
    pub reopening: u64,
    pub done: u64,
    pub met: u64,
    pub spent: u64,
    pub moves: u64,
    pub routes: u64,
    pub refusals: u64,
    pub mismatches: u64,
    pub first: Option<(u64, Lapse)>,
}

impl Tally {
    // Counts a mismatch where something does not hold, and keeps the first with the number of its table.
    pub(crate) fn expect(&mut self, holds: bool, lapse: Lapse) {
        if holds {
            return;
        }
        self.mismatches = self.mismatches.saturating_add(1);
        if self.first.is_none() {
            self.first = Some((self.tables, lapse));
        }
    }
}
