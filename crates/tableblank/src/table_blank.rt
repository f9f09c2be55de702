ghost use Rattle.std.specs.Prelude.{◌≡◌, ◌+◌, slice_range};
ghost use Rattle.table.specs.Table.{Passes};
ghost use Rattle.table.specs.Checks.{rows_in};
ghost use Rattle.tableblank.specs.Made.{Made};
ghost use Rattle.tableblank.specs.Tabled.{first, tabled};
ghost use Rattle.tableblank.specs.Laws.{passes_lawful};

use blank::Blank;
use table::{Flaw, TableRows};

// A table whose rows pass the checks.
#[derive(Clone, Copy)]
pub struct Table<'a> {
    rows: TableRows<'a>,
    ghost sound: { Passes (rows_in rows) },
}

impl<'a> Table<'a> {
    // The table of some rows, or what is wrong with them.
    pub fn over(rows: TableRows<'a>) -> Result<Table<'a>, Flaw>
        ensures { Made (rows_in rows.entry) (λ t. rows_in t.rows) result }
    {
        rows.check()?;
        Ok(Table { rows })
    }

    // The targets and the costs of a state's entries, in their order. A number that is no state has none. (The table's check cuts out a state's
    // entries too, of rows of which less is known.)
    fn row(&self, state: u32) -> (&'a [u32], &'a [u32])
        ensures targets { result.0.now ≡ slice_range (rows_in self.now.rows).targets (first (rows_in self.now.rows) state) (first (rows_in self.now.rows) (state + 1)) }
        ensures costs { result.1.now ≡ slice_range (rows_in self.now.rows).costs (first (rows_in self.now.rows) state) (first (rows_in self.now.rows) (state + 1)) }
    {
        let u = state as usize;
        if u >= self.rows.estimates.len() {
            return (&[], &[]);
        }
        let from = self.rows.firsts[u] as usize;
        let to = self.rows.firsts[u + 1] as usize;
        (&self.rows.targets[from..to], &self.rows.costs[from..to])
    }
}

impl<'a> Blank for Table<'a> {
    ghost meaning = { λ x. tabled (rows_in x.rows) };

    ghost lawful = { λ x. passes_lawful (rows_in x.rows) x.sound };

    fn states(&self) -> u32 {
        self.rows.estimates.len() as u32
    }

    fn start(&self) -> u32 {
        self.rows.start
    }

    fn goal(&self) -> u32 {
        self.rows.goal
    }

    fn places(&self, state: u32) -> u32 {
        self.row(state).0.len() as u32
    }

    fn cut(&self, state: u32, place: u32) -> Option<(u32, u32)> {
        let (targets, costs) = self.row(state);
        let at = place as usize;
        Some((*targets.get(at)?, *costs.get(at)?))
    }

    fn estimate(&self, state: u32) -> u32 {
        self.rows
            .estimates
            .get(state as usize)
            .copied()
            .unwrap_or(0)
    }
}
