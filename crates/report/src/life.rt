// The orders of a document, performed and answered.
ghost use Rattle.std.specs.Prelude.{◌≡◌, map, IfOk, string_bytes};
ghost use Rattle.table.specs.Table.{Passes};
ghost use Rattle.tableblank.specs.Tabled.{tabled};
ghost use Rattle.reader.specs.Documents.{rows_of};
ghost use Rattle.report.specs.Printed.{PrintsOrders};

use crate::lines::Lines;
use blank::Blank;
use planner::Bench;
use rank::{CostRank, ShareRank};
use reader::Document;
use session::perform_all;
use std::alloc::{AllocError, Global};
use tableblank::Table;
use text::Order;
use wish::Quick;

// As many entries as the rows have that are lent to the orders: enough for every blank.
const ENTRIES: usize = 1024;

// Performs the orders over a blank under the wish quick, and lists their answers.
fn perform_and_list<B: Blank + Drop>(
    alloc: Global,
    blank: B,
    orders: &[Order],
) -> Result<String, AllocError>
    ensures { IfOk result (λ s. PrintsOrders (B.meaning blank) orders.now (string_bytes s)) }
{
    let bench = Bench::new(alloc)?;
    let mut costs = vec![in alloc; CostRank { sum: 0, state: 0 }; ENTRIES]?;
    let mut wishes = vec![in alloc; ShareRank {
        over: 0,
        under: 0,
        state: 0
    }; ENTRIES]?;
    let mut row = vec![in alloc; 0u32; ENTRIES]?;
    let (_, replies) = perform_all(
        alloc,
        bench,
        blank,
        Quick,
        orders,
        &mut costs,
        &mut wishes,
        &mut row,
    );
    let replies = replies?;
    let lines = Lines {
        orders,
        replies: &replies,
    };
    format!(in alloc; "{lines}")
}

// The lines of the orders of a document whose table passes its checks.
pub(crate) fn life_of(alloc: Global, document: &Document) -> Result<String, AllocError>
    requires { Passes (rows_of document.now) }
    ensures { IfOk result (λ s. PrintsOrders (tabled (rows_of document.now)) document.now.orders.items (string_bytes s)) }
{
    let table = Table::over(document.rows()).unwrap();
    perform_and_list(alloc, table, &document.orders)
}
