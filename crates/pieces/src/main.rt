// pieces runs the measured pieces of docs/SEARCH.md and prints what each comes to: the word and the moves of one work, then the cost, the floor
// and the route. The crate measured proves the same of the rules. It stands on planner, wish, rank, layers, raster, tableblank, table, blank
// and course.
#![tactic(auto)]

use anyhow::anyhow;
use blank::Blank;
use layers::Rounding;
use planner::{Bench, Last, Shown, Worked};
use rank::{CostRank, ShareRank};
use raster::{Cells, Raster};
use table::TableRows;
use tableblank::Table;
use wish::Quick;

// Room for every piece.
const ENTRIES: usize = 8;

const MOST_MOVES: u32 = 65535;

fn tell(rt: &HostRuntime, name: &str, worked: Worked, shown: Shown) -> anyhow::Result<()> {
    print!(rt; "{name}: {worked}, cost ")?;
    match shown.cost {
        Some(cost) => print!(rt; "{cost}")?,
        None => print!(rt; "none")?,
    }
    print!(rt; ", floor {}, route", shown.floor)?;
    Ok(())
}

// Clamps a blank, lowers the ceiling, works until done, and tells.
fn piece<B: Blank + Drop>(
    rt: &HostRuntime,
    name: &str,
    blank: B,
    ceiling: u32,
) -> anyhow::Result<()> {
    let bench = Bench::new(rt.alloc())?;
    let mut costs = [CostRank { sum: 0, state: 0 }; ENTRIES];
    let mut wishes = [ShareRank {
        over: 0,
        under: 0,
        state: 0,
    }; ENTRIES];
    let mut row = [0; ENTRIES];
    let mut last = Last::clamp(bench, blank, Quick);
    let _ = last.ceiling(ceiling);
    let worked = last.work(MOST_MOVES, &mut costs, &mut wishes);
    let shown = last.show();
    let told = last.route(&mut row);
    let _ = last.lift();
    let Ok(worked) = worked else {
        return Err(anyhow!("{name}: the work is refused"));
    };
    tell(rt, name, worked, shown)?;
    let len = told.map_or(0, |told| told.len as usize);
    for state in row.iter().take(len) {
        print!(rt; " {state}")?;
    }
    println!(rt; "")?;
    Ok(())
}

// Four states from 0 to 3: two ways, over 1 and over 2.
fn rows_of_p(first_estimate: &'static [u32; 4]) -> TableRows<'static> {
    TableRows {
        firsts: &[0, 2, 3, 4, 4],
        targets: &[1, 2, 3, 3],
        costs: &[30, 50, 60, 20],
        estimates: first_estimate,
        start: 0,
        goal: 3,
    }
}

// Four states from 0 to 3: 2 is reached at once at 10, and over 1 at 2.
fn rows_of_r() -> TableRows<'static> {
    TableRows {
        firsts: &[0, 2, 3, 4, 4],
        targets: &[1, 2, 2, 3],
        costs: &[1, 10, 1, 31],
        estimates: &[33, 32, 31, 0],
        start: 0,
        goal: 3,
    }
}

fn rounded<B: Blank + Drop>(
    rt: &HostRuntime,
    name: &str,
    blank: B,
    step: u32,
) -> anyhow::Result<()> {
    let Ok(layer) = Rounding::over(blank, step) else {
        return Err(anyhow!("{name}: the step is refused"));
    };
    piece(rt, name, layer, 1_023_000)
}

fn table(rows: TableRows<'_>) -> anyhow::Result<Table<'_>> {
    Table::over(rows).map_err(|_| anyhow!("the table is refused"))
}

fn pieces_of_p(rt: &HostRuntime) -> anyhow::Result<()> {
    let p = table(rows_of_p(&[40, 10, 20, 0]))?;
    piece(rt, "P under 69", p, 69)?;
    piece(rt, "P under 70", p, 70)?;
    if let Err(flaw) = Table::over(rows_of_p(&[41, 10, 20, 0])) {
        println!(rt;
            "P with 41: refused {} at {}",
            flaw.cause.number(),
            flaw.place
        )?;
    }
    Ok(())
}

fn pieces_of_r(rt: &HostRuntime) -> anyhow::Result<()> {
    let r = table(rows_of_r())?;
    piece(rt, "R", r, 1_023_000)?;
    rounded(rt, "R rounded by 16", r, 16)
}

fn piece_of_raster(rt: &HostRuntime) -> anyhow::Result<()> {
    let cells = Cells {
        bytes: &[2, 9, 2, 2, 2, 2],
        width: 3,
        height: 2,
        start: 0,
        goal: 2,
    };
    let Ok(raster) = Raster::over(cells) else {
        return Err(anyhow!("the raster is refused"));
    };
    piece(rt, "raster", raster, 1_023_000)
}

fn run(rt: &HostRuntime) -> anyhow::Result<()> {
    pieces_of_p(rt)?;
    pieces_of_r(rt)?;
    piece_of_raster(rt)
}

fn main(rt: HostRuntime) -> anyhow::Result<()> {
    run(&rt)
}
