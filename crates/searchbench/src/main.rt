// searchbench searches blanks that it makes: a raster of 1,024 cells, tables of 1,024 states with 8,192 cuts, and two families in which states
// are opened again and again. For each last it prints the moves, the cost and the floor. It prints no times: to measure, run
// `rt run` in this folder and then `time out/searchbench CASE`, where CASE is raster, table, halved, ladder, descent or chain; without it
// all cases run. It stands on planner, wish, rank, queue, layers, raster, tableblank, table, blank and course.
#![tactic(auto)]

use anyhow::anyhow;
use blank::Blank;
use layers::Rounding;
use planner::Bench;
use raster::{Cells, Raster};
use std::alloc::Global;
use std::env;
use tableblank::Table;
use wish::{Even, Level, Quick, Wish};

mod chance;
mod race;
mod rows;

use chance::Chance;
use race::race;
use rows::Rows;

// How often the cases by chance are searched under each wish at each ratio.
const ROUNDS: u32 = 50;

const RATIOS: [(u32, u32); 2] = [(1, 1), (3, 2)];

// The levels of the ladders, and the links of the chain.
const LADDER_LEVELS: u32 = 18;

const DESCENT_LEVELS: u32 = 17;

const CHAIN_LINKS: u32 = 500;

// A case: its name, the ratio, and how many lasts.
#[derive(Clone, Copy)]
struct Case<'a> {
    name: &'a str,
    ratio: (u32, u32),
    lasts: u32,
}

// Searches a blank as often as the case says, and prints what the last of its lasts shows.
fn run_case<B: Blank, W: Wish + Copy>(
    rt: &HostRuntime,
    mut bench: Bench,
    blank: &B,
    wish: W,
    wish_name: &str,
    case: Case<'_>,
) -> anyhow::Result<Bench> {
    let name = case.name;
    let (p, q) = case.ratio;
    let lasts = case.lasts;
    let mut moves = 0u64;
    for turn in 1..=lasts {
        let (back, outcome) = race(rt.alloc(), bench, blank, wish, case.ratio)?;
        bench = back;
        moves = moves.saturating_add(u64::from(outcome.shown.moves));
        if turn == lasts {
            let cost = outcome.shown.cost.unwrap_or(0);
            let floor = outcome.shown.floor;
            let met = outcome.met;
            let word = if outcome.done { "done" } else { "not done" };
            println!(rt;
                "{name} {wish_name} {p}/{q}: {word}, cost {cost}, floor {floor}, met {met}, moves {moves} in {lasts}"
            )?;
        }
    }
    Ok(bench)
}

// Searches a blank under the three wishes, at each ratio.
fn run_wishes<B: Blank>(
    rt: &HostRuntime,
    mut bench: Bench,
    blank: &B,
    name: &str,
) -> anyhow::Result<Bench> {
    for ratio in RATIOS {
        let case = Case {
            name,
            ratio,
            lasts: ROUNDS,
        };
        bench = run_case(rt, bench, blank, Quick, "quick", case)?;
        bench = run_case(rt, bench, blank, Level, "level", case)?;
        bench = run_case(rt, bench, blank, Even, "even", case)?;
    }
    Ok(bench)
}

// 32 lines of 32 cells, from corner to corner. The bytes are 1 to 9, and about one in eight is 0.
fn run_raster(rt: &HostRuntime, bench: Bench) -> anyhow::Result<Bench> {
    let mut chance = Chance::new();
    let mut bytes = [1u8; 1024];
    for byte in bytes.iter_mut() {
        if chance.below(8) == 0 {
            *byte = 0;
        } else {
            *byte = chance.below(9).min(8) as u8 + 1;
        }
    }
    bytes[0] = 1;
    bytes[1023] = 1;
    let cells = Cells {
        bytes: &bytes,
        width: 32,
        height: 32,
        start: 0,
        goal: 1023,
    };
    let Ok(raster) = Raster::over(cells) else {
        return Err(anyhow!("the raster is refused"));
    };
    run_wishes(rt, bench, &raster, "raster")
}

// A table by chance.
fn run_table(rt: &HostRuntime, bench: Bench, rows: &Rows, name: &str) -> anyhow::Result<Bench> {
    let Ok(table) = Table::over(rows.lend()) else {
        return Err(anyhow!("the table is refused"));
    };
    run_wishes(rt, bench, &table, name)
}

// A ladder, under the wish that prefers low numbers where all estimates are 0, at the widest ratio.
fn run_ladder(rt: &HostRuntime, bench: Bench, rows: &Rows, name: &str) -> anyhow::Result<Bench> {
    let case = Case {
        name,
        ratio: (1000, 1),
        lasts: 1,
    };
    let Ok(table) = Table::over(rows.lend()) else {
        return Err(anyhow!("the ladder is refused"));
    };
    run_case(rt, bench, &table, Quick, "quick", case)
}

// The chain, rounded so that the estimates are as uneven as can be.
fn run_chain(rt: &HostRuntime, bench: Bench, rows: &Rows) -> anyhow::Result<Bench> {
    let case = Case {
        name: "chain",
        ratio: (1, 1),
        lasts: 1,
    };
    let Ok(table) = Table::over(rows.lend()) else {
        return Err(anyhow!("the chain is refused"));
    };
    let Ok(rounding) = Rounding::over(table, 1000) else {
        return Err(anyhow!("the step is refused"));
    };
    run_case(rt, bench, &rounding, Even, "even", case)
}

// Whether a case is to run: every case where none is named.
fn is_wanted(wanted: &str, name: &str) -> bool {
    wanted.is_empty() || wanted == name
}

// The cases by chance.
fn run_by_chance(rt: &HostRuntime, mut bench: Bench, wanted: &str) -> anyhow::Result<Bench> {
    if is_wanted(wanted, "raster") {
        bench = run_raster(rt, bench)?;
    }
    let mut rows = rows::by_chance(rt.alloc())?;
    if is_wanted(wanted, "table") {
        bench = run_table(rt, bench, &rows, "table")?;
    }
    if is_wanted(wanted, "halved") {
        rows::estimate_half(rt.alloc(), &mut rows)?;
        bench = run_table(rt, bench, &rows, "halved")?;
    }
    Ok(bench)
}

// The cases in which states are opened again and again.
fn run_again(rt: &HostRuntime, mut bench: Bench, wanted: &str) -> anyhow::Result<Bench> {
    let alloc = rt.alloc();
    if is_wanted(wanted, "ladder") {
        let rows = rows::doubling(alloc, LADDER_LEVELS, false)?;
        bench = run_ladder(rt, bench, &rows, "ladder")?;
    }
    if is_wanted(wanted, "descent") {
        let rows = rows::doubling(alloc, DESCENT_LEVELS, true)?;
        bench = run_ladder(rt, bench, &rows, "descent")?;
    }
    if is_wanted(wanted, "chain") {
        let rows = rows::chain(alloc, CHAIN_LINKS)?;
        bench = run_chain(rt, bench, &rows)?;
    }
    Ok(bench)
}

fn run(rt: &HostRuntime, wanted: &str) -> anyhow::Result<()> {
    let bench = Bench::new(rt.alloc())?;
    let bench = run_by_chance(rt, bench, wanted)?;
    let _bench = run_again(rt, bench, wanted)?;
    Ok(())
}

fn main(rt: HostRuntime) -> anyhow::Result<()> {
    let mut args = env::args(&rt)?;
    let _ = args.next();
    match args.next() {
        Some(wanted) => run(&rt, wanted.as_str()),
        None => run(&rt, ""),
    }
}
