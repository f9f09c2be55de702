// routes counts all routes of many small tables by brute force, drives lasts over them, and compares. Each table is searched under the three
// wishes, plain and with rounded estimates, at several ratios and ceilings, with the moves split into budgets in three ways, on one bench.
// After every work the floor is to be under every route, what stands a route that costs what is told, and the word right. It stands on
// planner, wish, rank, queue, layers, tableblank, table, blank and course.
#![tactic(auto)]

use blank::Blank;
use layers::Rounding;
use planner::Bench;
use std::alloc::{AllocError, Global};
use tableblank::Table;
use wish::{Even, Level, Quick, Wish};

mod count;
mod graph;
mod life;
mod rows;
mod sight;
mod tally;

use count::{Count, count_routes, to_go};
use graph::{Chance, Graph};
use life::{Plan, Split, Trial, live};
use rows::{Estimating, Rows};
use tally::{Lapse, Tally};

// How many codes graphs of three and of four states have.
const CODES_OF_THREE: u32 = 729;

const CODES_OF_FOUR: u32 = 531_441;

// Every how manieth code of four states is tried.
const STRIDE: u32 = 211;

// How many graphs by chance are tried.
const BY_CHANCE: u32 = 6_000;

const RATIOS: [(u32, u32); 3] = [(1, 1), (3, 2), (1000, 1)];

// One last for each split of the moves: all end alike.
fn try_splits<B: Blank, W: Wish + Copy>(
    alloc: Global,
    bench: Bench,
    blank: &B,
    wish: W,
    mut trial: Trial,
    tally: &mut Tally,
) -> Result<Bench, AllocError> {
    trial.split = Split::Whole;
    let (bench, whole) = live(alloc, bench, blank, wish, &trial, tally)?;
    trial.split = Split::Ones;
    let (bench, ones) = live(alloc, bench, blank, wish, &trial, tally)?;
    trial.split = Split::TwoFirst;
    let (bench, two_first) = live(alloc, bench, blank, wish, &trial, tally)?;
    tally.expect(whole == ones, Lapse::Split);
    tally.expect(whole == two_first, Lapse::Split);
    Ok(bench)
}

// Every ratio with every ceiling: none, the least cost, and one below it.
fn try_plans<B: Blank, W: Wish + Copy>(
    alloc: Global,
    mut bench: Bench,
    blank: &B,
    wish: W,
    count: Count,
    tally: &mut Tally,
) -> Result<Bench, AllocError> {
    let least = count.least.unwrap_or(4);
    for (p, q) in RATIOS {
        for ceiling in [None, Some(least), Some(least.saturating_sub(1))] {
            let trial = Trial {
                count,
                plan: Plan { p, q, ceiling },
                split: Split::Whole,
            };
            bench = try_splits(alloc, bench, blank, wish, trial, tally)?;
        }
    }
    Ok(bench)
}

fn try_wishes<B: Blank>(
    alloc: Global,
    bench: Bench,
    blank: &B,
    count: Count,
    tally: &mut Tally,
) -> Result<Bench, AllocError> {
    let bench = try_plans(alloc, bench, blank, Quick, count, tally)?;
    let bench = try_plans(alloc, bench, blank, Level, count, tally)?;
    try_plans(alloc, bench, blank, Even, count, tally)
}

// A table, plain and rounded.
fn try_layers(
    alloc: Global,
    mut bench: Bench,
    table: &Table<'_>,
    count: Count,
    tally: &mut Tally,
) -> Result<Bench, AllocError> {
    bench = try_wishes(alloc, bench, table, count, tally)?;
    for step in [2, 3] {
        match Rounding::over(table, step) {
            Ok(rounding) => bench = try_wishes(alloc, bench, &rounding, count, tally)?,
            Err(_) => tally.expect(false, Lapse::Table),
        }
    }
    Ok(bench)
}

// A graph, with each way to estimate.
fn try_graph(
    alloc: Global,
    mut bench: Bench,
    graph: &Graph,
    tally: &mut Tally,
) -> Result<Bench, AllocError> {
    let count = count_routes(graph);
    let togo = to_go(graph);
    tally.expect(count.least == togo.of(graph.start), Lapse::Count);
    tally.counted = tally.counted.saturating_add(count.routes);
    for estimating in [
        Estimating::Nothing,
        Estimating::Capped(2),
        Estimating::Half,
        Estimating::All,
    ] {
        let rows = Rows::new(alloc, graph, &togo, estimating)?;
        tally.tables = tally.tables.saturating_add(1);
        match Table::over(rows.lend()) {
            Ok(table) => bench = try_layers(alloc, bench, &table, count, tally)?,
            Err(_) => tally.expect(false, Lapse::Table),
        }
    }
    Ok(bench)
}

// All graphs of three states, and some of four, with costs of 1 and 3.
fn try_coded(alloc: Global, mut bench: Bench, tally: &mut Tally) -> Result<Bench, AllocError> {
    for code in 0..CODES_OF_THREE {
        bench = try_graph(alloc, bench, &Graph::coded(3, code), tally)?;
    }
    for turn in 0..CODES_OF_FOUR / STRIDE {
        let code = turn.saturating_mul(STRIDE);
        bench = try_graph(alloc, bench, &Graph::coded(4, code), tally)?;
    }
    Ok(bench)
}

// Graphs of five to eight states by chance.
fn try_by_chance(alloc: Global, mut bench: Bench, tally: &mut Tally) -> Result<Bench, AllocError> {
    let mut chance = Chance::new();
    for turn in 0..BY_CHANCE {
        let states = (turn % 4).saturating_add(5);
        let density = chance.below(3).saturating_add(1);
        let most = [2, 9, 100, 1000][chance.below(4).min(3) as usize];
        let graph = Graph::by_chance(&mut chance, states, density, most);
        bench = try_graph(alloc, bench, &graph, tally)?;
    }
    Ok(bench)
}

fn tell(rt: &HostRuntime, tally: &Tally) -> anyhow::Result<()> {
    println!(rt; "tables {}", tally.tables)?;
    println!(rt; "routes counted {}", tally.counted)?;
    println!(rt; "lasts {}", tally.lasts)?;
    println!(rt; "lasts with more moves than states {}", tally.reopening)?;
    println!(rt; "works done {}", tally.done)?;
    println!(rt; "works met {}", tally.met)?;
    println!(rt; "works spent {}", tally.spent)?;
    println!(rt; "moves {}", tally.moves)?;
    println!(rt; "routes checked {}", tally.routes)?;
    println!(rt; "calls refused {}", tally.refusals)?;
    println!(rt; "mismatches {}", tally.mismatches)?;
    if let Some((number, lapse)) = tally.first {
        println!(rt; "the first at table {number}: {lapse:?}")?;
    }
    Ok(())
}

fn run(rt: &HostRuntime) -> anyhow::Result<()> {
    let alloc = rt.alloc();
    let mut tally = Tally::default();
    let bench = Bench::new(alloc)?;
    let bench = try_coded(alloc, bench, &mut tally)?;
    let _bench = try_by_chance(alloc, bench, &mut tally)?;
    tell(rt, &tally)
}

fn main(rt: HostRuntime) -> anyhow::Result<()> {
    run(&rt)
}
