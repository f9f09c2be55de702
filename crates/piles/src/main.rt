// An example: a table, a raster, and a pile of layers over that raster, each listed through the one interface of blanks: every state with its
// estimate and what its places hold. It stands on blank, table, tableblank, raster, layers and course.
#![tactic(auto)]

use anyhow::Context;
use blank::Blank;
use layers::{Knots, Rounding};
use raster::{Cells, Raster};
use table::TableRows;
use tableblank::Table;

// One state: its estimate, and its places.
fn list_state<B: Blank>(rt: &HostRuntime, blank: &B, state: u32) -> anyhow::Result<()> {
    println!(rt; "state {state} estimate {}", blank.estimate(state))?;
    for place in 0..blank.places(state) {
        match blank.cut(state, place) {
            Some((to, cost)) => println!(rt; "  place {place} to {to} at {cost}")?,
            None => println!(rt; "  place {place} empty")?,
        }
    }
    Ok(())
}

// A whole blank.
fn list<B: Blank>(rt: &HostRuntime, name: &str, blank: &B) -> anyhow::Result<()> {
    println!(rt;
        "{name}: {} states, from {} to {}",
        blank.states(),
        blank.start(),
        blank.goal()
    )?;
    for state in 0..blank.states() {
        list_state(rt, blank, state)?;
    }
    Ok(())
}

// Four states: 0 leads to 1 and 2, and both lead to the goal 3.
fn list_table(rt: &HostRuntime) -> anyhow::Result<()> {
    let rows = TableRows {
        firsts: &[0, 2, 3, 4, 4],
        targets: &[1, 2, 3, 3],
        costs: &[30, 50, 60, 20],
        estimates: &[40, 10, 20, 0],
        start: 0,
        goal: 3,
    };
    let table = Table::over(rows).ok().context("the table is refused")?;
    list(rt, "table", &table)
}

// The raster under two layers: one cell is a knot, and estimates are multiples of 4.
fn list_pile(rt: &HostRuntime, raster: &Raster<'_>) -> anyhow::Result<()> {
    let knots = Knots::over(raster).mark(5);
    let pile = Rounding::over(knots, 4)
        .ok()
        .context("the step is refused")?;
    list(rt, "rounding over knots over raster", &pile)
}

// Three lines of four cells, one of them kept wood.
fn list_raster(rt: &HostRuntime) -> anyhow::Result<()> {
    let cells = Cells {
        bytes: &[2, 9, 2, 2, 2, 2, 0, 2, 3, 2, 2, 2],
        width: 4,
        height: 3,
        start: 0,
        goal: 3,
    };
    let raster = Raster::over(cells).ok().context("the raster is refused")?;
    list(rt, "raster", &raster)?;
    list_pile(rt, &raster)
}

fn run(rt: &HostRuntime) -> anyhow::Result<()> {
    list_table(rt)?;
    list_raster(rt)
}

fn main(rt: HostRuntime) -> anyhow::Result<()> {
    run(&rt)
}
