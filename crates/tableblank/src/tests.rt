ghost use Rattle.std.specs.Prelude.{◌≡◌, ℕ, ◌≤◌, List, Ok, Err};
ghost use Rattle.course.specs.Blanks.{Route};
ghost use Rattle.course.specs.Refusals.{number_of};
ghost use Rattle.table.specs.Table.{Worst};
ghost use Rattle.table.specs.Checks.{rows_in};
ghost use Rattle.tableblank.specs.Tabled.{tabled};

use crate::table_blank::Table;
use blank::Blank;
use course::Refusal;
use std::test::Fail;
use table::{Flaw, TableRows};

// What no route of a blank goes under, by the laws of every blank.
fn floor<B: Blank>(blank: &B) -> u32
    ensures { (path : List ℕ) (cost : ℕ) → Route (B.meaning blank.now) path cost → result ≤ cost }
{
    blank.estimate(blank.start())
}

// What a way by this cut costs at least: by the laws the sum fits.
fn by_cut<B: Blank>(blank: &B, state: u32, place: u32) -> Option<u32> {
    let (to, cost) = blank.cut(state, place)?;
    Some(cost + blank.estimate(to))
}

// What no route of these rows goes under, or their worst flaw.
fn floor_of(rows: TableRows<'_>) -> Result<u32, Flaw>
    ensures { elim result [ Ok least ↦ ((path : List ℕ) (cost : ℕ) → Route (tabled (rows_in rows.entry)) path cost → least ≤ cost) | Err f ↦ Worst (rows_in rows.entry) (number_of f.cause) f.place ] }
{
    let table = Table::over(rows)?;
    Ok(floor(&table))
}

// Four states: 0 leads to 1 and 2, and both lead to the goal 3.
fn worked() -> TableRows<'static> {
    TableRows {
        firsts: &[0, 2, 3, 4, 4],
        targets: &[1, 2, 3, 3],
        costs: &[30, 50, 60, 20],
        estimates: &[40, 10, 20, 0],
        start: 0,
        goal: 3,
    }
}

#[test]
fn the_worked_table_answers(rt: HostRuntime) -> Result<(), Fail> {
    let table = Table::over(worked())?;
    assert_eq!(rt; table.states(), 4);
    assert_eq!(rt; table.start(), 0);
    assert_eq!(rt; table.goal(), 3);
    assert_eq!(rt; table.places(0), 2);
    assert_eq!(rt; table.places(2), 1);
    assert_eq!(rt; table.places(3), 0);
    assert_eq!(rt; table.cut(0, 0), Some((1, 30)));
    assert_eq!(rt; table.cut(0, 1), Some((2, 50)));
    assert_eq!(rt; table.cut(1, 0), Some((3, 60)));
    assert_eq!(rt; table.cut(2, 0), Some((3, 20)));
    assert_eq!(rt; table.estimate(0), 40);
    assert_eq!(rt; table.estimate(3), 0);
    Ok(())
}

#[test]
fn what_is_not_there_is_answered_too(rt: HostRuntime) -> Result<(), Fail> {
    let table = Table::over(worked())?;
    assert_eq!(rt; table.cut(0, 2), None);
    assert_eq!(rt; table.cut(0, u32::MAX), None);
    assert_eq!(rt; table.cut(3, 0), None);
    assert_eq!(rt; table.places(4), 0);
    assert_eq!(rt; table.places(u32::MAX), 0);
    assert_eq!(rt; table.cut(4, 0), None);
    assert_eq!(rt; table.cut(u32::MAX, u32::MAX), None);
    assert_eq!(rt; table.estimate(4), 0);
    assert_eq!(rt; table.estimate(u32::MAX), 0);
    Ok(())
}

#[test]
fn a_refusal_tells_its_place(rt: HostRuntime) {
    let refused = Table::over(TableRows {
        costs: &[30, 50, 0, 20],
        ..worked()
    });
    assert_eq!(rt;
        refused.err(),
        Some(Flaw {
            cause: Refusal::BadCost,
            place: 2,
        })
    );
}

#[test]
fn any_blank_serves_a_generic_caller(rt: HostRuntime) -> Result<(), Fail> {
    assert_eq!(rt; floor_of(worked())?, 40);
    let table = Table::over(worked())?;
    assert_eq!(rt; by_cut(&table, 0, 1), Some(70));
    assert_eq!(rt; by_cut(&table, 3, 0), None);
    Ok(())
}
