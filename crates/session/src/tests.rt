// Lives over the worked table, told line by line.
use crate::perform::perform_all;
use crate::reply::Reply;
use planner::Bench;
use rank::{CostRank, ShareRank};
use std::alloc::Global;
use std::fmt::Write;
use std::test::Fail;
use table::TableRows;
use tableblank::Table;
use text::Order;
use wish::{Even, Quick, Wish};

const COST: CostRank = CostRank { sum: 0, state: 0 };

const SHARE: ShareRank = ShareRank {
    over: 0,
    under: 0,
    state: 0,
};

const EIGHT: [Order; 8] = [
    Order::Ratio(3, 2),
    Order::Work(1),
    Order::Work(2),
    Order::Show,
    Order::Ratio(1, 1),
    Order::Work(5),
    Order::Route,
    Order::Work(70000),
];

// Four states: 0 leads to 1 and 2, and both lead to the goal 3.
fn worked() -> TableRows<'static> {
    TableRows {
        firsts: &[0, 2, 3, 4, 4],
        targets: &[1, 2, 3, 3],
        costs: &[30, 50, 60, 20],
        estimates: &[40, 10, 20, 0],
        start: 0,
        goal: 3,
    }
}

// Adds the line of one reply.
fn tell(text: &mut String, reply: &Reply) -> Result<(), Fail> {
    match reply {
        Reply::Worked(worked) => writeln!(text, "{worked}")?,
        Reply::Set => writeln!(text, "set")?,
        Reply::Shown(shown) => writeln!(
            text,
            "show {} {} {}",
            shown.cost.unwrap_or(0),
            shown.floor,
            shown.moves
        )?,
        Reply::Told(route) => writeln!(
            text,
            "route {} {} {:?}",
            route.cost, route.floor, route.states
        )?,
        Reply::Refused(refusal) => writeln!(text, "refused {}", refusal.number())?,
    }
    Ok(())
}

// What the orders are answered over the worked table, a line each.
fn life<W: Wish + Copy>(
    alloc: Global,
    wish: W,
    orders: &[Order],
    costs: &mut [CostRank],
    wishes: &mut [W::Rank],
) -> Result<String, Fail> {
    let bench = Bench::new(alloc)?;
    let mut row = [0; 4];
    let (_, replies) = perform_all(
        alloc,
        bench,
        Table::over(worked())?,
        wish,
        orders,
        costs,
        wishes,
        &mut row,
    );
    let mut text = String::new(alloc);
    for reply in replies?.iter() {
        tell(&mut text, reply)?;
    }
    Ok(text)
}

const ANSWERS: &str =
    "set\nspent 1\nmet 1\nshow 90 70 2\nset\ndone 1\nroute 70 70 [0, 2, 3]\nrefused 18\n";

#[test]
fn the_worked_life_is_answered(rt: HostRuntime) -> Result<(), Fail> {
    let alloc = rt.alloc();
    let even = life(alloc, Even, &EIGHT, &mut [COST; 4], &mut [COST; 4])?;
    assert_eq!(rt; even.as_str(), ANSWERS);
    let quick = life(alloc, Quick, &EIGHT, &mut [COST; 5], &mut [SHARE; 4])?;
    assert_eq!(rt; quick.as_str(), ANSWERS);
    Ok(())
}

#[test]
fn rows_too_short_are_refused(rt: HostRuntime) -> Result<(), Fail> {
    let alloc = rt.alloc();
    let orders = [Order::Work(70000), Order::Route, Order::Show];
    let refused = "refused 15\nrefused 31\nshow 0 40 0\n";
    let even = life(alloc, Even, &orders, &mut [COST; 3], &mut [COST; 4])?;
    assert_eq!(rt; even.as_str(), refused);
    let quick = life(alloc, Quick, &orders, &mut [COST; 4], &mut [SHARE; 3])?;
    assert_eq!(rt; quick.as_str(), refused);
    Ok(())
}
