// What a last tells of itself between two calls, and whether brute force agrees.
use crate::count::Count;
use crate::graph::MOST;
use crate::tally::{Lapse, Tally};
use blank::Blank;
use course::Refusal;
use planner::{Last, Shown, Told};
use wish::Wish;

// What show answers, and what route answers and writes.
#[derive(Clone, Copy, PartialEq, Eq)]
pub struct Sight {
    pub shown: Shown,
    pub told: Result<Told, Refusal>,
    pub row: [u32; MOST],
}

// Looks at a last.
pub(crate) fn look_at<B: Blank, W: Wish>(last: &Last<B, W>) -> Sight {
    let mut row = [0; MOST];
    let told = last.route(&mut row);
    Sight {
        shown: last.show(),
        told,
        row,
    }
}

// The number of a refusal, and 0 where the call was not refused.
pub(crate) fn number_of<T: Drop>(answer: Result<T, Refusal>) -> u32 {
    match answer {
        Ok(_) => 0,
        Err(refusal) => refusal.number(),
    }
}

// What the cut from u to v costs, by the blank's own places.
fn cut_cost<B: Blank>(blank: &B, u: u32, v: u32) -> Option<u32> {
    for place in 0..blank.places(u) {
        if let Some((to, cost)) = blank.cut(u, place) {
            if to == v {
                return Some(cost);
            }
        }
    }
    None
}

// What the cuts along some states add up to, if these are a route of the blank.
fn route_cost<B: Blank>(blank: &B, states: &[u32]) -> Option<u32> {
    let mut before = None;
    let mut cost = 0u32;
    for state in states {
        match before {
            Some(u) => cost = cost.saturating_add(cut_cost(blank, u, *state)?),
            None => {
                if *state != blank.start() {
                    return None;
                }
            }
        }
        before = Some(*state);
    }
    if before == Some(blank.goal()) {
        Some(cost)
    } else {
        None
    }
}

// Whether a route that was told is one, and costs what was told.
fn is_route<B: Blank>(blank: &B, row: &[u32; MOST], told: &Told) -> bool {
    let len = told.len as usize;
    len <= MOST && route_cost(blank, &row[0..len]) == Some(told.cost)
}

// Checks what holds at every moment: the floor is under every route, and what stands is a route that costs what is told.
pub(crate) fn check_sight<B: Blank>(blank: &B, sight: &Sight, count: &Count, tally: &mut Tally) {
    let shown = &sight.shown;
    if let Some(least) = count.least {
        tally.expect(shown.floor <= least, Lapse::Floor);
    }
    match (shown.cost, sight.told) {
        (Some(cost), Ok(told)) => {
            let told_alike = told.cost == cost && told.floor == shown.floor;
            let stands = told_alike && is_route(blank, &sight.row, &told);
            tally.expect(stands, Lapse::Standing);
            tally.expect(at_least(cost, count.least), Lapse::Cheap);
            tally.routes = tally.routes.saturating_add(1);
        }
        (None, Err(refusal)) => tally.expect(refusal.number() == 31, Lapse::Standing),
        _ => tally.expect(false, Lapse::Standing),
    }
}

// Whether there is a least cost, and this is not under it.
fn at_least(cost: u32, least: Option<u32>) -> bool {
    least.is_some_and(|least| least <= cost)
}

// Whether a search may be called done: what stands within the ceiling is cheapest, or no route is within the ceiling.
pub(crate) fn may_be_done(shown: &Shown, count: &Count) -> bool {
    let Some(least) = count.least else {
        return shown.cost.is_none();
    };
    match shown.cost {
        Some(cost) if cost <= shown.ceiling => cost == least,
        _ => least > shown.ceiling,
    }
}

// Whether p times a bound is not under q times the cost of what stands within the ceiling.
fn near(shown: &Shown, bound: u32) -> bool {
    let Some(cost) = shown.cost else {
        return false;
    };
    let most = u64::from(shown.p).saturating_mul(u64::from(bound));
    cost <= shown.ceiling && u64::from(cost).saturating_mul(u64::from(shown.q)) <= most
}

// Whether a ratio may be called met: what stands is within the ceiling and near enough to the cheapest.
pub(crate) fn may_be_met(shown: &Shown, count: &Count) -> bool {
    count.least.is_some_and(|least| near(shown, least))
}

// Whether work may stop for its budget alone: the floor has not reached the limit, and the ratio is not known to be met.
pub(crate) fn may_be_spent(shown: &Shown) -> bool {
    let over = shown.ceiling.saturating_add(1);
    let limit = shown.cost.unwrap_or(over).min(over);
    shown.floor < limit && !near(shown, shown.floor)
}
