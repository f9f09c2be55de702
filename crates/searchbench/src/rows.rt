// The rows of tables that are made here: one by chance, and two families that make the search open states again and again.
use crate::chance::Chance;
use std::alloc::{AllocError, Global};
use table::TableRows;

// The largest cost and the largest estimate.
pub const MOST_COST: u32 = 1_000;

const MOST_ESTIMATE: u32 = 1_023_000;

// Four rows that grow state by state, and the ends.
#[derive(Drop)]
pub struct Rows {
    firsts: Vec<u32>,
    targets: Vec<u32>,
    costs: Vec<u32>,
    estimates: Vec<u32>,
    cuts: u32,
    start: u32,
    goal: u32,
}

impl Rows {
    // No states yet.
    fn new(alloc: Global) -> Result<Rows, AllocError> {
        Ok(Rows {
            firsts: vec![in alloc; 0]?,
            targets: Vec::new(alloc),
            costs: Vec::new(alloc),
            estimates: Vec::new(alloc),
            cuts: 0,
            start: 0,
            goal: 0,
        })
    }

    // Adds a cut to the state that comes next. The cuts of a state are added with rising targets.
    fn add_cut(&mut self, target: u32, cost: u32) -> Result<(), AllocError> {
        self.targets.push(target)?;
        self.costs.push(cost)?;
        self.cuts = self.cuts.saturating_add(1);
        Ok(())
    }

    // Ends the cuts of the state that comes next.
    fn add_state(&mut self, estimate: u32) -> Result<(), AllocError> {
        self.firsts.push(self.cuts)?;
        self.estimates.push(estimate)?;
        Ok(())
    }

    pub(crate) fn lend(&self) -> TableRows<'_> {
        TableRows {
            firsts: self.firsts.as_slice(),
            targets: self.targets.as_slice(),
            costs: self.costs.as_slice(),
            estimates: self.estimates.as_slice(),
            start: self.start,
            goal: self.goal,
        }
    }
}

// An entry of a row, and 0 past its end.
fn at(row: &Vec<u32>, i: usize) -> u32 {
    row.get(i).copied().unwrap_or(0)
}

// 1,024 states with eight cuts each, by chance: one into each eighth of the states.
pub(crate) fn by_chance(alloc: Global) -> Result<Rows, AllocError> {
    let mut rows = Rows::new(alloc)?;
    let mut chance = Chance::new();
    for u in 0..1024 {
        for eighth in 0..8 {
            let target = u32::saturating_mul(eighth, 128).saturating_add(chance.below(128));
            let target = if target == u { target ^ 1 } else { target };
            rows.add_cut(target, chance.below(MOST_COST).saturating_add(1))?;
        }
        rows.add_state(0)?;
    }
    rows.goal = 1023;
    Ok(rows)
}

// Lowers what is left from a state by each of its cuts; it tells whether it was lowered.
fn lower(rows: &Rows, left: &mut Vec<u32>, u: usize) -> bool {
    let mut least = at(left, u);
    let before = least;
    for e in at(&rows.firsts, u)..at(&rows.firsts, u.saturating_add(1)) {
        let behind = at(left, at(&rows.targets, e as usize) as usize);
        least = least.min(behind.saturating_add(at(&rows.costs, e as usize)));
    }
    if let Some(entry) = left.get_mut(u) {
        *entry = least;
    }
    least < before
}

// Estimates each state by half of what is left from it to the goal.
pub(crate) fn estimate_half(alloc: Global, rows: &mut Rows) -> Result<(), AllocError> {
    let states = rows.estimates.len();
    let mut left = vec![in alloc; MOST_ESTIMATE; states]?;
    if let Some(entry) = left.get_mut(rows.goal as usize) {
        *entry = 0;
    }
    for _ in 0..states {
        let mut lowered = false;
        for u in 0..states {
            lowered = lower(rows, &mut left, u) || lowered;
        }
        if !lowered {
            break;
        }
    }
    for (estimate, left) in rows.estimates.iter_mut().zip(left.iter()) {
        *estimate = *left / 2;
    }
    Ok(())
}

// A way to a state through new states, that costs so much in all: each of its cuts costs as much as it may. It answers the first of the
// new states, or the state itself, and what the cut into that costs.
fn add_way(rows: &mut Rows, to: u32, cost: u32) -> Result<(u32, u32), AllocError> {
    let mut next = to;
    let mut left = cost;
    for _ in 0..cost / MOST_COST {
        if left <= MOST_COST {
            break;
        }
        rows.add_cut(next, MOST_COST)?;
        next = rows.estimates.len().min(1024) as u32;
        rows.add_state(0)?;
        left = left.saturating_sub(MOST_COST);
    }
    Ok((next, left))
}

// A ladder of levels, each with a dear way down to the next and a cheap one through one state. The lower a level, the lower the numbers of
// its states, and the dear way saves twice as much as that of the level below. A search that prefers low numbers comes down the dear way,
// tries all that is below, and comes down the cheap way, by which all below is reached more cheaply once more: each level doubles the moves.
// The goal is reached from the foot, or else from a state of its own that such a search closes last.
pub(crate) fn doubling(alloc: Global, levels: u32, from_foot: bool) -> Result<Rows, AllocError> {
    let mut rows = Rows::new(alloc)?;
    rows.add_state(0)?;
    if from_foot {
        rows.add_cut(0, 1)?;
    }
    rows.add_state(0)?;
    let mut head = 1;
    let mut saved = 1u32;
    for _ in 0..levels {
        let (dear, cost) = add_way(&mut rows, head, saved.saturating_add(2))?;
        let cheap = rows.estimates.len().min(1024) as u32;
        rows.add_cut(head, 1)?;
        rows.add_state(0)?;
        rows.add_cut(dear, cost)?;
        rows.add_cut(cheap, 1)?;
        head = rows.estimates.len().min(1024) as u32;
        rows.add_state(0)?;
        saved = saved.saturating_mul(2);
    }
    add_top(&mut rows, head, from_foot)?;
    Ok(rows)
}

// The start above the head of a ladder, and the state from which the goal is reached where that is not the foot.
fn add_top(rows: &mut Rows, head: u32, from_foot: bool) -> Result<(), AllocError> {
    rows.start = head.saturating_add(1);
    rows.add_cut(head, MOST_COST)?;
    if from_foot {
        return rows.add_state(0);
    }
    rows.add_cut(head.saturating_add(2), MOST_COST)?;
    rows.add_state(0)?;
    rows.add_cut(0, MOST_COST)?;
    rows.add_state(0)
}

// A chain of links, each with a way of one cut at 3 and a way of two cuts at 1. What stands in the middle of the latter is estimated at
// 1,000, all else at 999, so that rounding by 1,000 holds the cheaper way back, and what was reached by the dearer is reached once more.
pub(crate) fn chain(alloc: Global, links: u32) -> Result<Rows, AllocError> {
    let mut rows = Rows::new(alloc)?;
    rows.add_state(0)?;
    rows.add_cut(0, MOST_COST)?;
    rows.add_state(999)?;
    let mut head = 1u32;
    for _ in 0..links {
        rows.add_cut(head, 1)?;
        rows.add_state(1000)?;
        rows.add_cut(head, 3)?;
        rows.add_cut(head.saturating_add(1), 1)?;
        rows.add_state(999)?;
        head = head.saturating_add(2);
    }
    rows.start = head;
    Ok(rows)
}
