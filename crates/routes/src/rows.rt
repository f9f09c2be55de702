// The rows of a table, made from a graph.
use crate::count::Togo;
use crate::graph::Graph;
use std::alloc::{AllocError, Global};
use table::TableRows;

// How a table estimates what is left to the goal: each of these is lawful.
#[derive(Clone, Copy)]
pub enum Estimating {
    // not at all
    Nothing,
    // no more than this
    Capped(u32),
    // by half
    Half,
    // exactly
    All,
}

// The largest estimate.
const MOST_ESTIMATE: u32 = 1_023_000;

impl Estimating {
    // The estimate of a state that has this much left, if it has a way to the goal.
    fn of(self, togo: Option<u32>) -> u32 {
        let exact = togo.unwrap_or(MOST_ESTIMATE);
        match self {
            Estimating::Nothing => 0,
            Estimating::Capped(most) => exact.min(most),
            Estimating::Half => exact / 2,
            Estimating::All => exact,
        }
    }
}

// The four rows, and the ends.
#[derive(Drop)]
pub struct Rows {
    firsts: Vec<u32>,
    targets: Vec<u32>,
    costs: Vec<u32>,
    estimates: Vec<u32>,
    start: u32,
    goal: u32,
}

impl Rows {
    pub(crate) fn new(
        alloc: Global,
        graph: &Graph,
        togo: &Togo,
        estimating: Estimating,
    ) -> Result<Rows, AllocError> {
        let mut rows = Rows {
            firsts: Vec::new(alloc),
            targets: Vec::new(alloc),
            costs: Vec::new(alloc),
            estimates: Vec::new(alloc),
            start: graph.start,
            goal: graph.goal,
        };
        let mut first = 0u32;
        for u in 0..graph.states {
            rows.firsts.push(first)?;
            rows.estimates.push(estimating.of(togo.of(u)))?;
            first = first.saturating_add(rows.add_cuts(graph, u)?);
        }
        rows.firsts.push(first)?;
        Ok(rows)
    }

    // Adds the cuts of a state, and says how many.
    fn add_cuts(&mut self, graph: &Graph, u: u32) -> Result<u32, AllocError> {
        let mut added = 0u32;
        for v in 0..graph.states {
            if let Some(cost) = graph.cost(u, v) {
                self.targets.push(v)?;
                self.costs.push(cost)?;
                added = added.saturating_add(1);
            }
        }
        Ok(added)
    }

    pub(crate) fn lend(&self) -> TableRows<'_> {
        TableRows {
            firsts: self.firsts.as_slice(),
            targets: self.targets.as_slice(),
            costs: self.costs.as_slice(),
            estimates: self.estimates.as_slice(),
            start: self.start,
            goal: self.goal,
        }
    }
}
