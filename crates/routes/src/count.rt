// Brute force: every route of a graph that comes to no state twice, and what is left to the goal from each state.
use crate::graph::{Graph, MOST};

// How many routes there are, and what the cheapest costs.
#[derive(Clone, Copy)]
pub struct Count {
    pub routes: u64,
    pub least: Option<u32>,
}

impl Count {
    // One more route, of this cost.
    fn with(self, cost: u32) -> Count {
        let least = match self.least {
            Some(least) => least.min(cost),
            None => cost,
        };
        Count {
            routes: self.routes.saturating_add(1),
            least: Some(least),
        }
    }
}

// A way from the start: the state it has come to, what it costs, and the states that it came by.
#[derive(Clone, Copy)]
struct Way {
    at: u32,
    cost: u32,
    seen: [bool; MOST],
}

impl Way {
    // The way with one more cut, unless it has been at that state.
    fn on(mut self, to: u32, cost: u32) -> Option<Way> {
        let i = to as usize;
        if i >= MOST || self.seen[i] {
            return None;
        }
        self.seen[i] = true;
        self.at = to;
        self.cost = self.cost.saturating_add(cost);
        Some(self)
    }
}

// Counts the routes that go on from a way by at most `left` cuts.
fn follow(graph: &Graph, way: Way, left: u32, count: Count) -> Count {
    if way.at == graph.goal {
        return count.with(way.cost);
    }
    if left == 0 {
        return count;
    }
    let mut count = count;
    for v in 0..graph.states {
        if let Some(cost) = graph.cost(way.at, v) {
            if let Some(longer) = way.on(v, cost) {
                count = follow(graph, longer, left - 1, count);
            }
        }
    }
    count
}

// Counts all routes of a graph.
pub(crate) fn count_routes(graph: &Graph) -> Count {
    let none = Count {
        routes: 0,
        least: None,
    };
    let nowhere = Way {
        at: graph.start,
        cost: 0,
        seen: [false; MOST],
    };
    match nowhere.on(graph.start, 0) {
        Some(way) => follow(graph, way, graph.states, none),
        None => none,
    }
}

// What the cheapest way from each state to the goal costs, where there is one.
#[derive(Clone, Copy)]
pub struct Togo {
    costs: [Option<u32>; MOST],
}

impl Togo {
    pub(crate) fn of(&self, state: u32) -> Option<u32> {
        let i = state as usize;
        if i < MOST { self.costs[i] } else { None }
    }

    // Notes a way from a state, if it is the cheapest so far.
    fn lower(&mut self, state: u32, cost: u32) {
        let i = state as usize;
        if i >= MOST {
            return;
        }
        match self.costs[i] {
            Some(least) => self.costs[i] = Some(least.min(cost)),
            None => self.costs[i] = Some(cost),
        }
    }

    // Goes once over the cuts of a state.
    fn relax(&mut self, graph: &Graph, u: u32) {
        for v in 0..graph.states {
            if let (Some(cost), Some(rest)) = (graph.cost(u, v), self.of(v)) {
                self.lower(u, rest.saturating_add(cost));
            }
        }
    }
}

// What is left to the goal from each state: the cuts are gone over as often as there are states.
pub(crate) fn to_go(graph: &Graph) -> Togo {
    let mut togo = Togo {
        costs: [None; MOST],
    };
    togo.lower(graph.goal, 0);
    for _ in 0..graph.states {
        for u in 0..graph.states {
            togo.relax(graph, u);
        }
    }
    togo
}
