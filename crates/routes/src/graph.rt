// A small graph, as a square of costs, and two ways to make many of them.

// As many states as a graph may have.
pub const MOST: usize = 8;

// States numbered from 0, a start, a goal, and what the cut from each state to each other costs, where there is one.
#[derive(Clone, Copy)]
pub struct Graph {
    pub states: u32,
    pub start: u32,
    pub goal: u32,
    cuts: [[Option<u32>; MOST]; MOST],
}

impl Graph {
    // A graph with no cuts, from 0 to its last state.
    fn bare(states: u32) -> Graph {
        Graph {
            states,
            start: 0,
            goal: states.saturating_sub(1),
            cuts: [[None; MOST]; MOST],
        }
    }

    // What the cut from u to v costs.
    pub(crate) fn cost(&self, u: u32, v: u32) -> Option<u32> {
        let u = u as usize;
        let v = v as usize;
        if u < MOST && v < MOST {
            self.cuts[u][v]
        } else {
            None
        }
    }

    fn set(&mut self, u: u32, v: u32, cost: Option<u32>) {
        let u = u as usize;
        let v = v as usize;
        if u < MOST && v < MOST {
            self.cuts[u][v] = cost;
        }
    }

    // The graph of a code: its digits to the base 3 say of each two states whether there is no cut, a cheap one or a dear one.
    pub(crate) fn coded(states: u32, code: u32) -> Graph {
        let mut graph = Graph::bare(states);
        let mut rest = code;
        for u in 0..states {
            for v in 0..states {
                if u != v {
                    let cost = match rest % 3 {
                        0 => None,
                        1 => Some(1),
                        _ => Some(3),
                    };
                    graph.set(u, v, cost);
                    rest = rest / 3;
                }
            }
        }
        graph
    }

    // A graph by chance, with costs up to `most`. Of four cuts about `density` are there, and half as many of those into the goal.
    pub(crate) fn by_chance(chance: &mut Chance, states: u32, density: u32, most: u32) -> Graph {
        let mut graph = Graph::bare(states);
        graph.start = chance.below(states);
        graph.goal = chance.below(states.saturating_sub(1));
        if graph.goal >= graph.start {
            graph.goal = graph.goal.saturating_add(1);
        }
        for u in 0..states {
            for v in 0..states {
                let of = if v == graph.goal { 8 } else { 4 };
                if u != v && chance.below(of) < density {
                    graph.set(u, v, Some(chance.below(most).saturating_add(1)));
                }
            }
        }
        graph
    }
}

// Numbers that look like chance, and are the same in every run.
#[derive(Drop)]
pub struct Chance {
    mixed: u32,
}

impl Chance {
    pub(crate) fn new() -> Chance {
        Chance { mixed: 1 }
    }

    // A number below a bound, and 0 where the bound is 0.
    pub(crate) fn below(&mut self, bound: u32) -> u32 {
        self.mixed = self
            .mixed
            .wrapping_mul(1_664_525)
            .wrapping_add(1_013_904_223);
        (self.mixed >> 12).checked_rem(bound).unwrap_or(0)
    }
}
