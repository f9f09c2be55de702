// A search, apart from the blank that it runs over and the wish that it runs under: those are lent to it. What it does stands in the modules
// below, since the specs that they cite name the struct.
ghost use Rattle.std.specs.Prelude.{◌≤◌};

use crate::bench::Bench;
use crate::ratio::Ratio;

mod choose;
mod expand;
mod first;
mod one_move;
mod scan;
mod work;

// The standing route: its cost, and how many states of the bench's path are its own. No call takes memory from the heap, so the path stays in
// the bench and its length beside it.
#[derive(Clone, Copy, Debug, PartialEq, Eq)]
pub(crate) struct Incumbent {
    pub(crate) cost: u32,
    pub(crate) len: u32,
    ghost short: { len ≤ 1024 },
}

// What a search has come to, and its settings.
#[derive(Drop)]
pub(crate) struct Search {
    pub(crate) bench: Bench,
    pub(crate) standing: Option<Incumbent>,
    pub(crate) ceiling: u32,
    pub(crate) ratio: Ratio,
    pub(crate) floor: u32,
    pub(crate) moves: u32,
    ghost low: { ceiling ≤ 1023000 },
}
