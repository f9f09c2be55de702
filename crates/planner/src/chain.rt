// The chain of a state: itself, the state it was reached from, and so on back. It is written into the bench's path.
ghost use Rattle.std.specs.Prelude.{◌≡◌, ℕ, ◌≤◌, true, false, List, length, take};
ghost use Rattle.course.specs.Machine.{Chain, News};
ghost use Rattle.planner.specs.Searches.{marks_of, reach_of, origin_of};

use crate::bench::{Bench, STATES};
use course::{Mark, Reach};
use std::iter;

impl Bench {
    // How a state was reached, where it is seen.
    fn reach(&self, state: u32) -> Option<Reach>
        ensures { result ≡ reach_of (marks_of self.now.marks.items state) }
    {
        match self.mark(state) {
            Mark::Unseen => None,
            Mark::Open(reach) | Mark::Closed(reach) => Some(reach),
        }
    }

    // The state that a state was reached from.
    fn origin(&self, state: u32) -> Option<u32>
        ensures { result ≡ origin_of (marks_of self.now.marks.items state) }
    {
        self.reach(state)?.from
    }

    // Whether it is news that v is reached at cost t.
    pub(crate) fn is_news(&self, v: u32, t: u32) -> bool
        ensures yes { result ≡ true → News (marks_of self.now.marks.items v) t }
        ensures no { result ≡ false → News (marks_of self.now.marks.items v) t → ⊥ }
    {
        self.reach(v).is_none_or(|reach| t < reach.g)
    }

    // How many states the chain that ends at n has.
    pub(crate) fn chain_length(&self, n: u32) -> u32
        ensures some { 1 ≤ result }
        ensures few { result ≤ 1024 }
        ensures is { (path : List ℕ) → Chain (marks_of self.now.marks.items) n path → length path ≤ 1024 → result ≡ length path }
    {
        iter::successors(Some(n), |&at| self.origin(at))
            .take(STATES)
            .count() as u32
    }

    // Writes the chain that ends at n, of len states, into the path. A loop, and no chain of iterators: each write borrows the whole bench,
    // whose marks lead on.
    pub(crate) fn write_chain(&mut self, n: u32, len: u32)
        ensures path { (path : List ℕ) → Chain (marks_of self.old.marks.items) n path → length path ≡ len → len ≤ 1024 → take len self.new.path.items ≡ path }
        ensures marks { self.new.marks ≡ self.old.marks }
    {
        let mut at = n;
        for i in (0..len).rev() {
            self.set_step(i, at);
            match self.origin(at) {
                Some(u) => at = u,
                None => return,
            }
        }
    }
}
