// The state whose rank is first, by a queue: for the choice of a state, and for the least sum.
ghost use Rattle.std.specs.Prelude.{ℕ, ◌<◌, ◌≤◌, length};
ghost use Rattle.planner.specs.Scans.{FirstRanked};

use queue::Queue;
use rank::Rank;

// Of the states that have a rank, the one whose rank is first.
pub(crate) fn first_of<R: Rank + Copy, F: Fn(u32) -> Option<R>>(
    states: u32,
    row: &mut [R],
    ranked: F,
) -> Option<u32>
    requires { (u : ℕ) → u < states → F.pre ranked u }
    ensures { states ≤ length row.old → FirstRanked R.state R.precedes (λ u r. F.post ranked u r) states result }
{
    let mut queue = Queue::over(row);
    for u in 0..states {
        if let Some(rank) = ranked(u) {
            let _ = queue.put(rank);
        }
    }
    queue.take().ok()
}
