// queuebench puts, strikes and takes ranks at 64 and at 1,024 entries, and prints how many. It prints no times: to measure, run
// `rt run` in this folder, and then `time out/queuebench`. It stands on queue, rank and course.
#![tactic(auto)]

use queue::Queue;
use rank::CostRank;
use std::{fmt, io};

// How often each row is filled and emptied.
const SMALL_ROUNDS: u32 = 2_048;

const LARGE_ROUNDS: u32 = 128;

const FREE: CostRank = CostRank { sum: 0, state: 0 };

// How many ranks were put, struck and taken, and how many were left at the ends of the rounds.
#[derive(Clone, Copy, Default)]
struct Counts {
    put: usize,
    struck: usize,
    taken: usize,
    left: usize,
}

impl Counts {
    // Fills the row with ranks of mixed sums and of states below 64, strikes the state 7, and takes all others.
    fn round(&mut self, row: &mut [CostRank]) {
        let entries = row.len();
        let mut queue = Queue::over(row);
        let mut mixed: u32 = 1;
        for _ in 0..entries {
            mixed = mixed.wrapping_mul(1_664_525).wrapping_add(1_013_904_223);
            let rank = CostRank {
                sum: u64::from(mixed >> 16),
                state: mixed % 64,
            };
            if queue.put(rank).is_ok() {
                self.put = self.put.wrapping_add(1);
            }
        }
        self.struck = self.struck.wrapping_add(queue.strike(7));
        for _ in 0..entries {
            if queue.take().is_ok() {
                self.taken = self.taken.wrapping_add(1);
            }
        }
        self.left = self.left.wrapping_add(queue.len());
    }
}

impl fmt::Display for Counts {
    fn fmt<W: fmt::Write>(&self, f: &mut fmt::Formatter<W>) -> fmt::Result {
        write!(
            f,
            "{} put, {} struck, {} taken, {} left",
            self.put, self.struck, self.taken, self.left
        )
    }
}

fn tell(rt: &impl Print, row: &mut [CostRank], rounds: u32) -> anyhow::Result<()> {
    let entries = row.len();
    let mut counts = Counts::default();
    for _ in 0..rounds {
        counts.round(row);
    }
    println!(rt; "{entries} entries, {rounds} rounds: {counts}")?;
    Ok(())
}

fn run(rt: &impl Print) -> anyhow::Result<()> {
    let mut small = [FREE; 64];
    tell(rt, &mut small, SMALL_ROUNDS)?;
    let mut large = [FREE; 1024];
    tell(rt, &mut large, LARGE_ROUNDS)
}

fn main(rt: HostRuntime) -> anyhow::Result<()> {
    run(&rt)
}
