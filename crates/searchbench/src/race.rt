// A last, worked until it is done.
use blank::Blank;
use course::{Numbers, Word};
use planner::{Bench, Last, Shown};
use rank::CostRank;
use std::alloc::{AllocError, Global};
use wish::Wish;

// The largest budget.
const MOST_MOVES: u32 = 65_535;

// More works than any of these lasts takes.
const MOST_WORKS: u32 = 1_000_000;

const FREE: CostRank = CostRank { sum: 0, state: 0 };

const NO_NUMBERS: Numbers = Numbers {
    state: 0,
    g: 0,
    h: 0,
    limit: 0,
    p: 0,
    q: 0,
    least: 0,
};

// How a last came out: whether it was done, what it shows, and how often its ratio was met.
#[derive(Clone, Copy)]
pub struct Outcome {
    pub done: bool,
    pub shown: Shown,
    pub met: u32,
}

// Works until the last is done. Where the ratio is met the ceiling is lowered to just below what stands, so that the work goes on.
fn work_on<B: Blank, W: Wish>(
    last: &mut Last<B, W>,
    costs: &mut [CostRank],
    wishes: &mut [W::Rank],
) -> Outcome {
    let mut met = 0u32;
    for _ in 0..MOST_WORKS {
        let Ok(worked) = last.work(MOST_MOVES, costs, wishes) else {
            break;
        };
        match worked.word {
            Word::Done => {
                return Outcome {
                    done: true,
                    shown: last.show(),
                    met,
                };
            }
            Word::Met => {
                let cost = last.show().cost.unwrap_or(0);
                let _ = last.ceiling(cost.saturating_sub(1));
                met = met.saturating_add(1);
            }
            Word::Spent => {}
        }
    }
    Outcome {
        done: false,
        shown: last.show(),
        met,
    }
}

// A row of ranks of a wish.
fn rank_row<W: Wish>(alloc: Global, wish: &W, entries: u32) -> Result<Vec<W::Rank>, AllocError> {
    let mut row = Vec::new(alloc);
    for _ in 0..entries {
        row.push(wish.rank(&NO_NUMBERS))?;
    }
    Ok(row)
}

// Clamps a bench with a blank and a wish, sets the ratio p/q, works until the last is done, and lifts it.
pub(crate) fn race<B: Blank, W: Wish + Copy>(
    alloc: Global,
    bench: Bench,
    blank: &B,
    wish: W,
    ratio: (u32, u32),
) -> Result<(Bench, Outcome), AllocError> {
    let (p, q) = ratio;
    let mut costs = vec![in alloc; FREE; blank.states() as usize]?;
    let mut wishes = rank_row(alloc, &wish, blank.states())?;
    let mut last = Last::clamp(bench, blank, wish);
    let _ = last.ratio(p, q);
    let outcome = work_on(&mut last, costs.as_mut_slice(), wishes.as_mut_slice());
    Ok((last.lift().bench, outcome))
}
