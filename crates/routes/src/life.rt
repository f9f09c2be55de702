// One last, driven to its end by budgets that are split in one way or another, and checked after every work.
use crate::count::Count;
use crate::graph::MOST;
use crate::sight::{Sight, check_sight, look_at, may_be_done, may_be_met, may_be_spent, number_of};
use crate::tally::{Lapse, Tally};
use blank::Blank;
use course::{Numbers, Word};
use planner::{Bench, Last, Shown, Worked};
use rank::CostRank;
use std::alloc::{AllocError, Global};
use wish::Wish;

// The settings of a last: the ratio p/q, and the ceiling where it is lowered.
#[derive(Clone, Copy)]
pub struct Plan {
    pub p: u32,
    pub q: u32,
    pub ceiling: Option<u32>,
}

// How the moves are split into budgets.
#[derive(Clone, Copy)]
pub enum Split {
    // as many as may be, at once
    Whole,
    // one after the other, with refused calls between them
    Ones,
    // two, and then the rest
    TwoFirst,
}

impl Split {
    // The budget of a turn.
    fn budget(self, turn: u32) -> u32 {
        match self {
            Split::Whole => 65535,
            Split::Ones => 1,
            Split::TwoFirst => { if turn == 0 { 2 } else { 65535 } }
        }
    }

    // Whether refused calls stand between the works.
    fn is_refusing(self) -> bool {
        matches!(self, Split::Ones)
    }

    // How many entries the rows that are lent have beyond those for the states.
    fn spare(self) -> u32 {
        match self {
            Split::TwoFirst => 3,
            _ => 0,
        }
    }
}

// What is tried of a blank: what brute force says of it, the settings and the split.
#[derive(Clone, Copy)]
pub struct Trial {
    pub count: Count,
    pub plan: Plan,
    pub split: Split,
}

// What a last told at its three stops: with the ratio as planned, then with a ceiling below what stood, then with the ratio 1/1.
#[derive(Clone, Copy, PartialEq, Eq)]
pub struct Ending {
    planned: Sight,
    lowered: Sight,
    whole: Sight,
}

// More turns than any of these lasts takes.
const MOST_TURNS: u32 = 4096;

const FREE: CostRank = CostRank { sum: 0, state: 0 };

const NO_NUMBERS: Numbers = Numbers {
    state: 0,
    g: 0,
    h: 0,
    limit: 0,
    p: 0,
    q: 0,
    least: 0,
};

// Asks for the route with a row that is too short by one, or for none where no route stands. The answer is the number of the refusal, and 0
// where there was none or the row was written.
fn ask_too_short<B: Blank, W: Wish>(last: &Last<B, W>, len: usize) -> u32 {
    let mut row = [9; MOST];
    let lent = &mut row[..];
    let short = len.saturating_sub(1).min(MOST);
    let number = number_of(last.route(&mut lent[0..short]));
    if row == [9; MOST] { number } else { 0 }
}

// Makes calls that are not in order, with rows that are as long as they have to be. Each is refused with its number, and alters nothing
// that is told.
fn make_refused_calls<B: Blank, W: Wish>(
    last: &mut Last<B, W>,
    costs: &mut [CostRank],
    wishes: &mut [W::Rank],
    tally: &mut Tally,
) {
    let before = look_at(last);
    let over = before.shown.ceiling.saturating_add(1);
    let short = costs.len().saturating_sub(1).min(wishes.len());
    let (len, refused) = match before.told {
        Ok(told) => (told.len as usize, 15),
        Err(_) => (0, 31),
    };
    let mut numbers = [0; 6];
    if short <= costs.len() && short <= wishes.len() {
        numbers[0] = number_of(last.work(1, &mut costs[0..short], wishes));
        numbers[1] = number_of(last.work(65536, costs, &mut wishes[0..short]));
    }
    numbers[2] = number_of(last.work(65536, costs, wishes));
    numbers[3] = number_of(last.ratio(1, 2));
    numbers[4] = number_of(last.ceiling(over));
    numbers[5] = ask_too_short(last, len);
    tally.expect(numbers == [15, 15, 18, 13, 36, refused], Lapse::Accepted);
    tally.expect(before == look_at(last), Lapse::Altered);
    tally.refusals = tally.refusals.saturating_add(6);
}

// Checks the word of an accepted work by what is shown after it.
fn check_word(after: &Shown, budget: u32, worked: &Worked, count: &Count, tally: &mut Tally) {
    match worked.word {
        Word::Done => {
            tally.done = tally.done.saturating_add(1);
            tally.expect(may_be_done(after, count), Lapse::Done);
        }
        Word::Met => {
            tally.met = tally.met.saturating_add(1);
            tally.expect(may_be_met(after, count), Lapse::Met);
        }
        Word::Spent => {
            tally.spent = tally.spent.saturating_add(1);
            let whole = worked.moves == budget;
            tally.expect(whole && may_be_spent(after), Lapse::Spent);
        }
    }
}

// Checks the moves of an accepted work by what was shown before and after it.
fn check_moves(before: &Shown, after: &Shown, budget: u32, worked: &Worked, tally: &mut Tally) {
    let moves = before.moves.saturating_add(worked.moves);
    let right = worked.moves <= budget && after.moves == moves;
    tally.expect(right, Lapse::Moves);
    tally.moves = tally.moves.saturating_add(u64::from(worked.moves));
}

// One work, checked. It answers the word, where the work was not refused.
fn work_once<B: Blank, W: Wish>(
    last: &mut Last<&B, W>,
    blank: &B,
    trial: &Trial,
    budget: u32,
    costs: &mut [CostRank],
    wishes: &mut [W::Rank],
    tally: &mut Tally,
) -> Option<Word> {
    let before = last.show();
    let answer = last.work(budget, costs, wishes);
    let sight = look_at(last);
    check_sight(blank, &sight, &trial.count, tally);
    match answer {
        Ok(worked) => {
            check_word(&sight.shown, budget, &worked, &trial.count, tally);
            check_moves(&before, &sight.shown, budget, &worked, tally);
            Some(worked.word)
        }
        Err(_) => {
            tally.expect(false, Lapse::Refused);
            None
        }
    }
}

// Works until the last is done or its ratio is met, and looks at it then.
fn work_on<B: Blank, W: Wish>(
    last: &mut Last<&B, W>,
    blank: &B,
    trial: &Trial,
    costs: &mut [CostRank],
    wishes: &mut [W::Rank],
    tally: &mut Tally,
) -> Sight {
    for turn in 0..MOST_TURNS {
        if trial.split.is_refusing() {
            make_refused_calls(last, costs, wishes, tally);
        }
        let budget = trial.split.budget(turn);
        match work_once(last, blank, trial, budget, costs, wishes, tally) {
            Some(Word::Done) => return look_at(last),
            Some(Word::Met) => return look_at(last),
            _ => {}
        }
    }
    tally.expect(false, Lapse::Endless);
    look_at(last)
}

// Sets the ratio, which is in order.
fn set_ratio<B: Blank, W: Wish>(last: &mut Last<B, W>, p: u32, q: u32, tally: &mut Tally) {
    let number = number_of(last.ratio(p, q));
    tally.expect(number == 0, Lapse::Refused);
}

// Lowers the ceiling, where it is to be lowered, and checks what is told then.
fn lower_ceiling<B: Blank, W: Wish>(
    last: &mut Last<&B, W>,
    blank: &B,
    trial: &Trial,
    ceiling: Option<u32>,
    tally: &mut Tally,
) {
    if let Some(ceiling) = ceiling {
        let number = number_of(last.ceiling(ceiling));
        tally.expect(number == 0, Lapse::Refused);
    }
    check_sight(blank, &look_at(last), &trial.count, tally);
}

// A ceiling just below what stands.
fn just_below(shown: &Shown) -> Option<u32> {
    shown
        .cost
        .map(|cost| cost.saturating_sub(1).min(shown.ceiling))
}

// Drives a last to its three stops.
fn drive<B: Blank, W: Wish>(
    last: &mut Last<&B, W>,
    blank: &B,
    trial: &Trial,
    costs: &mut [CostRank],
    wishes: &mut [W::Rank],
    tally: &mut Tally,
) -> Ending {
    set_ratio(last, trial.plan.p, trial.plan.q, tally);
    lower_ceiling(last, blank, trial, trial.plan.ceiling, tally);
    let planned = work_on(last, blank, trial, costs, wishes, tally);
    lower_ceiling(last, blank, trial, just_below(&planned.shown), tally);
    let lowered = work_on(last, blank, trial, costs, wishes, tally);
    set_ratio(last, 1, 1, tally);
    let whole = work_on(last, blank, trial, costs, wishes, tally);
    tally.expect(may_be_done(&whole.shown, &trial.count), Lapse::Done);
    tally.lasts = tally.lasts.saturating_add(1);
    if whole.shown.moves >= blank.states() {
        tally.reopening = tally.reopening.saturating_add(1);
    }
    Ending {
        planned,
        lowered,
        whole,
    }
}

// A row of ranks of a wish.
fn rank_row<W: Wish>(alloc: Global, wish: &W, entries: u32) -> Result<Vec<W::Rank>, AllocError> {
    let mut row = Vec::new(alloc);
    for _ in 0..entries {
        row.push(wish.rank(&NO_NUMBERS))?;
    }
    Ok(row)
}

// Clamps a bench, drives the last to its end, and lifts it.
pub(crate) fn live<B: Blank, W: Wish + Copy>(
    alloc: Global,
    bench: Bench,
    blank: &B,
    wish: W,
    trial: &Trial,
    tally: &mut Tally,
) -> Result<(Bench, Ending), AllocError> {
    let entries = blank.states().saturating_add(trial.split.spare());
    let mut costs = vec![in alloc; FREE; entries as usize]?;
    let mut wishes = rank_row(alloc, &wish, entries)?;
    let mut last = Last::clamp(bench, blank, wish);
    let ending = drive(
        &mut last,
        blank,
        trial,
        costs.as_mut_slice(),
        wishes.as_mut_slice(),
        tally,
    );
    Ok((last.lift().bench, ending))
}
