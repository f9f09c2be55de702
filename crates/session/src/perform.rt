// Orders performed in turn.
ghost use Rattle.std.specs.Prelude.{◌≡◌, map, length, IfOk};
ghost use Rattle.course.specs.Calls.{Does, Life};
ghost use Rattle.wish.specs.Wished.{order_of};
ghost use Rattle.planner.specs.Idle.{Idle};
ghost use Rattle.planner.specs.Lasts.{state_of};
ghost use Rattle.planner.specs.Lives.{AfterLives};
ghost use Rattle.std.specs.List.{AllByRecursion};
ghost use Rattle.session.specs.Replies.{call_of, answer_of, written, all_written, NoWork};
ghost use Rattle.session.specs.Lived.{newest_first, Lived};

use crate::reply::{Reply, Route};
use blank::Blank;
use planner::{Bench, Last, Lifted};
use rank::CostRank;
use std::alloc::{AllocError, Global};
use text::Order;
use wish::Wish;

// The route of a last, with its states in a row of their own.
fn tell<B: Blank, W: Wish>(
    alloc: Global,
    last: &Last<B, W>,
    row: &mut [u32],
) -> Result<Reply, AllocError>
    ensures does { IfOk result (λ x. Does (B.meaning last.now.blank) (order_of (W.ranked last.now.wish) W.Rank.Rank.precedes) (state_of last.now) (call_of 0 0 (length row.old) Order.Route) (answer_of x) (state_of last.now)) }
    ensures row { IfOk result (λ x. row.new ≡ written (answer_of x) row.old) }
{
    match last.route(row) {
        Ok(told) => {
            let states = row[0..told.len as usize].to_vec(alloc)?;
            Ok(Reply::Told(Route {
                states,
                cost: told.cost,
                floor: told.floor,
            }))
        }
        Err(refusal) => Ok(Reply::Refused(refusal)),
    }
}

// Performs one order, and answers it. Only memory can fail.
fn perform<B: Blank, W: Wish>(
    alloc: Global,
    last: &mut Last<B, W>,
    order: Order,
    costs: &mut [CostRank],
    wishes: &mut [W::Rank],
    row: &mut [u32],
) -> Result<Reply, AllocError>
    ensures does { IfOk result (λ x. AfterLives (B.meaning last.old.blank) (order_of (W.ranked last.old.wish) W.Rank.Rank.precedes) (state_of last.old)
        (λ cs. Does (B.meaning last.old.blank) (order_of (W.ranked last.old.wish) W.Rank.Rank.precedes) (state_of last.old) (call_of (length costs.old) (length wishes.old) (length row.old) order) (answer_of x) (state_of last.new))) }
    ensures row { IfOk result (λ x. row.new ≡ written (answer_of x) row.old) }
    ensures ranks { IfOk result (λ x. NoWork (answer_of x) → (costs.new ≡ costs.old) × (wishes.new ≡ wishes.old)) }
    ensures blank { last.new.blank ≡ last.old.blank }
    ensures wish { last.new.wish ≡ last.old.wish }
{
    match order {
        Order::Work(budget) => match last.work(budget, costs, wishes) {
            Ok(worked) => Ok(Reply::Worked(worked)),
            Err(refusal) => Ok(Reply::Refused(refusal)),
        },
        Order::Ratio(p, q) => match last.ratio(p, q) {
            Ok(()) => Ok(Reply::Set),
            Err(refusal) => Ok(Reply::Refused(refusal)),
        },
        Order::Ceiling(c) => match last.ceiling(c) {
            Ok(()) => Ok(Reply::Set),
            Err(refusal) => Ok(Reply::Refused(refusal)),
        },
        Order::Show => Ok(Reply::Shown(last.show())),
        Order::Route => tell(alloc, last, row),
    }
}

// Performs the orders in turn, and answers each.
fn perform_each<B: Blank, W: Wish>(
    alloc: Global,
    last: &mut Last<B, W>,
    orders: &[Order],
    costs: &mut [CostRank],
    wishes: &mut [W::Rank],
    row: &mut [u32],
) -> Result<Vec<Reply>, AllocError>
    ensures every { IfOk result (λ v. length v.items ≡ length orders.now) }
    ensures lives { IfOk result (λ v. AfterLives (B.meaning last.old.blank) (order_of (W.ranked last.old.wish) W.Rank.Rank.precedes) (state_of last.old)
        (λ cs. Life (B.meaning last.old.blank) (order_of (W.ranked last.old.wish) W.Rank.Rank.precedes) (newest_first (map (call_of (length costs.old) (length wishes.old) (length row.old)) orders.now) (map answer_of v.items) cs) (state_of last.new))) }
    ensures row { IfOk result (λ v. row.new ≡ all_written (map answer_of v.items) row.old) }
    ensures ranks { IfOk result (λ v. AllByRecursion NoWork (map answer_of v.items) → (costs.new ≡ costs.old) × (wishes.new ≡ wishes.old)) }
    ensures blank { last.new.blank ≡ last.old.blank }
    ensures wish { last.new.wish ≡ last.old.wish }
{
    let mut replies = Vec::new(alloc);
    for order in orders {
        let reply = perform(alloc, last, *order, costs, wishes, row)?;
        replies.push(reply)?;
    }
    Ok(replies)
}

// Clamps the bench with the blank and the wish, performs the orders in turn, and lifts. It gives back the bench, idle, with blank and wish,
// and an answer to each order. The rows may be of any length: routes that are told are written over the front of their row one after the other,
// and the rows for ranks hold any ranks once a work was accepted. Only memory can fail.
pub fn perform_all<B: Blank, W: Wish>(
    alloc: Global,
    bench: Bench,
    blank: B,
    wish: W,
    orders: &[Order],
    costs: &mut [CostRank],
    wishes: &mut [W::Rank],
    row: &mut [u32],
) -> (Lifted<B, W>, Result<Vec<Reply>, AllocError>)
    ensures idle { Idle result.0.bench.marks.items result.0.bench.path.items }
    ensures blank { result.0.blank ≡ blank }
    ensures wish { result.0.wish ≡ wish }
    ensures lived { IfOk result.1 (λ v. Lived (B.meaning blank) (order_of (W.ranked wish) W.Rank.Rank.precedes) (map (call_of (length costs.old) (length wishes.old) (length row.old)) orders.now) (map answer_of v.items)) }
    ensures row { IfOk result.1 (λ v. row.new ≡ all_written (map answer_of v.items) row.old) }
    ensures ranks { IfOk result.1 (λ v. AllByRecursion NoWork (map answer_of v.items) → (costs.new ≡ costs.old) × (wishes.new ≡ wishes.old)) }
{
    let mut last = Last::clamp(bench, blank, wish);
    let replies = perform_each(alloc, &mut last, orders, costs, wishes, row);
    (last.lift(), replies)
}
