ghost use Rattle.std.specs.Prelude.{◌≡◌, MatchResult, slice_set};
ghost use Rattle.course.specs.Refusals.{number_of};

use crate::row_queue::Queue;
use course::Refusal;
use rank::{CostRank, Rank};

// What a lender learns: where its row has an entry, the first entry then holds the rank, the others what they held, and the rank's state is
// answered; a row with none is refused and stays as it is.
fn lent_and_back<R: Rank + Copy>(row: &mut [R], rank: R) -> Result<u32, Refusal>
    ensures { MatchResult result
        (λ s. (s ≡ R.state rank) × (row.new ≡ slice_set row.old 0 rank))
        (λ e. (number_of e ≡ 39) × (row.new ≡ row.old)) }
{
    let mut queue = Queue::over(row);
    queue.put(rank)?;
    queue.take()
}

fn cost(sum: u64, state: u32) -> CostRank {
    CostRank { sum, state }
}

#[test]
fn a_row_is_lent_and_comes_back(rt: HostRuntime) {
    let mut row = [cost(0, 0), cost(5, 1)];
    assert_eq!(rt; lent_and_back(&mut row, cost(9, 2)), Ok(2));
    assert_eq!(rt; row[0].state, 2);
    assert_eq!(rt; row[1].state, 1);
}

#[test]
fn the_smaller_cost_is_first(rt: HostRuntime) {
    let mut row = [cost(0, 0); 4];
    let mut queue = Queue::over(&mut row);
    assert_eq!(rt; queue.put(cost(30, 1)), Ok(()));
    assert_eq!(rt; queue.put(cost(10, 4)), Ok(()));
    assert_eq!(rt; queue.put(cost(10, 3)), Ok(()));
    assert_eq!(rt; queue.take(), Ok(3));
    assert_eq!(rt; queue.take(), Ok(4));
    assert_eq!(rt; queue.take(), Ok(1));
}

#[test]
fn a_full_row_refuses_until_one_is_taken(rt: HostRuntime) {
    let mut row = [cost(0, 0); 2];
    let mut queue = Queue::over(&mut row);
    assert_eq!(rt; queue.put(cost(2, 7)), Ok(()));
    assert_eq!(rt; queue.put(cost(1, 8)), Ok(()));
    assert_eq!(rt; queue.put(cost(3, 9)), Err(Refusal::QueueFull));
    assert_eq!(rt; queue.take(), Ok(8));
    assert_eq!(rt; queue.put(cost(3, 9)), Ok(()));
    assert_eq!(rt; queue.take(), Ok(7));
    assert_eq!(rt; queue.take(), Ok(9));
}

#[test]
fn an_empty_queue_refuses(rt: HostRuntime) {
    let mut none: [CostRank; 0] = [];
    let mut queue = Queue::over(&mut none);
    assert_eq!(rt; queue.take(), Err(Refusal::QueueEmpty));
    assert_eq!(rt; queue.put(cost(1, 1)), Err(Refusal::QueueFull));
    assert_eq!(rt; queue.strike(1), 0);
    assert_eq!(rt; queue.len(), 0);
}

#[test]
fn repeats_of_a_state_are_struck_together(rt: HostRuntime) {
    let mut row = [cost(0, 0); 4];
    let mut queue = Queue::over(&mut row);
    assert_eq!(rt; queue.put(cost(1, 5)), Ok(()));
    assert_eq!(rt; queue.put(cost(3, 6)), Ok(()));
    assert_eq!(rt; queue.put(cost(2, 5)), Ok(()));
    assert_eq!(rt; queue.put(cost(1, 5)), Ok(()));
    assert_eq!(rt; queue.strike(5), 3);
    assert_eq!(rt; queue.strike(5), 0);
    assert_eq!(rt; queue.len(), 1);
    assert_eq!(rt; queue.take(), Ok(6));
    assert_eq!(rt; queue.take(), Err(Refusal::QueueEmpty));
}
