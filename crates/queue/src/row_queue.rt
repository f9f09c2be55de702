// A queue of ranks over a borrowed row.
ghost use Rattle.std.specs.Prelude.{◌≡◌, ◌≤◌, length, take, MatchOption, MatchResult};
ghost use Rattle.course.specs.Refusals.{number_of};
ghost use Rattle.queue.specs.Inside.{IsEarliest, Parts};

use course::Refusal;
use rank::Rank;

// The first len entries of the row are the held ranks, in any order. The entries behind them are free. (The row is lent, since the planner's
// memory is fixed: so their number stands beside it.)
#[derive(Drop)]
pub struct Queue<'q, R> {
    row: &'q mut [R],
    len: usize,
    ghost fits: { len ≤ length row.now },
}

// Puts the ranks of a state behind all others, and answers how many others there are.
fn part<R: Rank>(held: &mut [R], struck: u32) -> usize
    ensures { Parts R.state struck held.old held.new result }
{
    let mut i = 0;
    let mut stay = held.len();
    // a while: the rank that comes from the end into a struck one's place is looked at next
    while i < stay {
        if held[i].state() == struck {
            stay -= 1;
            held.swap(i, stay);
        } else {
            i += 1;
        }
    }
    stay
}

// That a call keeps the row (`KeepsRow`) stands in each contract: it ties the queue before to the one after, so no field can hold it.
impl<'q, R: Rank + Copy> Queue<'q, R> {
    ghost use Rattle.queue.specs.Queues.{KeepsRow, IsUnchanged, IsFull, Puts, Takes, Strikes};

    // An empty queue over a row, which stays as it is.
    pub fn over(row: &'q mut [R]) -> Queue<'q, R>
        ensures empty { result.len ≡ 0 }
        ensures whole { result.row.now ≡ row.old }
        ensures same { result.row.ghost_name ≡ row.entry.ghost_name }
    {
        Queue { row, len: 0 }
    }

    // How many ranks are held.
    pub fn len(&self) -> usize
        ensures { result ≡ self.now.len }
    {
        self.len
    }

    // Adds a rank, or is refused where the row is full.
    pub fn put(&mut self, rank: R) -> Result<(), Refusal>
        ensures same { KeepsRow self.old self.new }
        ensures answer { MatchResult result
            (λ _. Puts rank self.old self.new)
            (λ e. (number_of e ≡ 39) × IsFull self.old × IsUnchanged self.old self.new) }
    {
        // `get_mut` and `?` would need a proof that the refused row comes back as it was; this needs none
        if self.len == self.row.len() {
            return Err(Refusal::QueueFull);
        }
        self.row[self.len] = rank;
        self.len += 1;
        Ok(())
    }

    // Where the first rank stands; of several that each are no later than all others, where the last of them does.
    fn first(&self) -> Option<usize>
        ensures { MatchOption result (self.now.len ≡ 0) (IsEarliest R.precedes (take self.now.len self.now.row.now)) }
    {
        self.row[..self.len]
            .iter()
            .enumerate()
            .reduce(|best, next| if next.1.no_later(best.1) { next } else { best })
            .map(|best| best.0)
    }

    // Removes the first rank and answers its state, or is refused where none is held.
    pub fn take(&mut self) -> Result<u32, Refusal>
        ensures same { KeepsRow self.old self.new }
        ensures answer { MatchResult result
            (λ s. Takes R.state R.precedes s self.old self.new)
            (λ e. (number_of e ≡ 40) × (self.old.len ≡ 0) × IsUnchanged self.old self.new) }
    {
        let best = self.first().ok_or(Refusal::QueueEmpty)?;
        let last = self.len - 1;
        self.row.swap(best, last);
        self.len = last;
        // read out first: an entry of a row that lies in a struct with a ghost field cannot be lent
        let taken = self.row[last];
        Ok(taken.state())
    }

    // Removes all ranks of a state, and answers how many.
    pub fn strike(&mut self, struck: u32) -> usize
        ensures same { KeepsRow self.old self.new }
        ensures answer { Strikes R.state struck result self.old self.new }
    {
        let held = self.len;
        self.len = part(&mut self.row[..held], struck);
        held - self.len
    }
}
