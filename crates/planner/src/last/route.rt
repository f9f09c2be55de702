// The standing route, told.
ghost use Rattle.std.specs.Prelude.{◌≡◌, ◌≤◌, ◌++◌, length, drop};
ghost use Rattle.wish.specs.Wished.{order_of};
ghost use Rattle.planner.specs.Lasts.{state_of};
ghost use Rattle.planner.specs.Calls.{RouteAnswered};

use crate::last::Last;
use blank::Blank;
use course::Refusal;
use wish::Wish;

// How many states were written, what the route costs, and the floor. (The row is the caller's, and may be longer: so the number stands here.)
#[derive(Clone, Copy, Debug, PartialEq, Eq)]
pub struct Told {
    pub len: u32,
    pub cost: u32,
    pub floor: u32,
}

// Writes states over the front of a row that has room for them.
fn write_over(row: &mut [u32], states: &[u32])
    requires { length states.now ≤ length row.old }
    ensures { row.new ≡ states.now ++ drop (length states.now) row.old }
{
    row[..states.len()].copy_from_slice(states);
}

impl<B: Blank, W: Wish> Last<B, W> {
    // Writes the states of the standing route into the row's first entries, or refuses.
    pub fn route(&self, row: &mut [u32]) -> Result<Told, Refusal>
        ensures { RouteAnswered (B.meaning self.now.blank) (order_of (W.ranked self.now.wish) W.Rank.Rank.precedes) (state_of self.now) row.old result row.new }
    {
        let found = self.search.standing.ok_or(Refusal::NoRoute)?;
        let path = &self.search.bench.path()[..found.len as usize];
        if row.len() < path.len() {
            return Err(Refusal::RowTooShort);
        }
        write_over(row, path);
        Ok(Told {
            len: found.len,
            cost: found.cost,
            floor: self.search.floor,
        })
    }
}
