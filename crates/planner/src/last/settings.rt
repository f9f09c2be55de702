// The settings: the ratio and the ceiling.
ghost use Rattle.std.specs.Prelude.{◌≡◌, OnErr};
ghost use Rattle.wish.specs.Wished.{order_of};
ghost use Rattle.planner.specs.Lasts.{state_of};
ghost use Rattle.planner.specs.Calls.{RatioAnswered, CeilingAnswered};

use crate::last::Last;
use crate::ratio::Ratio;
use blank::Blank;
use course::Refusal;
use wish::Wish;

impl<B: Blank, W: Wish> Last<B, W> {
    // Sets the ratio to p/q, or refuses.
    pub fn ratio(&mut self, p: u32, q: u32) -> Result<(), Refusal>
        ensures answer { RatioAnswered (B.meaning self.old.blank) (order_of (W.ranked self.old.wish) W.Rank.Rank.precedes) (state_of self.old) p q result (state_of self.new) }
        ensures untouched { OnErr result (self.new ≡ self.old) }
        ensures blank { self.new.blank ≡ self.old.blank }
        ensures wish { self.new.wish ≡ self.old.wish }
    {
        self.search.ratio = Ratio::new(p, q)?;
        Ok(())
    }

    // Sets the ceiling, which never rises, and raises the floor under it; or refuses.
    pub fn ceiling(&mut self, c: u32) -> Result<(), Refusal>
        ensures answer { CeilingAnswered (B.meaning self.old.blank) (order_of (W.ranked self.old.wish) W.Rank.Rank.precedes) (state_of self.old) c result (state_of self.new) }
        ensures untouched { OnErr result (self.new ≡ self.old) }
        ensures blank { self.new.blank ≡ self.old.blank }
        ensures wish { self.new.wish ≡ self.old.wish }
    {
        if c > self.search.ceiling {
            return Err(Refusal::CeilingRaised);
        }
        self.search.ceiling = c;
        self.search.raise_floor(&self.blank);
        Ok(())
    }
}
