// What every rank answers.
ghost use Rattle.std.specs.Prelude.{◌≡◌, ℕ, Bool};
ghost use Rattle.rank.specs.Orders.{LawfulOrder};

// A rank carries a state, and is no later than another rank or is later. Both are answered alike each time, and alter nothing.
pub trait Rank {
    // the state that it carries
    ghost state: { Self → ℕ };

    // whether the first is no later than the second
    ghost precedes: { Self → Self → Bool };

    // of two ranks at least one is no later than the other, this carries over, and two that each are no later carry the same state
    ghost lawful: { LawfulOrder state precedes };

    fn state(&self) -> u32
        ensures { result ≡ state self.now };

    fn no_later(&self, other: &Self) -> bool
        ensures { result ≡ precedes self.now other.now };
}
