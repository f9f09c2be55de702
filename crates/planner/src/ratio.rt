// The ratio: how far above a bound a cost may lie.
ghost use Rattle.std.specs.Prelude.{◌≡◌, ◌*◌, ◌≤◌, MatchResult};
ghost use Rattle.std.specs.Bool.{Decides};
ghost use Rattle.course.specs.Refusals.{number_of};
ghost use Rattle.course.specs.Calls.{Allowed};

use course::Refusal;

// A ratio p/q that may be set: 1 ≤ q ≤ p ≤ 1,000.
#[derive(Clone, Copy, Debug, PartialEq, Eq)]
pub(crate) struct Ratio {
    pub(crate) p: u32,
    pub(crate) q: u32,
    ghost allowed: { Allowed p q },
}

impl Ratio {
    // The ratio p/q, or a refusal.
    pub(crate) fn new(p: u32, q: u32) -> Result<Ratio, Refusal>
        ensures { MatchResult result (λ r. (r.p ≡ p) × (r.q ≡ q)) (λ e. (number_of e ≡ 13) × (Allowed p q → ⊥)) }
    {
        if q < 1 || p < q || p > 1000 {
            return Err(Refusal::BadRatio);
        }
        Ok(Ratio { p, q })
    }

    // Whether a cost is at most p/q times a bound.
    pub(crate) fn spans(self, cost: u32, bound: u32) -> bool
        ensures { Decides result (cost * self.q ≤ self.p * bound) }
    {
        u64::from(cost) * u64::from(self.q) <= u64::from(self.p) * u64::from(bound)
    }
}
