// Numbers that look like chance, and are the same in every run.

#[derive(Drop)]
pub struct Chance {
    mixed: u32,
}

impl Chance {
    pub(crate) fn new() -> Chance {
        Chance { mixed: 1 }
    }

    // A number below a bound, and 0 where the bound is 0.
    pub(crate) fn below(&mut self, bound: u32) -> u32 {
        self.mixed = self
            .mixed
            .wrapping_mul(1_664_525)
            .wrapping_add(1_013_904_223);
        (self.mixed >> 12).checked_rem(bound).unwrap_or(0)
    }
}
