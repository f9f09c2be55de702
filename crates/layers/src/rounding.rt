// Rounding: a layer that lowers every estimate to a multiple of a step.
ghost use Rattle.std.specs.Prelude.{◌≡◌, ◌≤◌, IfOk, IfErr};
ghost use Rattle.course.specs.declared.refusal.Refusal.TheVariants.{BadStep};
ghost use Rattle.layers.specs.Rounded.{rounded};
ghost use Rattle.layers.specs.RoundedLaws.{rounded_lawful};

use blank::Blank;
use course::Refusal;

const LEAST_STEP: u32 = 1;

const MOST_STEP: u32 = 1000;

// Each estimate is the greatest multiple of the step that is not above the estimate below; all else is as below.
#[derive(Drop)]
pub struct Rounding<B> {
    below: B,
    step: u32,
    ghost least: { 1 ≤ step },
    ghost most: { step ≤ 1000 },
}

// A making that was refused: the blank that was given, and why.
#[derive(Drop)]
pub struct Unrounded<B> {
    pub below: B,
    pub refusal: Refusal,
}

impl<B: Blank> Rounding<B> {
    // The layer with this step, which is 1 to 1,000; with any other the blank comes back.
    pub fn over(below: B, step: u32) -> Result<Rounding<B>, Unrounded<B>>
        ensures made { IfOk result (λ v. (1 ≤ step) × (step ≤ 1000) × (v.below ≡ below) × (v.step ≡ step)) }
        ensures refused { IfErr result (λ e. (1 ≤ step → step ≤ 1000 → ⊥) × (e.below ≡ below) × (e.refusal ≡ BadStep)) }
    {
        if !(LEAST_STEP..=MOST_STEP).contains(&step) {
            return Err(Unrounded {
                below,
                refusal: Refusal::BadStep,
            });
        }
        Ok(Rounding { below, step })
    }
}

impl<B: Blank> Blank for Rounding<B> {
    ghost meaning = { λ x. rounded (B.Blank.meaning x.below) x.step };

    ghost lawful = { λ x. rounded_lawful (B.Blank.meaning x.below) x.step (B.Blank.lawful x.below) };

    // To the blank below, a line a question: one impl over a trait of layers would ask a method, a ghost member and a law of each layer.
    fn states(&self) -> u32 {
        self.below.states()
    }

    fn start(&self) -> u32 {
        self.below.start()
    }

    fn goal(&self) -> u32 {
        self.below.goal()
    }

    fn places(&self, state: u32) -> u32 {
        self.below.places(state)
    }

    fn cut(&self, state: u32, place: u32) -> Option<(u32, u32)> {
        self.below.cut(state, place)
    }

    fn estimate(&self, state: u32) -> u32 {
        self.below.estimate(state) / self.step * self.step
    }
}
