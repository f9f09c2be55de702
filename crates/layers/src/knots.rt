// Knots: a layer that marks states, so that no cut leads into them.
ghost use Rattle.std.specs.Prelude.{◌≡◌, ℕ, ◌+◌, ◌||◌, ◌==◌, ◌≢◌, [], length, Ok};
ghost use Rattle.layers.specs.Knotted.{knotted, among};
ghost use Rattle.layers.specs.KnottedLaws.{knotted_lawful};
ghost use Rattle.layers.specs.Marking.{may_be_marked};

use arrayvec::ArrayVec;
use blank::Blank;
use course::Refusal;

// How many knots may stand.
const MOST_KNOTS: usize = 64;

// A knot is a marked state: the cuts into it are empty, and all else is as below.
#[derive(Drop)]
pub struct Knots<B> {
    below: B,
    knots: ArrayVec<u32, MOST_KNOTS>,
}

impl<B: Blank> Knots<B> {
    // The layer with no knot.
    pub fn over(below: B) -> Knots<B>
        ensures { (result.below ≡ below) × (result.knots.items ≡ []) }
    {
        Knots {
            below,
            knots: ArrayVec::new(),
        }
    }

    pub fn is_marked(&self, state: u32) -> bool
        ensures { result ≡ among self.now.knots.items state }
    {
        self.knots.contains(&state)
    }

    // Whether a state may be marked now; else the refusal with the smallest number that applies.
    pub fn may_mark(&self, state: u32) -> Result<(), Refusal>
        ensures { result ≡ may_be_marked (B.meaning self.now.below) self.now.knots.items state }
    {
        if state >= self.below.states()
            || state == self.below.start()
            || state == self.below.goal()
        {
            return Err(Refusal::KnotBarred);
        }
        if self.is_marked(state) {
            return Err(Refusal::KnotMarked);
        }
        if self.knots.is_full() {
            return Err(Refusal::KnotsFull);
        }
        Ok(())
    }

    // Marks a state where it may be marked, and that state only; elsewhere gives the layer back as it was.
    pub fn mark(mut self, state: u32) -> Knots<B>
        ensures below { result.below ≡ self.below }
        ensures marked { may_be_marked (B.meaning self.below) self.knots.items state ≡ Ok tt → (length result.knots.items ≡ length self.knots.items + 1) × ((s : ℕ) → among result.knots.items s ≡ (state == s || among self.knots.items s)) }
        ensures refused { (may_be_marked (B.meaning self.below) self.knots.items state ≢ Ok tt) → result ≡ self }
    {
        if self.may_mark(state).is_ok() {
            self.knots.push(state);
        }
        self
    }
}

impl<B: Blank> Blank for Knots<B> {
    ghost meaning = { λ x. knotted (B.Blank.meaning x.below) (among x.knots.items) };

    ghost lawful = { λ x. knotted_lawful (B.Blank.meaning x.below) (among x.knots.items) (B.Blank.lawful x.below) };

    // To the blank below, a line a question: one impl over a trait of layers would ask a method, a ghost member and a law of each layer.
    fn states(&self) -> u32 {
        self.below.states()
    }

    fn start(&self) -> u32 {
        self.below.start()
    }

    fn goal(&self) -> u32 {
        self.below.goal()
    }

    fn places(&self, state: u32) -> u32 {
        self.below.places(state)
    }

    fn cut(&self, state: u32, place: u32) -> Option<(u32, u32)> {
        self.below
            .cut(state, place)
            .filter(|(to, _)| !self.is_marked(*to))
    }

    fn estimate(&self, state: u32) -> u32 {
        self.below.estimate(state)
    }
}
