// What every blank answers.
ghost use Rattle.std.specs.Prelude.{◌≡◌, length};
ghost use Rattle.course.specs.Blanks.{Meaning, Lawful};
ghost use Rattle.blank.specs.Cuts.{cut_at};

// A blank, by its meaning: states numbered from 0, a start, a goal, and for each state a list of places and an estimate. Every question
// takes every number, is answered from the meaning, and alters nothing. What is no state has no places and estimate 0; a place past the
// last is empty. The meaning keeps the laws of a blank, whatever the value.
pub trait Blank {
    ghost meaning: { Self → Meaning };

    ghost lawful: { (x : Self) → Lawful (meaning x) };

    // How many states there are.
    fn states(&self) -> u32
        ensures { result ≡ (meaning self.now).states };

    fn start(&self) -> u32
        ensures { result ≡ (meaning self.now).start };

    fn goal(&self) -> u32
        ensures { result ≡ (meaning self.now).goal };

    // How many places a state has.
    fn places(&self, state: u32) -> u32
        ensures { result ≡ length ((meaning self.now).places state) };

    // The cut at a place of a state, by the state that it leads to and its cost, if there is one.
    fn cut(&self, state: u32, place: u32) -> Option<(u32, u32)>
        ensures { result ≡ cut_at (meaning self.now) state place };

    fn estimate(&self, state: u32) -> u32
        ensures { result ≡ (meaning self.now).estimate state };
}
