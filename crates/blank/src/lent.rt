// A blank that is lent is a blank, so that a caller can keep what it lends.
use crate::blank_trait::Blank;

impl<B: Blank> Blank for &B {
    ghost meaning = { λ x. B.Blank.meaning x.now };

    ghost lawful = { λ x. B.Blank.lawful x.now };

    // A line a question: the language has no shorter form in which one value answers for another.
    fn states(&self) -> u32 {
        (**self).states()
    }

    fn start(&self) -> u32 {
        (**self).start()
    }

    fn goal(&self) -> u32 {
        (**self).goal()
    }

    fn places(&self, state: u32) -> u32 {
        (**self).places(state)
    }

    fn cut(&self, state: u32, place: u32) -> Option<(u32, u32)> {
        (**self).cut(state, place)
    }

    fn estimate(&self, state: u32) -> u32 {
        (**self).estimate(state)
    }
}
