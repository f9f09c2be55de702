// The forms of a text: which mark is wanted where.
ghost use Rattle.std.specs.Prelude.{◌≡◌, ℕ, [], ◌∷◌, OnErr};
ghost use Rattle.course.specs.declared.refusal.Refusal.TheVariants.{MarkUnwanted};
ghost use Rattle.text.specs.declared.Layer.TheVariants.{Forms};
ghost use Rattle.text.specs.Forms.{the_sign, the_word, the_number, a_number, meets};
ghost use Rattle.text.specs.Document.{opening, space, line_end, first_line, from, a_cut, spaced_numbers};
ghost use Rattle.reader.specs.Meaning.{meant, Written};
ghost use Rattle.reader.specs.Readings.{wanted, Reads, none, one, pair, headed, cutting, named_number};

use crate::marks::{Mark, Reader, Sign, Token, value_of};
use course::Refusal;
use text::{Fault, Layer};

// What the first line says.
#[derive(Clone, Copy, PartialEq, Eq, Debug)]
pub(crate) struct Head {
    pub(crate) states: u32,
    pub(crate) start: u32,
    pub(crate) goal: u32,
}

// A cut as it is read.
#[derive(Clone, Copy, PartialEq, Eq, Debug)]
pub(crate) struct Cut {
    pub(crate) target: u32,
    pub(crate) cost: u32,
}

// What is wanted at a place: this sign, this word or this number.
#[derive(Clone, Copy, PartialEq, Eq, Debug)]
pub(crate) enum Want<'w> {
    Sign(Sign),
    Word(&'w [u8]),
    Number(u32),
}

impl Token<'_> {
    // Whether it is the one wanted.
    pub(crate) fn meets(self, want: Want<'_>) -> bool
        requires { Written self }
        ensures { result ≡ meets (wanted want.entry) (meant self.entry) }
    {
        match (self, want) {
            (Token::Sign(found), Want::Sign(sign)) => found == sign,
            (Token::Word(found), Want::Word(word)) => found == word,
            (Token::Number(digits), Want::Number(n)) => value_of(digits) == n,
            _ => false,
        }
    }
}

pub(crate) fn unwanted(mark: Mark<'_>) -> Fault
    ensures { result ≡ record { layer = Forms; cause = MarkUnwanted; place = mark.entry.place } }
{
    Fault::new(Layer::Forms, Refusal::MarkUnwanted, mark.place)
}

impl<'a> Reader<'a> {
    // Takes the mark in hand, if it is the one wanted; a mark that is refused stays.
    pub(crate) fn take(&mut self, want: Want<'_>) -> Result<(), Fault>
        ensures reads { Reads (wanted want.entry ∷ []) none self.old self.new result }
        ensures stays { OnErr result (self.new ≡ self.old) }
    {
        let mark = self.peek()?;
        if !mark.token.meets(want) {
            return Err(unwanted(mark));
        }
        self.at = mark.end;
        Ok(())
    }

    // any number; a mark that is none stays (a `let else`, since one of four cases is wanted: `?` has no form for that)
    pub(crate) fn number(&mut self) -> Result<u32, Fault>
        ensures reads { Reads (a_number ∷ []) one self.old self.new result }
        ensures stays { OnErr result (self.new ≡ self.old) }
    {
        let mark = self.peek()?;
        let Token::Number(digits) = mark.token else {
            return Err(unwanted(mark));
        };
        self.at = mark.end;
        Ok(value_of(digits))
    }

    // `(` and a word
    pub(crate) fn opening(&mut self, word: &[u8]) -> Result<(), Fault>
        ensures { Reads (the_sign 40 ∷ the_word word.now ∷ []) none self.old self.new result }
    {
        self.take(Want::Sign(Sign::Opening))?;
        self.take(Want::Word(word))
    }

    // a space and a number
    pub(crate) fn spaced_number(&mut self) -> Result<u32, Fault>
        ensures { Reads (the_sign 32 ∷ a_number ∷ []) one self.old self.new result }
    {
        self.take(Want::Sign(Sign::Space))?;
        self.number()
    }

    // ` (word #)`
    fn named_number(&mut self, word: &[u8]) -> Result<u32, Fault>
        ensures { Reads (named_number word.now) one self.old self.new result }
    {
        self.take(Want::Sign(Sign::Space))?;
        self.opening(word)?;
        let n = self.spaced_number()?;
        self.take(Want::Sign(Sign::Closing))?;
        Ok(n)
    }

    // `)` and a line feed
    pub(crate) fn line_end(&mut self) -> Result<(), Fault>
        ensures { Reads line_end none self.old self.new result }
    {
        self.take(Want::Sign(Sign::Closing))?;
        self.take(Want::Sign(Sign::LineFeed))
    }

    // `(last # (start #) (goal #))` and a line feed
    pub(crate) fn first_line(&mut self) -> Result<Head, Fault>
        ensures { Reads first_line headed self.old self.new result }
    {
        self.opening(b"last")?;
        let states = self.spaced_number()?;
        let start = self.named_number(b"start")?;
        let goal = self.named_number(b"goal")?;
        self.line_end()?;
        Ok(Head {
            states,
            start,
            goal,
        })
    }

    // `(from u`
    pub(crate) fn from_state(&mut self, u: u32) -> Result<(), Fault>
        ensures { Reads (from u) none self.old self.new result }
    {
        self.opening(b"from")?;
        self.take(Want::Sign(Sign::Space))?;
        self.take(Want::Number(u))
    }

    // ` (`
    pub(crate) fn spaced_opening(&mut self) -> Result<(), Fault>
        ensures { Reads (space ∷ opening ∷ []) none self.old self.new result }
    {
        self.take(Want::Sign(Sign::Space))?;
        self.take(Want::Sign(Sign::Opening))
    }

    // ` (# #)`
    pub(crate) fn cut(&mut self) -> Result<Cut, Fault>
        ensures { Reads a_cut cutting self.old self.new result }
    {
        self.spaced_opening()?;
        let target = self.number()?;
        let cost = self.spaced_number()?;
        self.take(Want::Sign(Sign::Closing))?;
        Ok(Cut { target, cost })
    }

    // ` #)` and a line feed
    pub(crate) fn last_number(&mut self) -> Result<u32, Fault>
        ensures { Reads (spaced_numbers 1) one self.old self.new result }
    {
        let n = self.spaced_number()?;
        self.line_end()?;
        Ok(n)
    }

    // ` # #)` and a line feed
    pub(crate) fn last_two(&mut self) -> Result<(u32, u32), Fault>
        ensures { Reads (spaced_numbers 2) pair self.old self.new result }
    {
        let first = self.spaced_number()?;
        let second = self.last_number()?;
        Ok((first, second))
    }
}
