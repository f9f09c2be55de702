// The marks of a text, one after another.
ghost use Rattle.std.specs.Prelude.{◌≡◌, take_while};
ghost use Rattle.std.specs.Str.Parse.{digits_value};
ghost use Rattle.text.specs.Marks.{badly_written};
ghost use Rattle.reader.specs.Readings.{rest};
ghost use Rattle.reader.specs.Meaning.{IsSignOf, of_kind, Taken, Figures, Fronts, behind};

use crate::kinds::kind_of;
use course::Refusal;
use text::{Fault, Kind, Layer};

// A byte that is a mark by itself.
#[derive(Clone, Copy, PartialEq, Eq, Debug)]
pub enum Sign {
    Opening,
    Closing,
    Space,
    LineFeed,
}

// A byte that stands for itself is a sign; any other is given back.
impl TryFrom<u8> for Sign {
    type Error = u8;

    ghost try_from_gives = { IsSignOf };

    fn try_from(byte: u8) -> Result<Sign, u8> {
        match byte {
            b'(' => Ok(Sign::Opening),
            b')' => Ok(Sign::Closing),
            b' ' => Ok(Sign::Space),
            b'\n' => Ok(Sign::LineFeed),
            _ => Err(byte),
        }
    }
}

// What a mark is: a sign, a word or a number with its bytes, or the end of the text.
#[derive(Clone, Copy, PartialEq, Eq, Debug)]
pub enum Token<'a> {
    Sign(Sign),
    Word(&'a [u8]),
    Number(&'a [u8]),
    End,
}

// A part of the text: what it is, the place of its first byte, and the place behind its last.
#[derive(Clone, Copy, PartialEq, Eq, Debug)]
pub struct Mark<'a> {
    pub token: Token<'a>,
    pub place: usize,
    pub end: usize,
}

// A text, held without copying it, and how far it has been read.
#[derive(Drop)]
pub struct Reader<'a> {
    pub(crate) text: &'a [u8],
    pub(crate) at: usize,
}

const MOST_DIGITS: usize = 7;

// The longest front of some bytes that is of one kind.
fn run(bytes: &[u8], kind: Kind) -> &[u8]
    ensures { result.now ≡ take_while (of_kind kind) bytes.now }
{
    let length = bytes.iter().take_while(|b| kind_of(**b) == kind).count();
    &bytes[..length]
}

// More than seven digits, or a leading 0 and something after it.
fn badly_written(digits: &[u8]) -> bool
    ensures { result ≡ badly_written digits.now }
{
    digits.len() > MOST_DIGITS || matches!(digits, [b'0', _, ..])
}

// The number that at most seven digits write. (A loop and no fold: that no sum is too large is shown on the way.)
pub(crate) fn value_of(digits: &[u8]) -> u32
    requires { Figures digits.now }
    ensures { result ≡ digits_value 10 digits.now }
{
    let mut n: u32 = 0;
    for b in digits {
        n = n * 10 + u32::from(*b - b'0');
    }
    n
}

// What stands in front of some bytes, and how many of them it takes; or why it is no mark.
fn front(bytes: &[u8]) -> Result<(Token<'_>, usize), Refusal>
    ensures { Fronts bytes.now result }
{
    let Some(b) = bytes.first() else {
        return Ok((Token::End, 0));
    };
    match kind_of(*b) {
        // a single byte is a sign, as is proved
        Kind::Single => Ok((Token::Sign(Sign::try_from(*b).unwrap()), 1)),
        Kind::Letter => {
            let word = run(bytes, Kind::Letter);
            Ok((Token::Word(word), word.len()))
        }
        Kind::Digit => {
            let digits = run(bytes, Kind::Digit);
            if badly_written(digits) {
                return Err(Refusal::NumberBadlyWritten);
            }
            Ok((Token::Number(digits), digits.len()))
        }
        Kind::Outside => Err(Refusal::ByteOutside),
    }
}

impl<'a> Reader<'a> {
    // A reader at the beginning of a text.
    pub fn new(text: &'a [u8]) -> Self
        ensures { (result.text.now ≡ text.now) × (result.at ≡ 0) }
    {
        Reader { text, at: 0 }
    }

    // What is left of the text.
    fn rest(&self) -> &'a [u8]
        ensures { result.now ≡ rest self.now }
    {
        self.text.get(self.at..).unwrap_or(&[])
    }

    // The mark in hand.
    pub(crate) fn peek(&self) -> Result<Mark<'a>, Fault>
        ensures { Taken self.now.text.now self.now.at result }
    {
        let place = self.at;
        let (token, width) = front(self.rest()).map_err(|cause| Fault::new(
            Layer::Marks,
            cause,
            place,
        ))?;
        Ok(Mark {
            token,
            place,
            end: place + width,
        })
    }

    // The next mark, and the reader moves behind it. Where there is none the reader stays.
    pub fn next_mark(&mut self) -> Result<Mark<'a>, Fault>
        ensures mark { Taken self.old.text.now self.old.at result }
        ensures moved { self.new ≡ behind self.old result }
    {
        let mark = self.peek()?;
        self.at = mark.end;
        Ok(mark)
    }
}
