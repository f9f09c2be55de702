// The text that carve reads, as rules: which text writes a document, what the reader makes of every row of bytes, and what holds of its
// verdicts. The reader's code meets these rules in a crate of its own. It stands on course and table.
#![tactic(auto)]

ghost use Rattle.std.specs.Prelude.{◌≡◌, Some};
ghost use Rattle.text.specs.declared.Layer.TheVariants.{Table};
ghost use Rattle.text.specs.Layers.{layer_number};
ghost use Rattle.text.specs.FaultText.{fault_text};

use course::Refusal;
use std::fmt;
use table::Flaw;

// What a byte of a text is: a bracket, a space or a line feed, which stands for itself; a letter; a digit; or outside the set.
#[derive(Clone, Copy, PartialEq, Eq, Debug)]
pub enum Kind {
    Single,
    Letter,
    Digit,
    Outside,
}

// An order of a text: `(ratio 3 2)`, `(work 70000)`, `(ceiling 9)`, `(show)`, `(route)`.
#[derive(Clone, Copy, PartialEq, Eq, Debug)]
pub enum Order {
    Ratio(u32, u32),
    Work(u32),
    Ceiling(u32),
    Show,
    Route,
}

// The layer that finds a fault, by its number: the marks of the text, its forms, or the table that it holds.
#[derive(Clone, Copy, PartialEq, Eq, Debug)]
pub enum Layer {
    Marks = 1,
    Forms = 2,
    Table = 3,
}

impl Layer {
    // The number by which a layer is told.
    pub fn number(self) -> u32
        ensures { result ≡ layer_number self }
    {
        self as u32
    }
}

// Why a text is refused, and where. The place is a byte's offset; in the table's layer it is the entry or the state at fault.
#[derive(Clone, Copy, PartialEq, Eq, Debug)]
pub struct Fault {
    pub layer: Layer,
    pub cause: Refusal,
    pub place: usize,
}

impl Fault {
    // The fault that a layer finds at a place.
    pub fn new(layer: Layer, cause: Refusal, place: usize) -> Self
        ensures { result ≡ record { layer = layer; cause = cause; place = place } }
    {
        Fault {
            layer,
            cause,
            place,
        }
    }
}

// A flaw of a table is a fault of the table's layer.
impl From<Flaw> for Fault {
    ghost from_gives = { λ w f. f ≡ record { layer = Table; cause = w.cause; place = w.place } };

    fn from(flaw: Flaw) -> Fault {
        Fault::new(Layer::Table, flaw.cause, flaw.place)
    }
}

// A fault prints as `fault`, then the numbers of its layer and its cause, and its place.
impl fmt::Display for Fault {
    ghost output = { λ f. Some (fault_text f) };

    fn fmt<W: fmt::Write>(&self, f: &mut fmt::Formatter<W>) -> fmt::Result {
        let layer = self.layer.number();
        let cause = self.cause.number();
        let place = self.place;
        write!(f, "fault {layer} {cause} {place}")
    }
}
