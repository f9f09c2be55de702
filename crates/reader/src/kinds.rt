// The kind of each byte.
ghost use Rattle.std.specs.Prelude.{◌≡◌};
ghost use Rattle.text.specs.Marks.{kind};

use text::Kind;

const S: Kind = Kind::Single;

const L: Kind = Kind::Letter;

const D: Kind = Kind::Digit;

const O: Kind = Kind::Outside;

// The byte's own number is its place in the table, thirty-two to a line. A constant table by that number, so that its agreement with the
// rules is computed once, in the proof.
const KINDS: [Kind; 256] = [
    O, O, O, O, O, O, O, O, O, O, S, O, O, O, O, O, O, O, O, O, O, O, O, O, O, O, O, O, O, O, O, O,
    S, O, O, O, O, O, O, O, S, S, O, O, O, O, O, O, D, D, D, D, D, D, D, D, D, D, O, O, O, O, O, O,
    O, O, O, O, O, O, O, O, O, O, O, O, O, O, O, O, O, O, O, O, O, O, O, O, O, O, O, O, O, O, O, O,
    O, L, L, L, L, L, L, L, L, L, L, L, L, L, L, L, L, L, L, L, L, L, L, L, L, L, L, O, O, O, O, O,
    O, O, O, O, O, O, O, O, O, O, O, O, O, O, O, O, O, O, O, O, O, O, O, O, O, O, O, O, O, O, O, O,
    O, O, O, O, O, O, O, O, O, O, O, O, O, O, O, O, O, O, O, O, O, O, O, O, O, O, O, O, O, O, O, O,
    O, O, O, O, O, O, O, O, O, O, O, O, O, O, O, O, O, O, O, O, O, O, O, O, O, O, O, O, O, O, O, O,
    O, O, O, O, O, O, O, O, O, O, O, O, O, O, O, O, O, O, O, O, O, O, O, O, O, O, O, O, O, O, O, O,
];

// The kind of a byte. No From, though every byte has a kind: both types are of other crates.
pub(crate) fn kind_of(b: u8) -> Kind
    ensures { result ≡ kind b }
{
    KINDS[usize::from(b)]
}
