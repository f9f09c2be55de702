ghost use Rattle.std.specs.Prelude.{◌≡◌};
ghost use Rattle.table.specs.Checks.{told};

use course::Refusal;

// What is wrong with a table, and at which entry or state: 0 where the whole is meant.
#[derive(Clone, Copy, PartialEq, Eq, Debug)]
pub struct Flaw {
    pub cause: Refusal,
    pub place: usize,
}

// Nothing where a cause has no bad place, and else the flaw there.
pub(crate) fn absent(cause: Refusal, place: Option<usize>) -> Result<(), Flaw>
    ensures { result ≡ told cause place }
{
    match place {
        Some(place) => Err(Flaw { cause, place }),
        None => Ok(()),
    }
}
