// The number of an answer to the question whether a state may be marked.
ghost use Rattle.std.specs.Prelude.{◌≡◌};
ghost use Rattle.layers.specs.Marking.{mark_number};

use course::Refusal;

// The number by which an answer of `may_mark` is told: 0 for yes, and else that of the refusal.
pub fn mark_number(answer: Result<(), Refusal>) -> u32
    ensures { result ≡ mark_number answer }
{
    match answer {
        Ok(()) => 0,
        Err(refusal) => refusal.number(),
    }
}
