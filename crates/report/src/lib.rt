// What carve prints for a text: its fault, or a line for each of its orders. It stands on session, planner, reader, text, tableblank, table,
// wish, rank, blank and course.
#![tactic(auto)]

ghost use Rattle.std.specs.Prelude.{◌≡◌, IfOk, string_bytes, [], ◌∷◌, ◌++◌};
ghost use Rattle.text.specs.FaultText.{fault_text};
ghost use Rattle.report.specs.Printed.{Prints};

mod life;
mod lines;
#[cfg(test)]
mod tests;

use crate::life::life_of;
use reader::{ReadError, read};
use std::alloc::{AllocError, Global};
use text::Fault;

// The line of a fault.
fn fault_line(alloc: Global, fault: Fault) -> Result<String, AllocError>
    ensures { IfOk result (λ s. string_bytes s ≡ fault_text fault ++ 10 ∷ []) }
{
    format!(in alloc; "{fault}\n")
}

// What carve prints for a text: its fault, or what its orders are answered. Only memory can fail.
pub fn answer(alloc: Global, text: &[u8]) -> Result<String, AllocError>
    ensures { IfOk result (λ s. Prints text.now (string_bytes s)) }
{
    match read(alloc, text) {
        Ok(document) => life_of(alloc, &document),
        Err(ReadError::AtFault(fault)) => fault_line(alloc, fault),
        Err(ReadError::NoMemory(error)) => Err(error),
    }
}
