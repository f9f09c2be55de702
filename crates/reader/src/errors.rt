// Why a text was not read.
ghost use Rattle.std.specs.Prelude.{◌≡◌, alloc_error};
ghost use Rattle.reader.specs.declared.errors.ReadError.TheVariants.{AtFault, NoMemory};

use std::alloc::{AllocError, AllocFailed};
use text::Fault;

// A text is at fault, or memory failed. Want of memory is no refusal and has no number.
#[derive(Clone, Copy, PartialEq, Eq, Debug)]
pub enum ReadError {
    AtFault(Fault),
    NoMemory(AllocError),
}

impl From<Fault> for ReadError {
    ghost from_gives = { λ f e. e ≡ AtFault f };

    fn from(fault: Fault) -> ReadError {
        ReadError::AtFault(fault)
    }
}

impl From<AllocError> for ReadError {
    ghost from_gives = { λ a e. e ≡ NoMemory a };

    fn from(error: AllocError) -> ReadError {
        ReadError::NoMemory(error)
    }
}

impl<T: Drop> From<AllocFailed<T>> for ReadError {
    ghost from_gives = { λ _ e. e ≡ NoMemory alloc_error };

    fn from(failed: AllocFailed<T>) -> ReadError {
        ReadError::NoMemory(failed.into())
    }
}
