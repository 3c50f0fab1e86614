//! What stops a reader.

ghost use Rattle.std.specs.Prelude.{◌≡◌};
ghost use Rattle.term_text.specs.declared.fault.ReadErr.TheVariants.{Memory};

use std::alloc::{AllocError, AllocFailed};

/// What is wrong with the bytes. Each fault counts the bytes that are left from its place on, since a
/// reader sees no others.
#[derive(Clone, Copy, Debug, PartialEq, Eq)]
pub enum Fault {
    /// No text goes on so.
    Bad(usize),
    /// A number of more than 128 bits.
    WideInt(usize),
    /// A term or a character on a level too many.
    TooDeep(usize),
}

/// Why a reader stopped.
#[derive(Clone, Copy, Debug, PartialEq, Eq)]
pub enum ReadErr {
    Fault(Fault),
    Memory,
}

impl From<AllocError> for ReadErr {
    ghost from_gives = { λ _ e. e ≡ Memory };

    fn from(_error: AllocError) -> ReadErr {
        ReadErr::Memory
    }
}

impl<T: Drop> From<AllocFailed<T>> for ReadErr {
    ghost from_gives = { λ _ e. e ≡ Memory };

    fn from(_failed: AllocFailed<T>) -> ReadErr {
        ReadErr::Memory
    }
}
