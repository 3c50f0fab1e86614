//! Why a term could not be made.

ghost use Rattle.std.specs.Prelude.{◌≡◌};
ghost use Rattle.term_core.specs.declared.error.TermErr.TheVariants.{Memory};

use std::alloc::{AllocError, AllocFailed};

/// Why a term could not be made.
#[derive(Clone, Copy, Debug, PartialEq, Eq)]
pub enum TermErr {
    /// An atom of more than 255 characters.
    AtomTooLong,
    /// Memory ran out.
    Memory,
}

impl From<AllocError> for TermErr {
    ghost from_gives = { λ _ e. e ≡ Memory };

    fn from(_error: AllocError) -> TermErr {
        TermErr::Memory
    }
}

impl<T: Drop> From<AllocFailed<T>> for TermErr {
    ghost from_gives = { λ _ e. e ≡ Memory };

    fn from(_failed: AllocFailed<T>) -> TermErr {
        TermErr::Memory
    }
}
