//! Why a table could not be defined.

ghost use Rattle.std.specs.Prelude.{◌≡◌};
ghost use Rattle.db_model.specs.declared.error.DefErr.TheVariants.{Memory};

use std::alloc::{AllocError, AllocFailed};

/// Why a table could not be defined.
#[derive(Clone, Copy, Debug, PartialEq, Eq)]
pub enum DefErr {
    /// No table can be called so.
    BadName,
    /// The place of the first option that is ill, from 1, or 0 where there is no list of options.
    BadOption(u64),
    /// Memory ran out.
    Memory,
}

impl From<AllocError> for DefErr {
    ghost from_gives = { λ _ e. e ≡ Memory };

    fn from(_error: AllocError) -> DefErr {
        DefErr::Memory
    }
}

impl<T: Drop> From<AllocFailed<T>> for DefErr {
    ghost from_gives = { λ _ e. e ≡ Memory };

    fn from(_failed: AllocFailed<T>) -> DefErr {
        DefErr::Memory
    }
}
