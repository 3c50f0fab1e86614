//! Why a call of a transaction is refused.

ghost use Rattle.std.specs.Prelude.{◌≡◌};
ghost use Rattle.txn_core.specs.declared.error.TxnErr.TheVariants.{Memory};

use std::alloc::{AllocError, AllocFailed};
use term_core::{Atom, TermErr};

/// Why a call of a transaction is refused.
#[derive(Drop)]
pub enum TxnErr {
    /// No transaction of that name is pending.
    NoTxn,
    /// One of that name is.
    TxnExists,
    /// 64 are pending.
    TooMany,
    /// No table of that name stands.
    NoTable,
    /// The table can have no such record or key.
    BadRecord,
    /// The transaction has 100,000 calls.
    TooManyCalls,
    /// Another transaction, which is named, holds a conflicting lock.
    Locked(Atom),
    /// Memory ran out.
    Memory,
}

impl From<AllocError> for TxnErr {
    ghost from_gives = { λ _ e. e ≡ Memory };

    fn from(_error: AllocError) -> TxnErr {
        TxnErr::Memory
    }
}

impl<T: Drop> From<AllocFailed<T>> for TxnErr {
    ghost from_gives = { λ _ e. e ≡ Memory };

    fn from(_failed: AllocFailed<T>) -> TxnErr {
        TxnErr::Memory
    }
}

impl From<TermErr> for TxnErr {
    ghost from_gives = { λ _ e. e ≡ Memory };

    fn from(_error: TermErr) -> TxnErr {
        TxnErr::Memory
    }
}
