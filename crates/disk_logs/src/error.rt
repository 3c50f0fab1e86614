//! Why a call on a log did not do its work.

ghost use Rattle.std.specs.Prelude.{◌≡◌, ◌↔◌, ℕ, IsTrue, IsErrOf, is_ok};
ghost use Rattle.disk_logs.specs.Errors.{told as with_name};
ghost use Rattle.disk_logs.specs.declared.error.LogErr.TheVariants.{Memory};

use file_trait::{DiskErr, FileName};
use log_items::ItemErr;
use std::alloc::AllocError;
use std::fmt;

/// Why a call on a log did not do its work.
#[derive(Clone, Copy)]
pub enum LogErr {
    /// The disk failed at this file, and its count of faults rose.
    File(FileName),
    /// The file is no log. The place is that of the first byte of what is wrong.
    Bad(FileName, u64),
    /// An item has more than 2^28 bytes.
    TooLong,
    /// Memory was wanting.
    Memory,
}

impl fmt::Debug for LogErr {
    fn fmt<W: fmt::Write>(&self, f: &mut fmt::Formatter<W>) -> fmt::Result {
        match self {
            LogErr::File(name) => write!(f, "File({:?})", name.bytes()),
            LogErr::Bad(name, at) => write!(f, "Bad({:?}, {at})", name.bytes()),
            LogErr::TooLong => write!(f, "TooLong"),
            LogErr::Memory => write!(f, "Memory"),
        }
    }
}

impl From<AllocError> for LogErr {
    ghost from_gives = { λ _ e. e ≡ Memory };

    fn from(_: AllocError) -> LogErr {
        LogErr::Memory
    }
}

/// A disk's answer at a file, with a log's errors.
pub(crate) fn told<T>(name: FileName, answer: Result<T, DiskErr>) -> Result<T, LogErr>
    ensures { result ≡ with_name name answer }
{
    match answer {
        Ok(value) => Ok(value),
        Err(DiskErr::Failed) => Err(LogErr::File(name)),
        Err(DiskErr::Memory) => Err(LogErr::Memory),
    }
}

/// The answer of a call that writes a head or an item, with a log's errors.
pub(crate) fn wrote(answer: Result<(), ItemErr>) -> Result<(), LogErr>
    requires { (at : ℕ) → IsErrOf answer (ItemErr.Bad at) → ⊥ }
    ensures ok { IsTrue (is_ok result) ↔ IsTrue (is_ok answer) }
    ensures long { IsErrOf result LogErr.TooLong ↔ IsErrOf answer ItemErr.TooLong }
    ensures memory { IsErrOf result LogErr.Memory ↔ IsErrOf answer ItemErr.Memory }
{
    match answer {
        Ok(()) => Ok(()),
        Err(ItemErr::TooLong) => Err(LogErr::TooLong),
        Err(ItemErr::Memory) => Err(LogErr::Memory),
        Err(ItemErr::Bad(_)) => unreachable!(),
    }
}
