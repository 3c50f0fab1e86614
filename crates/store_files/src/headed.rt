//! A file whose first item says a number.

ghost use Rattle.std.specs.Prelude.{◌≡◌, ◌<◌, ◌^◌, ℕ, List, length, IsTrue, IfOk, IfSome, IsErrOf, MatchOption};
ghost use Rattle.file_trait.specs.DiskModel.{reads};
ghost use Rattle.disk_logs.specs.Errors.{LogCause};
ghost use Rattle.store_files.specs.Forms.{BeginWith, LackHead};
ghost use Rattle.store_files.specs.Inside.Found.{IsHeaded, HasFound, HasOwn};

use crate::heads::head_number;
use disk_logs::{LogErr, LogFile};
use file_trait::{Disk, FileName};
use std::alloc::{AllocError, Global};

/// A file as it was read, and the number that its first item says.
#[derive(Drop)]
pub(crate) struct Headed {
    pub file: LogFile,
    pub number: u64,
}

impl Headed {
    /// Reads the file of this name, none where it is not there. It is `Bad` where it is no file of items, at its first
    /// wrong place, and at 8 where its first item is none of this word. Nothing is done to the disk.
    pub fn read<D: Disk>(
        alloc: Global,
        disk: &mut D,
        name: FileName,
        word: &str,
    ) -> Result<Option<Headed>, LogErr>
        ensures read { IsTrue D.tells → HasFound word.now name result (reads (D.past disk.old) name) }
        ensures whole { IfOk result (λ found. IfSome found (λ headed. IsHeaded word.now headed.number headed.file)) }
        ensures bad { (other : List ℕ) (at : ℕ) → IsErrOf result (LogErr.Bad other at) → other ≡ name }
        ensures never { IsErrOf result LogErr.TooLong → ⊥ }
        ensures same { IsTrue D.tells → D.past disk.new ≡ D.past disk.old }
        ensures time { D.moment disk.new ≡ D.moment disk.old }
        ensures cause { LogCause (D.faults disk.old) (D.faults disk.new) (D.blamed disk.new) result }
        ensures named { (other : List ℕ) → IsErrOf result (LogErr.File other) → other ≡ name }
    {
        let file = match LogFile::read(alloc, disk, name) {
            Ok(Some(file)) => file,
            Ok(None) => return Ok(None),
            Err(error) => return Err(error),
        };
        match first_number(alloc, &file, word)? {
            Some(number) => Ok(Some(Headed { file, number })),
            None => Err(LogErr::Bad(name, 8)),
        }
    }
}

// The number that the first item says.
fn first_number(alloc: Global, file: &LogFile, word: &str) -> Result<Option<u64>, AllocError>
    ensures few { length file.now.items < 2 ^ 63 }
    ensures number { IfOk result (λ found. MatchOption found (LackHead word.now file.now.items)
        (λ number. BeginWith word.now number file.now.items)) }
{
    if file.len() == 0 {
        return Ok(None);
    }
    head_number(alloc, file.content(0), word)
}

/// Reads the file of this name whose first item says this number. One that says another number counts as absent.
pub(crate) fn own_file<D: Disk>(
    alloc: Global,
    disk: &mut D,
    name: FileName,
    word: &str,
    number: u64,
) -> Result<Option<LogFile>, LogErr>
    ensures read { IsTrue D.tells → HasOwn word.now name number result (reads (D.past disk.old) name) }
    ensures whole { IfOk result (λ found. IfSome found (IsHeaded word.now number)) }
    ensures bad { (other : List ℕ) (at : ℕ) → IsErrOf result (LogErr.Bad other at) → other ≡ name }
    ensures never { IsErrOf result LogErr.TooLong → ⊥ }
    ensures same { IsTrue D.tells → D.past disk.new ≡ D.past disk.old }
    ensures time { D.moment disk.new ≡ D.moment disk.old }
    ensures cause { LogCause (D.faults disk.old) (D.faults disk.new) (D.blamed disk.new) result }
    ensures named { (other : List ℕ) → IsErrOf result (LogErr.File other) → other ≡ name }
{
    let Headed { file, number: own } = match Headed::read(alloc, disk, name, word) {
        Ok(Some(found)) => found,
        Ok(None) => return Ok(None),
        Err(error) => return Err(error),
    };
    if own == number {
        Ok(Some(file))
    } else {
        Ok(None)
    }
}
