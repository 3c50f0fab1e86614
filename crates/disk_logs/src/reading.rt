//! Reads of files, a piece at a time.

ghost use Rattle.std.specs.Prelude.{◌≡◌, ◌+◌, ◌<◌, ◌≤◌, ◌++◌, ℕ, List, [], false, length, take, vec_len, Some, IsTrue, IfOk, OnOk, IsErrOf, option_map};
ghost use Rattle.file_trait.specs.DiskModel.{reads};
ghost use Rattle.file_trait.specs.Calls.{Has};
ghost use Rattle.disk_logs.specs.Errors.{OnlyFileOrMemory, LogCause};
ghost use Rattle.log_items.specs.Items.{StartsWith};
ghost use Rattle.log_items.specs.Scan.{IsScan, IsBadAt};

use crate::LogErr;
use crate::error::told;
use file_trait::{Disk, FileName};
use log_items::{ItemErr, Scan, scan};
use std::alloc::Global;

// The most bytes that are read by one call.
const PIECE: u64 = 65536;

/// The bytes of a file, none where it is not there. Where its head is wrong it is `Bad`, and no more is read.
pub(crate) fn read_file<D: Disk>(
    alloc: Global,
    disk: &mut D,
    name: FileName,
) -> Result<Option<Vec<u8>>, LogErr>
    ensures bytes { IsTrue D.tells → IfOk result (λ file. option_map (λ bytes. bytes.items) file ≡ reads (D.past disk.old) name) }
    ensures bad { (other : List ℕ) (at : ℕ) → IsErrOf result (LogErr.Bad other at) → other ≡ name }
    ensures wrong { (other : List ℕ) (at : ℕ) → IsTrue D.tells → IsErrOf result (LogErr.Bad other at) → Has (D.past disk.old) name (λ file. IsBadAt file at) }
    ensures never { IsErrOf result LogErr.TooLong → ⊥ }
    ensures same { IsTrue D.tells → D.past disk.new ≡ D.past disk.old }
    ensures time { D.moment disk.new ≡ D.moment disk.old }
    ensures cause { LogCause (D.faults disk.old) (D.faults disk.new) (D.blamed disk.new) result }
    ensures named { (other : List ℕ) → IsErrOf result (LogErr.File other) → other ≡ name }
{
    let Some(len) = told(name, disk.len(name))? else {
        return Ok(None);
    };
    let mut bytes = Vec::new(alloc);
    read_to(alloc, disk, name, len, len.min(8), &mut bytes)?;
    let head = bytes.len().min(8);
    scanned(alloc, name, &bytes[..head])?;
    read_to(alloc, disk, name, len, len, &mut bytes)?;
    Ok(Some(bytes))
}

/// Finds the items of the file of this name in its bytes.
pub(crate) fn scanned(alloc: Global, name: FileName, bytes: &[u8]) -> Result<Scan, LogErr>
    ensures found { IfOk result (IsScan bytes.now) }
    ensures bad { (other : List ℕ) (at : ℕ) → IsErrOf result (LogErr.Bad other at) → (other ≡ name) × IsBadAt bytes.now at }
    ensures never { IsErrOf result LogErr.TooLong → ⊥ }
    ensures unfailed { (other : List ℕ) → IsErrOf result (LogErr.File other) → ⊥ }
{
    match scan(alloc, bytes) {
        Ok(scan) => Ok(scan),
        Err(ItemErr::Bad(at)) => Err(LogErr::Bad(name, at as u64)),
        Err(ItemErr::Memory) => Err(LogErr::Memory),
        Err(ItemErr::TooLong) => unreachable!(),
    }
}

// Reads on behind `bytes`, with which the file of `len` bytes begins, until these are at least so many.
fn read_to<D: Disk>(
    alloc: Global,
    disk: &mut D,
    name: FileName,
    len: u64,
    least: u64,
    bytes: &mut Vec<u8>,
) -> Result<(), LogErr>
    requires within { vec_len bytes.old ≤ len }
    requires least { least ≤ len }
    requires there { IsTrue D.tells → Has (D.past disk.old) name (λ file. len ≡ length file) }
    ensures within { vec_len bytes.new ≤ len }
    ensures few { vec_len bytes.old < least → vec_len bytes.new < least + 65536 }
    ensures part { (file : List ℕ) → IsTrue D.tells → reads (D.past disk.old) name ≡ Some file → StartsWith bytes.old.items file → StartsWith bytes.new.items file }
    ensures all { IsTrue D.tells → OnOk result (least ≤ vec_len bytes.new) }
    ensures same { IsTrue D.tells → D.past disk.new ≡ D.past disk.old }
    ensures only { OnlyFileOrMemory result }
    ensures time { D.moment disk.new ≡ D.moment disk.old }
    ensures cause { LogCause (D.faults disk.old) (D.faults disk.new) (D.blamed disk.new) result }
    ensures named { (other : List ℕ) → IsErrOf result (LogErr.File other) → other ≡ name }
{
    'pieces: while (bytes.len() as u64) < least {
        if !read_piece(alloc, disk, name, len, bytes)? {
            break;
        }
    }
    Ok(())
}

// Puts the next piece of a file of `len` bytes behind `bytes`, with which it begins. Answers whether any came, and none come only
// at the end.
fn read_piece<D: Disk>(
    alloc: Global,
    disk: &mut D,
    name: FileName,
    len: u64,
    bytes: &mut Vec<u8>,
) -> Result<bool, LogErr>
    requires within { vec_len bytes.old ≤ len }
    requires there { IsTrue D.tells → Has (D.past disk.old) name (λ file. len ≡ length file) }
    ensures within { vec_len bytes.new ≤ len }
    ensures small { vec_len bytes.new ≤ vec_len bytes.old + 65536 }
    ensures more { IfOk result (λ more. IsTrue more → vec_len bytes.old < vec_len bytes.new) }
    ensures none { IsTrue D.tells → IfOk result (λ more. more ≡ false → vec_len bytes.new ≡ len) }
    ensures part { (file : List ℕ) → IsTrue D.tells → reads (D.past disk.old) name ≡ Some file → StartsWith bytes.old.items file → StartsWith bytes.new.items file }
    ensures same { IsTrue D.tells → D.past disk.new ≡ D.past disk.old }
    ensures only { OnlyFileOrMemory result }
    ensures time { D.moment disk.new ≡ D.moment disk.old }
    ensures cause { LogCause (D.faults disk.old) (D.faults disk.new) (D.blamed disk.new) result }
    ensures named { (other : List ℕ) → IsErrOf result (LogErr.File other) → other ≡ name }
{
    let at = bytes.len() as u64;
    let size = (len - at).min(PIECE) as usize;
    let mut piece = vec![in alloc; 0; size]?;
    let count = told(name, disk.read(name, at, &mut piece))?;
    bytes.extend_from_slice(&piece[..count])?;
    Ok(count > 0)
}
