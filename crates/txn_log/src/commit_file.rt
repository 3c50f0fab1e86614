//! A log's file as it was read.

ghost use Rattle.std.specs.Prelude.{◌≡◌, ◌<◌, ◌+◌, ◌^◌, ℕ, List, length, take, slice_get, [], false, Some, IsTrue, IfOk, IfSome, IsErrOf, MatchOption};
ghost use Rattle.file_trait.specs.DiskModel.{reads};
ghost use Rattle.disk_logs.specs.Errors.{LogCause};
ghost use Rattle.disk_logs.specs.Logs.{IsRead};
ghost use Rattle.log_items.specs.Items.{wire};
ghost use Rattle.db_model.specs.View.{commit_record};
ghost use Rattle.txn_log.specs.Commits.{IsCommit, IsNoCommit, AreItemsOf};
ghost use Rattle.txn_log.specs.Logs.{latest as latest_name, previous as previous_name, HasFound, HasFoundAt, LacksHead};

use crate::commit_items::decode_commit;
use crate::heads::is_head;
use crate::names::{latest, previous};
use db_model::Commit;
use disk_logs::{LogErr, LogFile};
use file_trait::{Disk, FileName};
use std::alloc::{AllocError, Global};
use std::marker::Model;

/// `LATEST.LOG` or `PREVIOUS.LOG` as it was read. Its first item is a log's; behind that stand the items that are to be commits.
#[derive(Drop)]
pub struct CommitFile {
    file: LogFile,
}

impl Model for CommitFile {
    ghost use Rattle.std.specs.Prelude.{◌<◌, ◌^◌, [], length, take};
    ghost use Rattle.disk_logs.specs.Logs.{FileRead, IsRead};
    ghost use Rattle.txn_log.specs.Commits.{AreItemsOf};

    ghost Value = { FileRead };

    ghost view = { λ f. f.file };

    ghost invariant = { λ f. IsRead f.file × AreItemsOf [] (take 1 f.file.items) × (length f.file.items < 2 ^ 63) };
}

impl CommitFile {
    /// Reads `LATEST.LOG`, none where it is not there. It is `Bad` where it is no file of items, at its first wrong
    /// place, and at 8 where its first item is not a log's. Nothing is done to the disk.
    pub fn read<D: Disk>(alloc: Global, disk: &mut D) -> Result<Option<CommitFile>, LogErr>
        ensures read { IsTrue D.tells → HasFound result (reads (D.past disk.old) latest_name) }
        ensures whole { IfOk result (λ found. IfSome found IsRead) }
        ensures head { IfOk result (λ found. IfSome found (λ file. AreItemsOf [] (take 1 file.items))) }
        ensures bad { (name : List ℕ) (at : ℕ) → IsErrOf result (LogErr.Bad name at) → name ≡ latest_name }
        ensures never { IsErrOf result LogErr.TooLong → ⊥ }
        ensures same { IsTrue D.tells → D.past disk.new ≡ D.past disk.old }
        ensures time { D.moment disk.new ≡ D.moment disk.old }
        ensures cause { LogCause (D.faults disk.old) (D.faults disk.new) (D.blamed disk.new) result }
        ensures named { (name : List ℕ) → IsErrOf result (LogErr.File name) → name ≡ latest_name }
    {
        read_log(alloc, disk, latest())
    }

    /// Reads `PREVIOUS.LOG` in the same way.
    pub fn read_previous<D: Disk>(alloc: Global, disk: &mut D) -> Result<Option<CommitFile>, LogErr>
        ensures read { IsTrue D.tells → HasFoundAt previous_name result (reads (D.past disk.old) previous_name) }
        ensures whole { IfOk result (λ found. IfSome found IsRead) }
        ensures head { IfOk result (λ found. IfSome found (λ file. AreItemsOf [] (take 1 file.items))) }
        ensures bad { (name : List ℕ) (at : ℕ) → IsErrOf result (LogErr.Bad name at) → name ≡ previous_name }
        ensures never { IsErrOf result LogErr.TooLong → ⊥ }
        ensures same { IsTrue D.tells → D.past disk.new ≡ D.past disk.old }
        ensures time { D.moment disk.new ≡ D.moment disk.old }
        ensures cause { LogCause (D.faults disk.old) (D.faults disk.new) (D.blamed disk.new) result }
        ensures named { (name : List ℕ) → IsErrOf result (LogErr.File name) → name ≡ previous_name }
    {
        read_log(alloc, disk, previous())
    }

    /// How many items stand behind the first.
    pub fn len(&self) -> usize
        ensures len { result + 1 ≡ length self.now.items }
        ensures few { length self.now.items < 2 ^ 63 }
        ensures whole { IsRead self.now }
        ensures head { AreItemsOf [] (take 1 self.now.items) }
    {
        self.file.len() - 1
    }

    /// The commit that is item `number` behind the first, counted from 0, or none where that item is no commit.
    pub fn commit(&self, alloc: Global, number: usize) -> Result<Option<Commit>, AllocError>
        requires { number + 1 < length self.now.items }
        ensures { IfOk result (λ found. (content : List ℕ) × (slice_get self.now.items (number + 1) ≡ Some content)
            × MatchOption found (IsNoCommit content) (λ commit. IsCommit content (commit_record commit))) }
    {
        decode_commit(alloc, self.file.content(number + 1))
    }

    /// The place of the first byte of item `number` behind the first.
    pub fn place(&self, number: usize) -> u64
        requires { number + 1 < length self.now.items }
        ensures { result ≡ 8 + length (wire (take (number + 1) self.now.items)) }
    {
        self.file.place(number + 1)
    }

    // The file itself.
    pub(crate) fn file(&self) -> &LogFile
        ensures same { result.now ≡ self.now }
        ensures whole { IsRead result.now }
    {
        &self.file
    }
}

// Reads the log of this name, none where it is not there.
fn read_log<D: Disk>(
    alloc: Global,
    disk: &mut D,
    name: FileName,
) -> Result<Option<CommitFile>, LogErr>
    ensures read { IsTrue D.tells → HasFoundAt name result (reads (D.past disk.old) name) }
    ensures whole { IfOk result (λ found. IfSome found IsRead) }
    ensures head { IfOk result (λ found. IfSome found (λ file. AreItemsOf [] (take 1 file.items))) }
    ensures bad { (other : List ℕ) (at : ℕ) → IsErrOf result (LogErr.Bad other at) → other ≡ name }
    ensures never { IsErrOf result LogErr.TooLong → ⊥ }
    ensures same { IsTrue D.tells → D.past disk.new ≡ D.past disk.old }
    ensures time { D.moment disk.new ≡ D.moment disk.old }
    ensures cause { LogCause (D.faults disk.old) (D.faults disk.new) (D.blamed disk.new) result }
    ensures named { (other : List ℕ) → IsErrOf result (LogErr.File other) → other ≡ name }
{
    let file = match LogFile::read(alloc, disk, name) {
        Ok(Some(file)) => file,
        Ok(None) => return Ok(None),
        Err(error) => return Err(error),
    };
    if has_head(alloc, &file)? {
        Ok(Some(CommitFile { file }))
    } else {
        Err(LogErr::Bad(name, 8))
    }
}

// Whether the first item is a log's.
fn has_head(alloc: Global, file: &LogFile) -> Result<bool, AllocError>
    ensures few { length file.now.items < 2 ^ 63 }
    ensures head { IfOk result (λ has. (IsTrue has → AreItemsOf [] (take 1 file.now.items))
        × (has ≡ false → LacksHead file.now.items)) }
{
    if file.len() == 0 {
        return Ok(false);
    }
    is_head(alloc, file.content(0))
}
