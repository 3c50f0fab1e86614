//! A log's file as it was read.

ghost use Rattle.std.specs.Prelude.{◌≡◌, ◌+◌, ◌<◌, ◌≤◌, ◌^◌, ℕ, List, length, take, slice_get, Some, IsTrue, IfOk, IfSome, IsErrOf};
ghost use Rattle.file_trait.specs.DiskModel.{reads};
ghost use Rattle.disk_logs.specs.Errors.{LogCause};
ghost use Rattle.disk_logs.specs.Logs.{IsRead, HasRead};
ghost use Rattle.log_items.specs.Items.{wire};

use crate::LogErr;
use crate::reading::{read_file, scanned};
use file_trait::{Disk, FileName};
use log_items::Scan;
use std::alloc::Global;
use std::marker::Model;

/// A file of items as it was read: its bytes, and where its whole items stand in them.
#[derive(Drop)]
pub struct LogFile {
    bytes: Vec<u8>,
    scan: Scan,
}

impl Model for LogFile {
    ghost use Rattle.std.specs.Prelude.{map};
    ghost use Rattle.log_items.specs.Scan.{IsScan, content_at};
    ghost use Rattle.disk_logs.specs.Logs.{FileRead};

    ghost Value = { FileRead };

    ghost view = { λ f. record { bytes = f.bytes.items; was_open = f.scan.was_open; items = map (content_at f.bytes.items) f.scan.items.items } };

    ghost invariant = { λ f. IsScan f.bytes.items f.scan };
}

impl LogFile {
    /// Reads the file of this name, none where it is not there. Bytes that are no file of items are refused as `Bad` at their first
    /// wrong place, and where that is in the head the rest is not read. Nothing is done to the disk.
    pub fn read<D: Disk>(
        alloc: Global,
        disk: &mut D,
        name: FileName,
    ) -> Result<Option<LogFile>, LogErr>
        ensures read { IsTrue D.tells → HasRead result (reads (D.past disk.old) name) }
        ensures whole { IfOk result (λ found. IfSome found IsRead) }
        ensures bad { (other : List ℕ) (at : ℕ) → IsErrOf result (LogErr.Bad other at) → other ≡ name }
        ensures never { IsErrOf result LogErr.TooLong → ⊥ }
        ensures same { IsTrue D.tells → D.past disk.new ≡ D.past disk.old }
        ensures time { D.moment disk.new ≡ D.moment disk.old }
        ensures cause { LogCause (D.faults disk.old) (D.faults disk.new) (D.blamed disk.new) result }
        ensures named { (other : List ℕ) → IsErrOf result (LogErr.File other) → other ≡ name }
    {
        let Some(bytes) = read_file(alloc, disk, name)? else {
            return Ok(None);
        };
        let scan = scanned(alloc, name, &bytes)?;
        Ok(Some(LogFile { bytes, scan }))
    }

    /// Whether its mark says open.
    pub fn was_open(&self) -> bool
        ensures value { result ≡ self.now.was_open }
        ensures whole { IsRead self.now }
    {
        self.scan.was_open
    }

    /// How many whole items it has.
    pub fn len(&self) -> usize
        ensures len { result ≡ length self.now.items }
        ensures few { length self.now.items < 2 ^ 63 }
    {
        self.scan.items.len()
    }

    /// The content of the item with this number, counted from 0.
    pub fn content(&self, number: usize) -> &[u8]
        requires { number < length self.now.items }
        ensures { slice_get self.now.items number ≡ Some result.now }
    {
        let span = self.scan.items[number];
        &self.bytes[span.start..span.start + span.len]
    }

    /// The place of the first byte of the item with this number.
    pub fn place(&self, number: usize) -> u64
        requires { number < length self.now.items }
        ensures { result ≡ 8 + length (wire (take number self.now.items)) }
    {
        self.scan.items[number].at as u64
    }

    /// The bytes of the whole items, one behind the other.
    pub(crate) fn items(&self) -> &[u8]
        ensures items { result.now ≡ wire self.now.items }
        ensures whole { IsRead self.now }
    {
        &self.bytes[8..self.scan.whole]
    }
}
