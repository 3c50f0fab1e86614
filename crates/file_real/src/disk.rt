//! The disk of the operating system.

ghost use Rattle.std.specs.Prelude.{◌≡◌, ◌≤◌, None, false, IfOk, IsErr, IsNone, MatchResult, Ok, length, string_bytes};
ghost use Rattle.file_trait.specs.Calls.{Cause};
ghost use Rattle.file_trait.specs.DiskModel.{handed};
ghost use Rattle.file_trait.specs.Faults.{names_of};
ghost use Rattle.file_real.specs.Moments.{untold};

use crate::folder::Folder;
use file_trait::{Blamed, Disk, DiskErr, Faults, FileName};
use std::alloc::{AllocError, Global};
use std::io;
use std::rt::Files;

/// A directory of the operating system. It tells nothing of its files, and answers `Memory` never: std hides a want of
/// memory of the system in an `io::Error`, which counts as a fault here. Each call that may have changed the directory takes a
/// moment, a failed one too. At 2^64-1 such a call is a fault and does nothing.
#[derive(Drop)]
pub struct HostDisk<'r, R: Files> {
    folder: Folder<'r, R>,
    faults: Faults,
}

impl<'r, R: Files> HostDisk<'r, R> {
    pub fn new(rt: &'r R, alloc: Global, dir: &str) -> Result<HostDisk<'r, R>, AllocError>
        requires some { 1 ≤ length dir.now }
        requires short { length dir.now ≤ 4096 }
        ensures dir { IfOk result (λ disk. string_bytes disk.folder.path.dir ≡ dir.now) }
        ensures moment { IfOk result (λ disk. disk.folder.clock ≡ 0) }
        ensures unblamed { IfOk result (λ disk. disk.faults.count ≡ 0) }
    {
        Ok(HostDisk {
            folder: Folder::new(rt, alloc, dir)?,
            faults: Faults::new(),
        })
    }

    // Counts a failure and blames the names that were given. No file stays open after one: a handle tells of a failed write once,
    // and answers well the next time.
    fn judged<T: Drop>(&mut self, outcome: io::Result<T>, given: Blamed) -> Result<T, DiskErr>
        ensures cause { Cause (names_of given) self.old.faults.count self.new.faults.count (names_of self.old.faults.blamed) (names_of self.new.faults.blamed) result }
        ensures value { MatchResult result (λ value. outcome ≡ Ok value) (λ e. e ≡ DiskErr.Failed) }
        ensures closed { IsErr result → IsNone self.new.folder.read × IsNone self.new.folder.written }
        ensures time { self.new.folder.clock ≡ self.old.folder.clock }
    {
        match outcome {
            Ok(value) => Ok(value),
            Err(_) => {
                self.folder.close();
                self.faults.raise(given);
                Err(DiskErr::Failed)
            }
        }
    }
}

impl<'r, R: Files> Disk for HostDisk<'r, R> {
    ghost tells = { false };

    ghost past = { λ disk. handed (λ name. None) };

    ghost moment = { λ disk. disk.folder.clock };

    ghost faults = { λ disk. disk.faults.count };

    ghost blamed = { λ disk. names_of disk.faults.blamed };

    ghost counts = { λ disk told. untold told };

    fn clock(&self) -> u64 {
        self.folder.clock
    }

    fn faults(&self) -> u64 {
        self.faults.count
    }

    fn len(&mut self, name: FileName) -> Result<Option<u64>, DiskErr> {
        let outcome = self.folder.len(&name);
        self.judged(outcome, Blamed::OneFile(name))
    }

    fn read(&mut self, name: FileName, at: u64, into: &mut [u8]) -> Result<usize, DiskErr> {
        let outcome = self.folder.read(&name, at, into);
        self.judged(outcome, Blamed::OneFile(name))
    }

    fn create(&mut self, name: FileName) -> Result<(), DiskErr> {
        let outcome = self.folder.create(&name);
        self.judged(outcome, Blamed::OneFile(name))
    }

    fn append(&mut self, name: FileName, bytes: &[u8]) -> Result<(), DiskErr> {
        let outcome = self.folder.append(&name, bytes);
        self.judged(outcome, Blamed::OneFile(name))
    }

    fn mark(&mut self, name: FileName, four: [u8; 4]) -> Result<(), DiskErr> {
        let outcome = self.folder.mark(&name, four);
        self.judged(outcome, Blamed::OneFile(name))
    }

    fn cut(&mut self, name: FileName, len: u64) -> Result<(), DiskErr> {
        let outcome = self.folder.cut(&name, len);
        self.judged(outcome, Blamed::OneFile(name))
    }

    fn sync(&mut self, name: FileName) -> Result<(), DiskErr> {
        let outcome = self.folder.sync(&name);
        self.judged(outcome, Blamed::OneFile(name))
    }

    fn rename(&mut self, from: FileName, to: FileName) -> Result<(), DiskErr> {
        let outcome = self.folder.rename(&from, &to);
        self.judged(outcome, Blamed::TwoFiles(from, to))
    }

    fn remove(&mut self, name: FileName) -> Result<(), DiskErr> {
        let outcome = self.folder.remove(&name);
        self.judged(outcome, Blamed::OneFile(name))
    }

    fn sync_dir(&mut self) -> Result<(), DiskErr> {
        let outcome = self.folder.sync_names();
        self.judged(outcome, Blamed::NoFile)
    }
}
