//! Files of a runtime, with a note of each call that opens, writes, syncs or closes one.

use std::alloc::Allocator;
use std::cell::Cell;
use std::fs::{Metadata, OpenFile, OpenOptions};
use std::io::{self, ErrorKind, Read, Seek, SeekFrom, Write};
use std::rt::Files;

/// A call on the handle of this number; the first one is 1.
#[derive(Clone, Copy, Debug, PartialEq, Eq)]
pub enum Call {
    Open(u8),
    Write(u8),
    SyncData(u8),
    SyncAll(u8),
    Close(u8),
}

/// The calls since they were last compared, of which the first 16 are kept, and how many files were opened.
#[derive(Drop)]
pub struct Notes {
    calls: Cell<[Option<Call>; 16]>,
    count: Cell<usize>,
    opened: Cell<u8>,
    fails: Cell<bool>,
}

impl Notes {
    pub fn new() -> Notes {
        Notes {
            calls: Cell::new([None; 16]),
            count: Cell::new(0),
            opened: Cell::new(0),
            fails: Cell::new(false),
        }
    }

    /// Lets the next call that writes or syncs fail.
    pub fn fail_next(&self) {
        self.fails.set(true);
    }

    /// Whether these are the calls. From then on there are none.
    pub fn are(&self, expected: &[Call]) -> bool {
        let mut calls = [None; 16];
        for (slot, call) in calls.iter_mut().zip(expected) {
            *slot = Some(*call);
        }
        let count = self.count.replace(0);
        count == expected.len() && self.calls.replace([None; 16]) == calls
    }

    fn add(&self, call: Call) {
        let (mut calls, count) = (self.calls.get(), self.count.get());
        if let Some(slot) = calls.get_mut(count) {
            *slot = Some(call);
        }
        self.calls.set(calls);
        self.count.set(count.saturating_add(1));
    }

    fn add_fallible(&self, call: Call) -> io::Result<()> {
        self.add(call);
        if self.fails.replace(false) {
            return Err(ErrorKind::Other.into());
        }
        Ok(())
    }

    fn next_number(&self) -> u8 {
        let number = self.opened.get().saturating_add(1);
        self.opened.set(number);
        number
    }
}

#[derive(Drop)]
pub struct Watched<'r, R> {
    pub rt: &'r R,
    pub notes: &'r Notes,
}

pub struct WatchedFile<'r, F: Drop> {
    file: F,
    number: u8,
    notes: &'r Notes,
}

impl<'r, F: Drop> Drop for WatchedFile<'r, F> {
    fn drop(self) {
        self.notes.add(Call::Close(self.number));
        let Self {
            file: _,
            number: _,
            notes: _,
        } = self;
    }
}

impl<'r, F: Read + Drop> Read for WatchedFile<'r, F> {
    fn read(&mut self, buf: &mut [u8]) -> io::Result<usize> {
        self.file.read(buf)
    }
}

impl<'r, F: Write + Drop> Write for WatchedFile<'r, F> {
    fn write(&mut self, buf: &[u8]) -> io::Result<usize> {
        self.notes.add_fallible(Call::Write(self.number))?;
        self.file.write(buf)
    }

    fn flush(&mut self) -> io::Result<()> {
        self.file.flush()
    }
}

impl<'r, F: Seek + Drop> Seek for WatchedFile<'r, F> {
    fn seek(&mut self, to: SeekFrom) -> io::Result<u64> {
        self.file.seek(to)
    }
}

impl<'r, F: OpenFile + Drop> OpenFile for WatchedFile<'r, F> {
    fn metadata(&self) -> io::Result<Metadata> {
        self.file.metadata()
    }

    fn set_len(&self, size: u64) -> io::Result<()> {
        self.file.set_len(size)
    }

    fn sync_all(&self) -> io::Result<()> {
        self.notes.add_fallible(Call::SyncAll(self.number))?;
        self.file.sync_all()
    }

    fn sync_data(&self) -> io::Result<()> {
        self.notes.add_fallible(Call::SyncData(self.number))?;
        self.file.sync_data()
    }
}

impl<'r, R: Files> Files for Watched<'r, R> {
    type File = WatchedFile<'r, R::File>;

    type Dir = R::Dir;

    fn open_file(&self, how: &OpenOptions, path: &str) -> io::Result<WatchedFile<'r, R::File>> {
        let file = self.rt.open_file(how, path)?;
        let number = self.notes.next_number();
        self.notes.add(Call::Open(number));
        Ok(WatchedFile {
            file,
            number,
            notes: self.notes,
        })
    }

    fn open_dir(&self, path: &str) -> io::Result<R::Dir> {
        self.rt.open_dir(path)
    }

    fn metadata(&self, path: &str) -> io::Result<Metadata> {
        self.rt.metadata(path)
    }

    fn symlink_metadata(&self, path: &str) -> io::Result<Metadata> {
        self.rt.symlink_metadata(path)
    }

    fn copy(&self, from: &str, to: &str) -> io::Result<u64> {
        self.rt.copy(from, to)
    }

    fn rename(&self, from: &str, to: &str) -> io::Result<()> {
        self.rt.rename(from, to)
    }

    fn remove_file(&self, path: &str) -> io::Result<()> {
        self.rt.remove_file(path)
    }

    fn create_dir(&self, path: &str) -> io::Result<()> {
        self.rt.create_dir(path)
    }

    fn remove_dir(&self, path: &str) -> io::Result<()> {
        self.rt.remove_dir(path)
    }

    fn remove_dir_all<B: Allocator>(&self, alloc: B, path: &str) -> io::Result<()> {
        self.rt.remove_dir_all(alloc, path)
    }
}
