//! A real directory: what each call does there, and by which handle. No contract says either.

use crate::HostDisk;
use crate::watched::Call::{Close, Open, SyncAll, SyncData, Write};
use crate::watched::{Call, Notes, Watched};
use file_trait::{Disk, DiskErr, FileName};
use std::rt::Files;
use std::test::Fail;

/// One of two files.
#[derive(Clone, Copy)]
enum File {
    A,
    B,
}

/// A call on the disk, or what a file is found to be.
#[derive(Clone, Copy)]
enum Act {
    Create(File),
    Append(File, &'static str),
    Mark(File),
    Cut(File, u64),
    Sync(File),
    Rename(File, File),
    Remove(File),
    SyncDir,
    Holds(File, &'static str),
    IsAbsent(File),
}

use Act::{Append, Create, Cut, Holds, IsAbsent, Mark, Remove, Rename, Sync, SyncDir};
use File::{A, B};

#[derive(Clone, Copy)]
struct Names {
    a: FileName,
    b: FileName,
}

impl Names {
    fn of(&self, file: File) -> FileName {
        match file {
            A => self.a,
            B => self.b,
        }
    }
}

// Whether a file begins with these bytes and has no others.
fn holds<R: Files>(disk: &mut HostDisk<'_, R>, name: FileName, bytes: &[u8]) -> bool {
    let mut into = [0; 32];
    match (disk.len(name), disk.read(name, 0, &mut into)) {
        (Ok(Some(len)), Ok(count)) => {
            len == bytes.len() as u64 && count <= into.len() && &into[..count] == bytes
        }
        _ => false,
    }
}

fn found(holds: bool) -> Result<(), DiskErr> {
    if holds { Ok(()) } else { Err(DiskErr::Failed) }
}

fn did<R: Files>(disk: &mut HostDisk<'_, R>, names: Names, act: Act) -> Result<(), DiskErr> {
    match act {
        Create(file) => disk.create(names.of(file)),
        Append(file, text) => disk.append(names.of(file), text.as_bytes()),
        Mark(file) => disk.mark(names.of(file), *b"MARK"),
        Cut(file, len) => disk.cut(names.of(file), len),
        Sync(file) => disk.sync(names.of(file)),
        Rename(from, to) => disk.rename(names.of(from), names.of(to)),
        Remove(file) => disk.remove(names.of(file)),
        SyncDir => disk.sync_dir(),
        Holds(file, text) => found(holds(disk, names.of(file), text.as_bytes())),
        IsAbsent(file) => found(disk.len(names.of(file)) == Ok(None)),
    }
}

/// How a call goes.
#[derive(Clone, Copy, PartialEq, Eq)]
enum End {
    Well,
    /// It fails by itself.
    Ill,
    /// Its write or sync is let fail.
    Failed,
}

use End::{Failed, Ill, Well};

/// Each call, how it goes, and what was called on handles. A file is synced by the handle that wrote it, and between two handles of
/// such a file one is always open. None is kept behind a failure, also of a sync, since one that has told of a write that failed may
/// answer well the next time; nor where a call may give its name to another file.
const ACTS: [(Act, End, &[Call]); 33] = [
    (IsAbsent(A), Well, &[]),
    (Append(A, "x"), Ill, &[]),
    (Create(A), Well, &[Open(1), Close(1)]),
    (Create(A), Ill, &[]),
    (Append(A, "01234"), Well, &[Open(2), Write(2)]),
    (Append(A, "567"), Well, &[Write(2)]),
    (Sync(A), Well, &[SyncData(2)]),
    (Mark(A), Well, &[Open(3), Close(2), Write(3)]),
    (Sync(A), Well, &[SyncData(3)]),
    (Append(A, "89"), Well, &[Open(4), Close(3), Write(4)]),
    (Cut(A, 9), Well, &[Open(5), Close(4)]),
    (Sync(A), Well, &[SyncData(5)]),
    (Holds(A, "0123MARK8"), Well, &[Open(6)]),
    (Sync(A), Failed, &[SyncData(5), Close(6), Close(5)]),
    (Append(A, "A"), Failed, &[Open(7), Write(7), Close(7)]),
    (Append(A, "B"), Well, &[Open(8), Write(8)]),
    (Rename(A, B), Well, &[Close(8)]),
    (SyncDir, Well, &[Open(9), SyncAll(9), Close(9)]),
    (Sync(B), Well, &[Open(10), SyncData(10), Close(10)]),
    (Create(A), Well, &[Open(11), Close(11)]),
    (Append(A, "new"), Well, &[Open(12), Write(12)]),
    (Holds(A, "new"), Well, &[Open(13)]),
    (Remove(A), Well, &[Close(13), Close(12)]),
    (Create(A), Well, &[Open(14), Close(14)]),
    (Append(A, "newer"), Well, &[Open(15), Write(15)]),
    (Holds(A, "newer"), Well, &[Open(16)]),
    (Holds(B, "0123MARK8B"), Well, &[Open(17), Close(16)]),
    (Rename(B, A), Well, &[Close(17), Close(15)]),
    (Append(A, "C"), Well, &[Open(18), Write(18)]),
    (Holds(A, "0123MARK8BC"), Well, &[Open(19)]),
    (Remove(A), Well, &[Close(19), Close(18)]),
    (IsAbsent(A), Well, &[]),
    (Remove(A), Ill, &[]),
];

#[test]
fn calls_and_handles(rt: HostRuntime) -> Result<(), Fail> {
    let names = Names {
        a: FileName::new(b"a.LOG").ok_or("a")?,
        b: FileName::new(b"b@host.TMP").ok_or("b")?,
    };
    let notes = Notes::new();
    let watched = Watched {
        rt: &rt,
        notes: &notes,
    };
    let mut disk = HostDisk::new(&watched, rt.alloc(), ".")?;
    for (i, (act, end, calls)) in ACTS.iter().enumerate() {
        if *end == Failed {
            notes.fail_next();
        }
        let answer = did(&mut disk, names, *act);
        assert_eq!(rt; answer.is_ok(), *end == Well, "row {i}");
        assert!(rt; notes.are(calls), "calls of row {i}");
    }
    assert_eq!(rt; (disk.clock(), disk.faults()), (26, 5));
    Ok(())
}
