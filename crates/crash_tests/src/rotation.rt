//! A log that is rotated, over a disk that stops, or fails once, at each of its calls.

ghost use Rattle.std.specs.Prelude.{◌≡◌, List, IsTrue, IfOk, IfSome, OnOk};
ghost use Rattle.file_trait.specs.DiskModel.{reads};
ghost use Rattle.file_mem.specs.MemDisk.{disk_past};
ghost use Rattle.disk_logs.specs.Logs.{IsLog};
ghost use Rattle.db_model.specs.Commits.{CommitRecord};
ghost use Rattle.txn_log.specs.Commits.{AreItemsOf};
ghost use Rattle.txn_log.specs.Logs.{latest, handle, IsAsRead, HasOnlyCommits};

use crate::images::{ALL, IMAGES, IMAGES_OF_A_LOSS, Image, left};
use crate::plain_logs::{Act, PlainLogs};
use db_model::{Commit, Ops, SchemaOps};
use disk_logs::LogErr;
use file_mem::MemDisk;
use file_trait::Disk;
use std::alloc::{AllocError, Global};
use std::test::Fail;
use txn_log::{CommitFile, CommitItem, TxnLog, encode_commit};

/// What is done from a start on. `PREVIOUS.LOG` may be there then, and goes first.
const ACTS: [Act; 14] = [
    Act::DropPrevious,
    Act::Append,
    Act::Append,
    Act::Sync,
    Act::Append,
    Act::Rotate,
    Act::Append,
    Act::Sync,
    Act::Append,
    Act::DropPrevious,
    Act::Append,
    Act::Close,
    Act::Append,
    Act::Rotate,
];

/// What a crash may leave of the renamings, besides: the first ones of them.
const IMAGES_OF_TWO_LOGS: [Image; 6] = [
    Image::Front(1, ALL, ALL),
    Image::Front(2, ALL, ALL),
    Image::Front(3, ALL, ALL),
    Image::Front(1, 0, 0),
    Image::Front(2, 0, 0),
    Image::Front(2, 1, 5),
];

// The versions of a log's commits.
fn versions(alloc: Global, file: &CommitFile) -> Result<Vec<u64>, Fail>
    ensures { OnOk result ((commits : List CommitRecord) × AreItemsOf commits file.now.items) }
{
    let mut versions = Vec::new(alloc);
    let count = file.len();
    for number in 0..count {
        match file.commit(alloc, number)? {
            Some(commit) => versions.push(commit.version)?,
            None => return Err("an item that is no commit".into()),
        }
    }
    Ok(versions)
}

fn versions_of(alloc: Global, read: &Option<CommitFile>) -> Result<Vec<u64>, Fail>
    ensures { OnOk result (HasOnlyCommits read.now) }
{
    match read {
        Some(file) => versions(alloc, file),
        None => Ok(Vec::new(alloc)),
    }
}

// What was answered, or none where the disk failed. A file that is no log fails the test.
fn answered<T: Drop>(answer: Result<T, LogErr>) -> Result<Option<T>, Fail>
    ensures { IfOk result (λ found. IfSome found (λ value. answer ≡ Ok value)) }
{
    match answer {
        Ok(value) => Ok(Some(value)),
        Err(LogErr::File(_)) => Ok(None),
        Err(error) => Err(error.into()),
    }
}

// The versions in `PREVIOUS.LOG`, or none where the disk failed.
fn previous_versions(alloc: Global, disk: &mut MemDisk) -> Result<Option<Vec<u64>>, Fail> {
    match answered(CommitFile::read_previous(alloc, disk))? {
        Some(read) => Ok(Some(versions_of(alloc, &read)?)),
        None => Ok(None),
    }
}

// The log as a start opens it, once it has read both files; none where the disk failed.
fn started(alloc: Global, disk: &mut MemDisk, plain: &mut PlainLogs) -> Result<Option<TxnLog>, Fail>
    ensures { IfOk result (λ found. IfSome found (λ log. IsLog (disk_past disk.new) (handle log))) }
{
    let Some(previous) = previous_versions(alloc, disk)? else {
        return Ok(None);
    };
    if disk.sync_dir().is_err() {
        return Ok(None);
    }
    match answered(CommitFile::read(alloc, disk))? {
        Some(read) => opened(alloc, disk, plain, previous, &read),
        None => Ok(None),
    }
}

fn opened(
    alloc: Global,
    disk: &mut MemDisk,
    plain: &mut PlainLogs,
    previous: Vec<u64>,
    read: &Option<CommitFile>,
) -> Result<Option<TxnLog>, Fail>
    requires { IsAsRead read.now (reads (disk_past disk.old) latest) }
    ensures { IfOk result (λ found. IfSome found (λ log. IsLog (disk_past disk.new) (handle log))) }
{
    plain.start(previous, versions_of(alloc, read)?)?;
    let log = answered(TxnLog::open(alloc, disk, read))?;
    if log.is_some() {
        plain.all_are_durable();
    }
    Ok(log)
}

// A commit of this version, without ops.
fn item(alloc: Global, version: u64) -> Result<CommitItem, LogErr> {
    let commit = Commit {
        version,
        schema_ops: SchemaOps::new(alloc),
        ops: Ops::new(alloc),
    };
    encode_commit(alloc, &commit)
}

fn append(alloc: Global, disk: &mut MemDisk, log: &mut TxnLog, version: u64) -> Result<(), LogErr>
    requires { IsLog (disk_past disk.old) (handle log.old) }
    ensures { OnOk result (IsLog (disk_past disk.new) (handle log.new)) }
{
    if log.commits() == u64::MAX {
        return Err(LogErr::TooLong);
    }
    let item = item(alloc, version)?;
    log.append(alloc, disk, &item)
}

fn tried(
    alloc: Global,
    disk: &mut MemDisk,
    log: &mut TxnLog,
    act: Act,
    version: u64,
) -> Result<(), LogErr>
    requires { IsLog (disk_past disk.old) (handle log.old) }
    ensures { OnOk result (IsLog (disk_past disk.new) (handle log.new)) }
{
    match act {
        Act::Append => append(alloc, disk, log, version),
        Act::Sync => log.sync(disk),
        Act::Close => log.close(disk),
        Act::Rotate => log.rotate(alloc, disk),
        Act::DropPrevious => log.drop_previous(alloc, disk),
    }
}

// Whether it was done, or the disk failed.
fn is_done(
    alloc: Global,
    disk: &mut MemDisk,
    log: &mut TxnLog,
    plain: &mut PlainLogs,
    act: Act,
) -> Result<bool, Fail>
    requires { IsLog (disk_past disk.old) (handle log.old) }
    ensures { IfOk result (λ done. IsTrue done → IsLog (disk_past disk.new) (handle log.new)) }
{
    let version = plain.next;
    plain.begin(act)?;
    match answered(tried(alloc, disk, log, act, version))? {
        Some(()) => {
            plain.end(alloc, act);
            Ok(true)
        }
        None => Ok(false),
    }
}

// Whether all was done, or the disk failed.
fn are_done(
    alloc: Global,
    disk: &mut MemDisk,
    log: &mut TxnLog,
    plain: &mut PlainLogs,
) -> Result<bool, Fail>
    requires { IsLog (disk_past disk.old) (handle log.old) }
{
    for act in ACTS {
        if !is_done(alloc, disk, log, plain, act)? {
            return Ok(false);
        }
    }
    Ok(true)
}

// A run from a start on, and another start. Whether it came to its end, or the disk failed.
fn ran(alloc: Global, disk: &mut MemDisk, plain: &mut PlainLogs) -> Result<bool, Fail> {
    let Some(mut log) = started(alloc, disk, plain)? else {
        return Ok(false);
    };
    if !are_done(alloc, disk, &mut log, plain)? {
        return Ok(false);
    }
    Ok(started(alloc, disk, plain)?.is_some())
}

// Whether a start over the image finds what may be there, and a run goes on from it.
fn is_right(alloc: Global, disk: &MemDisk, plain: &PlainLogs, image: Image) -> Result<bool, Fail> {
    let mut left = left(alloc, disk, image)?;
    let mut plain = plain.try_clone()?;
    Ok(ran(alloc, &mut left, &mut plain)? && !plain.is_wrong)
}

fn are_right(
    alloc: Global,
    disk: &MemDisk,
    plain: &PlainLogs,
    images: &[Image],
) -> Result<bool, Fail> {
    for image in images {
        if !is_right(alloc, disk, plain, *image)? {
            return Ok(false);
        }
    }
    Ok(true)
}

fn all_are_right(alloc: Global, disk: &MemDisk, plain: &PlainLogs) -> Result<bool, Fail> {
    Ok(
        are_right(alloc, disk, plain, &IMAGES)?
            && are_right(alloc, disk, plain, &IMAGES_OF_TWO_LOGS)?,
    )
}

fn calls_of_a_run(alloc: Global) -> Result<u64, Fail> {
    let mut disk = MemDisk::new(alloc);
    if ran(alloc, &mut disk, &mut PlainLogs::new(alloc))? {
        Ok(disk.calls())
    } else {
        Err("a run without faults".into())
    }
}

/// What befalls a call of the disk.
#[derive(Clone, Copy)]
enum Fault {
    /// It fails, and so does each one behind it.
    Stop,
    /// It fails. Of an append some bytes stay.
    Failure,
    /// It fails. What is pending at a sync is lost.
    Loss,
}

fn disk_with(alloc: Global, fault: Fault, call: u64) -> Result<MemDisk, AllocError> {
    let mut disk = MemDisk::new(alloc);
    match fault {
        Fault::Stop => disk.stop_after(call.saturating_sub(1)),
        Fault::Failure => disk.fail_at(call, 5)?,
        Fault::Loss => disk.lose_at(call)?,
    }
    Ok(disk)
}

// What is wrong, if anything, of a run that the fault befalls, or not, and of another one on the same disk.
fn wrong_run(
    alloc: Global,
    fault: Fault,
    call: u64,
    befalls: bool,
) -> Result<Option<&'static str>, Fail> {
    let mut disk = disk_with(alloc, fault, call)?;
    let mut plain = PlainLogs::new(alloc);
    if ran(alloc, &mut disk, &mut plain)? == befalls {
        return Ok(Some("end"));
    }
    if !all_are_right(alloc, &disk, &plain)? {
        return Ok(Some("image"));
    }
    if !befalls || matches!(fault, Fault::Stop) {
        return Ok(None);
    }
    if !ran(alloc, &mut disk, &mut plain)? || plain.is_wrong {
        return Ok(Some("next run"));
    }
    if !are_right(alloc, &disk, &plain, &IMAGES_OF_A_LOSS)? {
        return Ok(Some("image of the next run"));
    }
    Ok(None)
}

fn first_wrong(alloc: Global, fault: Fault) -> Result<Option<(u64, &'static str)>, Fail> {
    let count = calls_of_a_run(alloc)?;
    for call in 1..=count.saturating_add(1) {
        if let Some(what) = wrong_run(alloc, fault, call, call <= count)? {
            return Ok(Some((call, what)));
        }
    }
    Ok(None)
}

#[test]
fn rotated_with_each_fault_at_each_call(rt: HostRuntime) -> Result<(), Fail> {
    for fault in [Fault::Stop, Fault::Failure, Fault::Loss] {
        let wrong = first_wrong(rt.alloc(), fault)?;
        assert_eq!(rt; wrong, None, "call, and what is wrong");
    }
    Ok(())
}
