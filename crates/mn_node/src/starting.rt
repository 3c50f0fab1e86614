//! The start: a node over a new log, or with the database that the log's commits make.

ghost use Rattle.std.specs.List.{AllByRecursion};
ghost use Rattle.std.specs.Prelude.{◌≡◌, [], ◌↔◌, ◌<◌, ◌+◌, ℕ, List, ◌^◌, Some, true, length, take, IsTrue, IsErrOf, OnOk, OnErr, IfOk, MatchResult};
ghost use Rattle.std.specs.Bool.{MatchBool};
ghost use Rattle.file_trait.specs.DiskModel.{reads, IsImage, IsSettled, Crashes};
ghost use Rattle.file_trait.specs.Moments.{Moments};
ghost use Rattle.file_trait.specs.Touched.{Touches};
ghost use Rattle.disk_logs.specs.Crash.{IsSound};
ghost use Rattle.disk_logs.specs.Logs.{IsLog, IsRead};
ghost use Rattle.log_items.specs.Items.{wire, log_bytes, AreContents};
ghost use Rattle.db_model.specs.Commits.{CommitRecord};
ghost use Rattle.db_model.specs.Lawful as databases;
ghost use Rattle.db_state.specs.Live.{database};
ghost use Rattle.txn_log.specs.Logs.{handle, IsLogName, IsAsRead, HasOnlyCommits, IsWrongAt, OldOrCommits, Reads};
ghost use Rattle.mn_node.specs.Calls.{Calls};
ghost use Rattle.mn_node.specs.Durable.{made};
ghost use Rattle.mn_node.specs.Inside.Loads.{Loads, Makes, TakesAt, CannotTakeAt, FailsBroken};
ghost use Rattle.mn_node.specs.Inside.Tries.{IsFileOrMemory};
ghost use Rattle.mn_node.specs.Meaning.{Files, IsBroken, latest, AreTaken};
ghost use Rattle.mn_node.specs.Shown.{OpenShows, IsNamed, Pends, StaysSound};
ghost use Rattle.mn_node.specs.declared.starting.StartErr.TheVariants.{Memory};

use crate::open::Open;
use db_state::Live;
use disk_logs::LogErr;
use file_trait::{Disk, FileName};
use std::alloc::{AllocError, Global};
use txn_core::Txns;
use txn_log::{CommitFile, TxnLog, latest as latest_name};

/// Why a start did not bring the node up.
#[derive(Clone, Copy, Debug, PartialEq, Eq)]
pub enum StartErr {
    /// The disk failed at this file.
    File(FileName),
    /// This file has no meaning, from this place on.
    Damaged(FileName, u64),
    /// Out of memory.
    Memory,
}

impl From<AllocError> for StartErr {
    ghost from_gives = { λ _ e. e ≡ Memory };

    fn from(_: AllocError) -> StartErr {
        StartErr::Memory
    }
}

/// What a node works on that is up over this directory. All of the log is read before anything is done to it. Then
/// the directory is made durable, and the log is opened: one whose mark says closed is trusted as it is, one whose
/// mark says open is renewed, and where there is none a new one is published.
pub fn start<D: Disk>(alloc: Global, disk: &mut D) -> Result<Open, StartErr>
    ensures started { IsTrue D.tells → IsSound (D.past disk.old) latest → (commits : List CommitRecord)
        → Reads commits (reads (D.past disk.old) latest) → AreTaken commits
        → databases.IsSound (made commits).database
        → IfOk result (λ live. OpenShows live (D.past disk.new) commits (length commits)) }
    ensures failed { IsTrue D.tells → (commits : List CommitRecord)
        → Reads commits (reads (D.past disk.old) latest) → AreTaken commits
        → OnErr result (Reads commits (reads (D.past disk.new) latest)) }

    // At each moment a crash leaves what it could leave before, or exactly these commits.
    ensures any_moment { IsTrue D.tells → (commits : List CommitRecord)
        → Reads commits (reads (D.past disk.old) latest) → AreTaken commits
        → Moments (OldOrCommits (D.past disk.old) commits) (D.past disk.old) (D.past disk.new) }

    // A closed log stays as trusted as it was. Over one nothing is written.
    ensures sound { IsTrue D.tells → StaysSound (D.past disk.old) (D.past disk.new) }
    ensures unwritten { IsTrue D.tells → (items : List (List ℕ)) → AreContents items
        → reads (D.past disk.old) latest ≡ Some (log_bytes true items)
        → Touches (λ n. ⊥) (D.past disk.old) (D.past disk.new) }
    ensures touches { IsTrue D.tells → Touches IsLogName (D.past disk.old) (D.past disk.new) }
    ensures log { IsTrue D.tells → IfOk result (λ live. IsLog (D.past disk.new) (handle live.log)) }
    ensures few { IfOk result (λ live. live.log.commits < 2 ^ 63) }

    // Damaged comes exactly where the directory has no meaning, with the place, unless the disk failed or memory was
    // wanting. Nothing is done to such a directory.
    ensures damaged { IsTrue D.tells → (name : List ℕ) (at : ℕ) → IsErrOf result (StartErr.Damaged name at)
        → IsBroken (reads (D.past disk.old)) name at }
    ensures meaning { IsTrue D.tells → (name : List ℕ) (at : ℕ) → IsBroken (reads (D.past disk.old)) name at
        → MatchResult result (λ live. ⊥) (FailsBroken at) }
    ensures kept { IsTrue D.tells → (name : List ℕ) (at : ℕ) → IsBroken (reads (D.past disk.old)) name at
        → D.past disk.new ≡ D.past disk.old }
    ensures calls { Calls (D.faults disk.old) (D.faults disk.new) (D.blamed disk.new)
        (λ name. IsErrOf result (StartErr.File name)) }
    ensures named { (name : List ℕ) → IsErrOf result (StartErr.File name) → IsLogName name }
    ensures pends { IfOk result (λ live. Pends live []) }
{
    let read = found(alloc, disk)?;
    let tables = loaded(alloc, &read)?;
    synced_directory(disk)?;
    match TxnLog::open(alloc, disk, &read) {
        Ok(log) => {
            tables.order_law();
            tables.key_law();
            Ok(Open {
                log,
                tables,
                txns: Txns::new(alloc),
            })
        }
        Err(error) => Err(open_error(error)),
    }
}

/// The log's file, where it is there. Nothing is done to the disk.
fn found<D: Disk>(alloc: Global, disk: &mut D) -> Result<Option<CommitFile>, StartErr>
    ensures read { IsTrue D.tells → IfOk result (λ read. IsAsRead read (reads (D.past disk.old) latest)) }
    ensures damaged { IsTrue D.tells → (name : List ℕ) (at : ℕ) → IsErrOf result (StartErr.Damaged name at)
        → IsBroken (reads (D.past disk.old)) name at }
    ensures same { IsTrue D.tells → D.past disk.new ≡ D.past disk.old }
    ensures calls { Calls (D.faults disk.old) (D.faults disk.new) (D.blamed disk.new)
        (λ name. IsErrOf result (StartErr.File name)) }
    ensures named { (name : List ℕ) → IsErrOf result (StartErr.File name) → name ≡ latest }
{
    match CommitFile::read(alloc, disk) {
        Ok(read) => Ok(read),
        Err(error) => Err(read_error(error)),
    }
}

/// The database that the log's commits make, and one without tables where there is no log.
fn loaded(alloc: Global, read: &Option<CommitFile>) -> Result<Live, StartErr>
    ensures loads { (files : Files) → IsAsRead read.now (files latest)
        → IfOk result (λ live. Loads files (database live)) }
    ensures commits { OnOk result (HasOnlyCommits read.now) }
    ensures named { IfOk result (λ live. AllByRecursion IsNamed (database live).tables) }
    ensures damaged { (files : Files) → IsAsRead read.now (files latest)
        → (name : List ℕ) (at : ℕ) → IsErrOf result (StartErr.Damaged name at) → IsBroken files name at }
    ensures fault { (name : List ℕ) → IsErrOf result (StartErr.File name) → ⊥ }
{
    match read {
        Some(file) => database_of(alloc, file),
        None => Ok(Live::new(alloc)),
    }
}

/// Makes what was done to the directory durable: from then on a crash leaves under the log's name what has it now.
fn synced_directory<D: Disk>(disk: &mut D) -> Result<(), StartErr>
    ensures settled { IsTrue D.tells → OnOk result (IsSettled (D.past disk.new) latest) }

    // At each moment a crash leaves what it could leave before, and the files read as before.
    ensures any_moment { IsTrue D.tells
        → Moments (Crashes (IsImage (D.past disk.old))) (D.past disk.old) (D.past disk.new) }
    ensures as_before { IsTrue D.tells → reads (D.past disk.new) latest ≡ reads (D.past disk.old) latest }
    ensures sound { IsTrue D.tells → StaysSound (D.past disk.old) (D.past disk.new) }
    ensures touches { IsTrue D.tells → Touches (λ n. ⊥) (D.past disk.old) (D.past disk.new) }
    ensures fault { (error : StartErr) → IsErrOf result error → error ≡ StartErr.File latest }
    ensures calls { Calls (D.faults disk.old) (D.faults disk.new) (D.blamed disk.new)
        (λ name. IsErrOf result (StartErr.File name)) }
{
    match disk.sync_dir() {
        Ok(()) => Ok(()),
        // It takes no memory.
        Err(_) => Err(StartErr::File(latest_name())),
    }
}

/// The database that the commits of a log make.
fn database_of(alloc: Global, file: &CommitFile) -> Result<Live, StartErr>
    ensures whole { IsRead file.now }
    ensures made { IfOk result (λ live. Makes file.now.items (database live)) }
    ensures damaged { (name : List ℕ) (at : ℕ) → IsErrOf result (StartErr.Damaged name at)
        → (name ≡ latest) × IsWrongAt AreTaken file.now.items at }
    ensures fault { (name : List ℕ) → IsErrOf result (StartErr.File name) → ⊥ }
{
    let mut live = Live::new(alloc);
    let count = file.len();
    let mut number = 0;
    'commits: while number < count {
        if !take(alloc, &mut live, file, number)? {
            return Err(StartErr::Damaged(latest_name(), file.place(number)));
        }
        number += 1;
    }
    Ok(live)
}

/// Takes this commit of a log. Whether it is one that can be taken.
fn take(
    alloc: Global,
    live: &mut Live,
    file: &CommitFile,
    number: usize,
) -> Result<bool, AllocError>
    requires { number + 1 < length file.now.items }
    ensures { IfOk result (λ taken. MatchBool taken
        (TakesAt file.now.items (number + 1) (database live.old) (database live.new))
        (CannotTakeAt file.now.items (number + 1) (database live.old))) }
{
    let Some(commit) = file.commit(alloc, number)? else {
        return Ok(false);
    };
    match live.plan_taken(alloc, &commit)? {
        Some(plan) => {
            live.apply(plan);
            Ok(true)
        }
        None => Ok(false),
    }
}

// Why the log could not be read. What has no meaning is always the log: no other file is read.
fn read_error(error: LogErr) -> StartErr
    requires never { error ≡ LogErr.TooLong → ⊥ }
    ensures file { (name : List ℕ) → (error ≡ LogErr.File name) ↔ (result ≡ StartErr.File name) }
    ensures damaged { (name : List ℕ) (at : ℕ) → result ≡ StartErr.Damaged name at
        → (name ≡ latest) × (file : List ℕ) × (error ≡ LogErr.Bad file at) }
    ensures memory { result ≡ StartErr.Memory → error ≡ LogErr.Memory }
{
    match error {
        LogErr::File(name) => StartErr::File(name),
        LogErr::Bad(_, at) => StartErr::Damaged(latest_name(), at),
        LogErr::Memory => StartErr::Memory,
        LogErr::TooLong => unreachable!(),
    }
}

// Why the log could not be opened: the disk failed, or memory was wanting.
fn open_error(error: LogErr) -> StartErr
    requires { IsFileOrMemory error }
    ensures file { (name : List ℕ) → (error ≡ LogErr.File name) ↔ (result ≡ StartErr.File name) }
    ensures damaged { (name : List ℕ) (at : ℕ) → result ≡ StartErr.Damaged name at → ⊥ }
    ensures memory { result ≡ StartErr.Memory → error ≡ LogErr.Memory }
{
    match error {
        LogErr::File(name) => StartErr::File(name),
        LogErr::Memory => StartErr::Memory,
        LogErr::TooLong | LogErr::Bad(_, _) => unreachable!(),
    }
}
