//! The log of the commits over a disk.

ghost use Rattle.std.specs.Prelude.{◌≡◌, ◌⊎◌, ◌+◌, ◌-◌, ◌<◌, ◌≤◌, ◌^◌, ◌++◌, ◌∷◌, [], ℕ, List, true, false, length, Option, None, Some, Ok, IsTrue, IsOk, IfOk, IsErrOf, OnOk, OnErr};
ghost use Rattle.file_trait.specs.Calls.{IsAbsent, IsDurable};
ghost use Rattle.file_trait.specs.DiskModel.{reads, Crashes, IsSettled};
ghost use Rattle.file_trait.specs.Moments.{Moments};
ghost use Rattle.file_trait.specs.Touched.{Touches};
ghost use Rattle.disk_logs.specs.Crash.{IsSound};
ghost use Rattle.disk_logs.specs.Errors.{OnlyFile, OnlyFileOrMemory, LogCause};
ghost use Rattle.disk_logs.specs.Calls.{LogCalls};
ghost use Rattle.disk_logs.specs.Logs.{IsLog};
ghost use Rattle.log_items.specs.Items.{log_bytes, AreContents};
ghost use Rattle.db_model.specs.Commits.{CommitRecord};
ghost use Rattle.txn_log.specs.Commits.{IsItemOf, AreItemsOf};
ghost use Rattle.txn_log.specs.Opens.{Opens};
ghost use Rattle.txn_log.specs.Logs.{latest as latest_name, handle, Reads, IsAsRead, HasOnlyCommits, TxnStands, Leaves, OldOrCommits, IsLogName, IsOwn};
ghost use Rattle.txn_log.specs.TwoLogs.{IsOfLogs, TwoLogs, Rotates, Drops, AreSound, BothStand, LogWaits, LogsStand, commits_of};

use crate::commit_file::CommitFile;
use crate::commit_items::CommitItem;
use crate::heads::HEAD_TEXT;
use crate::names::{latest, previous};
use disk_logs::{Log, LogErr, discard};
use file_trait::Disk;
use std::alloc::Global;
use std::marker::Model;

/// The log of the commits. It is published, closed as it is opened, and open from the first append on. Where a rotation
/// wanted memory midway it waits for its file to be made: `log` is the one before it then.
#[derive(Drop)]
pub struct TxnLog {
    log: Log,
    commits: u64,
    waits: bool,
}

impl Model for TxnLog {
    ghost use Rattle.std.specs.Prelude.{◌≡◌};
    ghost use Rattle.txn_log.specs.Logs.{LogState, handle};

    ghost Value = { LogState };

    ghost view = { λ l. record { commits = l.commits; closed = l.log.closed; waits = l.waits } };

    ghost invariant = { λ l. l.log ≡ handle (record { commits = l.commits; closed = l.log.closed; waits = l.waits }) };
}

impl TxnLog {
    /// Opens the log that was read and has only commits. One whose mark says open is renewed: its whole items are
    /// published as a new file. One whose mark says closed is trusted as it is. Where there is none, one without
    /// commits is published.
    pub fn open<D: Disk>(
        alloc: Global,
        disk: &mut D,
        read: &Option<CommitFile>,
    ) -> Result<TxnLog, LogErr>
        requires read { IsTrue D.tells → IsAsRead read.now (reads (D.past disk.old) latest_name) }
        requires commits { HasOnlyCommits read.now }
        ensures few { IfOk result (λ log. log.commits < 2 ^ 63) }
        ensures log { IsTrue D.tells → IfOk result (λ log. IsLog (D.past disk.new) (handle log)) }

        // The commits are those that the file had.
        ensures opened { (commits : List CommitRecord) → IsTrue D.tells
            → Reads commits (reads (D.past disk.old) latest_name)
            → IfOk result (λ log. (log.commits ≡ length commits)
            × Reads commits (reads (D.past disk.new) latest_name)) }
        ensures kept { (commits : List CommitRecord) → IsTrue D.tells
            → Reads commits (reads (D.past disk.old) latest_name)
            → OnErr result (Reads commits (reads (D.past disk.new) latest_name)) }

        // At Ok all of them are synced. At each moment a crash leaves what it could leave before, or exactly these
        // commits.
        ensures stands { (commits : List CommitRecord) → IsTrue D.tells
            → Reads commits (reads (D.past disk.old) latest_name) → IsSettled (D.past disk.old) latest_name
            → IsSound (D.past disk.old) latest_name
            → IfOk result (λ log. TxnStands (D.past disk.new) log commits (length commits)) }
        ensures any_moment { (commits : List CommitRecord) → IsTrue D.tells
            → Reads commits (reads (D.past disk.old) latest_name) → IsSettled (D.past disk.old) latest_name
            → Moments (OldOrCommits (D.past disk.old) commits) (D.past disk.old) (D.past disk.new) }
        ensures sound { IsTrue D.tells → IsSound (D.past disk.old) latest_name
            → Moments (λ past. IsSound past latest_name) (D.past disk.old) (D.past disk.new) }

        // Over a file that reads as a closed log it cannot fail, and nothing is done.
        ensures trusted { (items : List (List ℕ)) → IsTrue D.tells → AreContents items
            → reads (D.past disk.old) latest_name ≡ Some (log_bytes true items)
            → IsOk result × (disk.new ≡ disk.old) }
        ensures calls { LogCalls D.Disk disk.old disk.new IsLogName OnlyFileOrMemory result }
    {
        match read {
            Some(file) => resumed(disk, file),
            None => made(alloc, disk),
        }
    }

    /// Puts a commit behind those of the log. A log that is closed is marked open and synced first, and one that waits
    /// for its file is published before.
    pub fn append<D: Disk>(
        &mut self,
        alloc: Global,
        disk: &mut D,
        item: &CommitItem,
    ) -> Result<(), LogErr>
        requires log { IsTrue D.tells → IsLog (D.past disk.old) (handle self.old) }
        requires few { self.old.commits < 2 ^ 64 - 1 }
        ensures log { IsTrue D.tells → OnOk result (IsLog (D.past disk.new) (handle self.new)) }
        ensures wanted { IsTrue D.tells → IsErrOf result LogErr.Memory → IsLog (D.past disk.new) (handle self.new) }
        ensures ok { OnOk result (self.new.commits ≡ self.old.commits + 1) }
        ensures err { OnErr result (self.new.commits ≡ self.old.commits) }

        // At Ok it waits for no file, and one that did not wait never does.
        ensures made { OnOk result (self.new.waits ≡ false) }
        ensures stays { self.old.waits ≡ false → self.new.waits ≡ false }

        // At Ok the commit stands behind the old ones. Where memory was wanting all is as before, and where the disk
        // failed the log has the old commits, or these and the new one.
        ensures stands { (commits : List CommitRecord) (synced : ℕ) (commit : CommitRecord) → IsTrue D.tells
            → IsItemOf commit item.now → TxnStands (D.past disk.old) self.old commits synced
            → OnOk result (TxnStands (D.past disk.new) self.new (commits ++ commit ∷ []) synced) }
        ensures kept { (commits : List CommitRecord) (synced : ℕ) → IsTrue D.tells
            → TxnStands (D.past disk.old) self.old commits synced
            → IsErrOf result LogErr.Memory → TxnStands (D.past disk.new) self.new commits synced }
        ensures left { (commits : List CommitRecord) (synced : ℕ) (commit : CommitRecord) → IsTrue D.tells
            → IsItemOf commit item.now → TxnStands (D.past disk.old) self.old commits synced
            → OnErr result (Reads commits (reads (D.past disk.new) latest_name)
            ⊎ Reads (commits ++ commit ∷ []) (reads (D.past disk.new) latest_name)) }

        // At each moment a crash leaves the first ones of the old commits and the new, and at least those that were
        // synced.
        ensures any_moment { (commits : List CommitRecord) (synced : ℕ) (commit : CommitRecord) → IsTrue D.tells
            → IsItemOf commit item.now → TxnStands (D.past disk.old) self.old commits synced
            → Moments (Leaves (commits ++ commit ∷ []) synced) (D.past disk.old) (D.past disk.new) }
        // Where memory was wanting it leaves only old ones.
        ensures only_old { (commits : List CommitRecord) (synced : ℕ) → IsTrue D.tells
            → TxnStands (D.past disk.old) self.old commits synced
            → IsErrOf result LogErr.Memory → Moments (Leaves commits synced) (D.past disk.old) (D.past disk.new) }
        ensures sound { (commits : List CommitRecord) (synced : ℕ) → IsTrue D.tells
            → TxnStands (D.past disk.old) self.old commits synced
            → Moments (λ past. IsSound past latest_name) (D.past disk.old) (D.past disk.new) }
        ensures calls { LogCalls D.Disk disk.old disk.new (IsOwn self.old) OnlyFileOrMemory result }

        // It is one write, and three calls of the disk where the log is closed.
        ensures few { self.old.waits ≡ false → D.moment disk.new ≤ D.moment disk.old + 3 }
        ensures one { self.old.closed ≡ false → D.moment disk.new ≤ D.moment disk.old + 1 }

        // The same of both logs: the commit stands behind all of the two. Where memory was wanting the new log may be
        // made, without commits. At each moment a crash leaves all of PREVIOUS.LOG, and the first ones of the others.
        ensures logs_stand { (before : Option (List CommitRecord)) (after : List CommitRecord) (synced : ℕ)
            (commit : CommitRecord) → IsTrue D.tells → IsItemOf commit item.now
            → LogsStand (D.past disk.old) self.old before after synced
            → OnOk result (LogsStand (D.past disk.new) self.new before (after ++ commit ∷ []) synced) }
        ensures logs_kept { (before : Option (List CommitRecord)) (after : List CommitRecord) (synced : ℕ)
            → IsTrue D.tells → LogsStand (D.past disk.old) self.old before after synced
            → IsErrOf result LogErr.Memory → LogsStand (D.past disk.new) self.new before after synced }
        ensures logs_left { (before : Option (List CommitRecord)) (after : List CommitRecord) (synced : ℕ)
            (commit : CommitRecord) → IsTrue D.tells → IsItemOf commit item.now
            → LogsStand (D.past disk.old) self.old before after synced
            → OnErr result (TwoLogs (commits_of before) (after ++ commit ∷ []) (length after)
            (reads (D.past disk.new))) }
        ensures logs_moments { (before : Option (List CommitRecord)) (after : List CommitRecord) (synced : ℕ)
            (commit : CommitRecord) → IsTrue D.tells → IsItemOf commit item.now
            → LogsStand (D.past disk.old) self.old before after synced
            → Moments (Crashes (TwoLogs (commits_of before) (after ++ commit ∷ []) synced))
            (D.past disk.old) (D.past disk.new) }
        // Where memory was wanting it leaves only old ones.
        ensures logs_only_old { (before : Option (List CommitRecord)) (after : List CommitRecord) (synced : ℕ)
            → IsTrue D.tells → LogsStand (D.past disk.old) self.old before after synced
            → IsErrOf result LogErr.Memory
            → Moments (Crashes (TwoLogs (commits_of before) after synced)) (D.past disk.old) (D.past disk.new) }
        ensures logs_sound { (before : Option (List CommitRecord)) (after : List CommitRecord) (synced : ℕ)
            → IsTrue D.tells → LogsStand (D.past disk.old) self.old before after synced
            → Moments AreSound (D.past disk.old) (D.past disk.new) }
    {
        self.ready(alloc, disk)?;
        self.log.append(disk, item.bytes())?;
        self.commits += 1;
        Ok(())
    }

    /// Makes all commits durable. It takes no memory. Where the log is closed, or waits for its file, this cannot fail,
    /// and nothing is done.
    pub fn sync<D: Disk>(&mut self, disk: &mut D) -> Result<(), LogErr>
        requires { IsTrue D.tells → IsLog (D.past disk.old) (handle self.old) }
        ensures nothing { self.old.closed ≡ true → (result ≡ Ok tt) × (disk.new ≡ disk.old) }
        ensures same { self.new ≡ self.old }
        ensures log { IsTrue D.tells → IsLog (D.past disk.new) (handle self.new) }
        ensures stands { (commits : List CommitRecord) (synced : ℕ) → IsTrue D.tells
            → TxnStands (D.past disk.old) self.old commits synced
            → OnOk result (TxnStands (D.past disk.new) self.new commits (length commits)) }
        ensures left { (commits : List CommitRecord) (synced : ℕ) → IsTrue D.tells
            → TxnStands (D.past disk.old) self.old commits synced
            → OnErr result (Reads commits (reads (D.past disk.new) latest_name)) }
        ensures any_moment { (commits : List CommitRecord) (synced : ℕ) → IsTrue D.tells
            → TxnStands (D.past disk.old) self.old commits synced
            → Moments (Leaves commits synced) (D.past disk.old) (D.past disk.new) }
        ensures sound { (commits : List CommitRecord) (synced : ℕ) → IsTrue D.tells
            → TxnStands (D.past disk.old) self.old commits synced
            → Moments (λ past. IsSound past latest_name) (D.past disk.old) (D.past disk.new) }
        ensures calls { LogCalls D.Disk disk.old disk.new (λ n. n ≡ latest_name) OnlyFile result }
        ensures few { D.moment disk.new ≤ D.moment disk.old + 1 }

        // The same of both logs.
        ensures logs_stand { (before : Option (List CommitRecord)) (after : List CommitRecord) (synced : ℕ)
            → IsTrue D.tells → LogsStand (D.past disk.old) self.old before after synced
            → OnOk result (LogsStand (D.past disk.new) self.new before after (length after)) }
        ensures logs_left { (before : Option (List CommitRecord)) (after : List CommitRecord) (synced : ℕ)
            → IsTrue D.tells → LogsStand (D.past disk.old) self.old before after synced
            → TwoLogs (commits_of before) after (length after) (reads (D.past disk.new)) }
        ensures logs_moments { (before : Option (List CommitRecord)) (after : List CommitRecord) (synced : ℕ)
            → IsTrue D.tells → LogsStand (D.past disk.old) self.old before after synced
            → Moments (Crashes (TwoLogs (commits_of before) after synced)) (D.past disk.old) (D.past disk.new) }
        ensures logs_sound { (before : Option (List CommitRecord)) (after : List CommitRecord) (synced : ℕ)
            → IsTrue D.tells → LogsStand (D.past disk.old) self.old before after synced
            → Moments AreSound (D.past disk.old) (D.past disk.new) }
    {
        self.log.sync(disk)
    }

    /// Closes the log where it is open: it is made durable, marked closed, and made durable again. Where it is closed,
    /// or waits for its file, this cannot fail, and nothing is done.
    pub fn close<D: Disk>(&mut self, disk: &mut D) -> Result<(), LogErr>
        requires { IsTrue D.tells → IsLog (D.past disk.old) (handle self.old) }
        ensures nothing { self.old.closed ≡ true → (result ≡ Ok tt) × (disk.new ≡ disk.old) }
        ensures log { IsTrue D.tells → OnOk result (IsLog (D.past disk.new) (handle self.new)) }
        ensures wanted { IsTrue D.tells → IsErrOf result LogErr.Memory → IsLog (D.past disk.new) (handle self.new) }
        ensures commits { self.new.commits ≡ self.old.commits }
        ensures same { self.new.waits ≡ self.old.waits }
        ensures closed { OnOk result (self.new.closed ≡ true) }
        ensures stands { (commits : List CommitRecord) (synced : ℕ) → IsTrue D.tells
            → TxnStands (D.past disk.old) self.old commits synced
            → OnOk result (TxnStands (D.past disk.new) self.new commits (length commits)) }
        ensures kept { (commits : List CommitRecord) (synced : ℕ) → IsTrue D.tells
            → TxnStands (D.past disk.old) self.old commits synced
            → IsErrOf result LogErr.Memory → TxnStands (D.past disk.new) self.new commits synced }
        ensures left { (commits : List CommitRecord) (synced : ℕ) → IsTrue D.tells
            → TxnStands (D.past disk.old) self.old commits synced
            → OnErr result (Reads commits (reads (D.past disk.new) latest_name)) }
        ensures any_moment { (commits : List CommitRecord) (synced : ℕ) → IsTrue D.tells
            → TxnStands (D.past disk.old) self.old commits synced
            → Moments (Leaves commits synced) (D.past disk.old) (D.past disk.new) }
        ensures sound { (commits : List CommitRecord) (synced : ℕ) → IsTrue D.tells
            → TxnStands (D.past disk.old) self.old commits synced
            → Moments (λ past. IsSound past latest_name) (D.past disk.old) (D.past disk.new) }
        ensures durable { (commits : List CommitRecord) (synced : ℕ) → IsTrue D.tells
            → TxnStands (D.past disk.old) self.old commits synced → self.old.closed ≡ false
            → OnOk result (IsDurable (D.past disk.new) latest_name) }
        ensures calls { LogCalls D.Disk disk.old disk.new (λ n. n ≡ latest_name) OnlyFileOrMemory result }
        ensures few { D.moment disk.new ≤ D.moment disk.old + 3 }

        // The same of both logs.
        ensures logs_stand { (before : Option (List CommitRecord)) (after : List CommitRecord) (synced : ℕ)
            → IsTrue D.tells → LogsStand (D.past disk.old) self.old before after synced
            → OnOk result (LogsStand (D.past disk.new) self.new before after (length after)) }
        ensures logs_kept { (before : Option (List CommitRecord)) (after : List CommitRecord) (synced : ℕ)
            → IsTrue D.tells → LogsStand (D.past disk.old) self.old before after synced
            → IsErrOf result LogErr.Memory → LogsStand (D.past disk.new) self.new before after synced }
        ensures logs_left { (before : Option (List CommitRecord)) (after : List CommitRecord) (synced : ℕ)
            → IsTrue D.tells → LogsStand (D.past disk.old) self.old before after synced
            → TwoLogs (commits_of before) after (length after) (reads (D.past disk.new)) }
        ensures logs_moments { (before : Option (List CommitRecord)) (after : List CommitRecord) (synced : ℕ)
            → IsTrue D.tells → LogsStand (D.past disk.old) self.old before after synced
            → Moments (Crashes (TwoLogs (commits_of before) after synced)) (D.past disk.old) (D.past disk.new) }
        ensures logs_sound { (before : Option (List CommitRecord)) (after : List CommitRecord) (synced : ℕ)
            → IsTrue D.tells → LogsStand (D.past disk.old) self.old before after synced
            → Moments AreSound (D.past disk.old) (D.past disk.new) }
    {
        self.log.close(disk)
    }

    /// Closes the log and calls it `PREVIOUS.LOG`, of which there must be none, and publishes a new one without
    /// commits. Where memory was wanting midway, the new one waits to be made.
    pub fn rotate<D: Disk>(&mut self, alloc: Global, disk: &mut D) -> Result<(), LogErr>
        requires log { IsTrue D.tells → IsLog (D.past disk.old) (handle self.old) }
        ensures log { IsTrue D.tells → OnOk result (IsLog (D.past disk.new) (handle self.new)) }
        ensures wanted { IsTrue D.tells → IsErrOf result LogErr.Memory → IsLog (D.past disk.new) (handle self.new) }
        ensures made { OnOk result ((self.new.waits ≡ false) × (self.new.closed ≡ true)) }
        ensures none { self.old.waits ≡ false → OnOk result (self.new.commits ≡ 0) }

        // At Ok PREVIOUS.LOG has all commits, and LATEST.LOG none, and a crash leaves exactly that. Where memory was
        // wanting `waits` tells which: all is as before, or PREVIOUS.LOG has all commits and the new log waits.
        ensures stands { (commits : List CommitRecord) (synced : ℕ) → IsTrue D.tells
            → LogsStand (D.past disk.old) self.old None commits synced
            → OnOk result (LogsStand (D.past disk.new) self.new (Some commits) [] 0) }
        ensures kept { (commits : List CommitRecord) (synced : ℕ) → IsTrue D.tells
            → LogsStand (D.past disk.old) self.old None commits synced → IsErrOf result LogErr.Memory
            → self.new.waits ≡ false → LogsStand (D.past disk.new) self.new None commits synced }
        ensures waiting { (commits : List CommitRecord) (synced : ℕ) → IsTrue D.tells
            → LogsStand (D.past disk.old) self.old None commits synced → IsErrOf result LogErr.Memory
            → self.new.waits ≡ true → LogsStand (D.past disk.new) self.new (Some commits) [] 0 }

        // Whatever it answers, the two files have all commits. At each moment a crash leaves the first ones of them,
        // and at least those that were synced, and PREVIOUS.LOG is not there or has all of them.
        ensures left { (commits : List CommitRecord) (synced : ℕ) → IsTrue D.tells
            → LogsStand (D.past disk.old) self.old None commits synced
            → Rotates commits (length commits) (reads (D.past disk.new)) }
        ensures any_moment { (commits : List CommitRecord) (synced : ℕ) → IsTrue D.tells
            → LogsStand (D.past disk.old) self.old None commits synced
            → Moments (Crashes (Rotates commits synced)) (D.past disk.old) (D.past disk.new) }
        ensures sound { (commits : List CommitRecord) (synced : ℕ) → IsTrue D.tells
            → LogsStand (D.past disk.old) self.old None commits synced
            → Moments AreSound (D.past disk.old) (D.past disk.new) }
        ensures calls { LogCalls D.Disk disk.old disk.new IsOfLogs OnlyFileOrMemory result }
    {
        if self.waits {
            return self.renew(alloc, disk);
        }
        self.retire(disk)?;
        self.renew(alloc, disk)
    }

    /// Takes `PREVIOUS.LOG` away where it is there, and makes the directory durable. Nothing else is changed, but that
    /// a log which waits for its file is published before.
    pub fn drop_previous<D: Disk>(&mut self, alloc: Global, disk: &mut D) -> Result<(), LogErr>
        requires log { IsTrue D.tells → IsLog (D.past disk.old) (handle self.old) }
        ensures log { IsTrue D.tells → OnOk result (IsLog (D.past disk.new) (handle self.new)) }
        ensures wanted { IsTrue D.tells → IsErrOf result LogErr.Memory → IsLog (D.past disk.new) (handle self.new) }
        ensures made { OnOk result (self.new.waits ≡ false) }
        ensures same { self.new.commits ≡ self.old.commits }
        ensures stays { self.old.waits ≡ false → self.new ≡ self.old }

        // At Ok the commits of LATEST.LOG are left. Where memory was wanting both logs stand, and the new one may be
        // made.
        ensures stands { (before : Option (List CommitRecord)) (after : List CommitRecord) (synced : ℕ)
            → IsTrue D.tells → LogsStand (D.past disk.old) self.old before after synced
            → OnOk result (LogsStand (D.past disk.new) self.new None after synced) }
        ensures kept { (before : Option (List CommitRecord)) (after : List CommitRecord) (synced : ℕ)
            → IsTrue D.tells → LogsStand (D.past disk.old) self.old before after synced
            → IsErrOf result LogErr.Memory → LogsStand (D.past disk.new) self.new before after synced }

        // At each moment a crash leaves the commits of both logs, or those of LATEST.LOG, as far as they are synced,
        // and so they read.
        ensures left { (before : Option (List CommitRecord)) (after : List CommitRecord) (synced : ℕ)
            → IsTrue D.tells → LogsStand (D.past disk.old) self.old before after synced
            → Drops (commits_of before) after (length after) (reads (D.past disk.new)) }
        ensures any_moment { (before : Option (List CommitRecord)) (after : List CommitRecord) (synced : ℕ)
            → IsTrue D.tells → LogsStand (D.past disk.old) self.old before after synced
            → Moments (Crashes (Drops (commits_of before) after synced)) (D.past disk.old) (D.past disk.new) }
        ensures sound { (before : Option (List CommitRecord)) (after : List CommitRecord) (synced : ℕ)
            → IsTrue D.tells → LogsStand (D.past disk.old) self.old before after synced
            → Moments AreSound (D.past disk.old) (D.past disk.new) }
        ensures calls { LogCalls D.Disk disk.old disk.new IsOfLogs OnlyFileOrMemory result }

        // It is the removal and its sync where the log waits for no file.
        ensures few { self.old.waits ≡ false → D.moment disk.new ≤ D.moment disk.old + 2 }
    {
        self.ready(alloc, disk)?;
        discard(disk, previous())
    }

    /// How many commits the log has.
    pub fn commits(&self) -> u64
        ensures { result ≡ self.now.commits }
    {
        self.commits
    }

    /// Whether it waits for its file to be made, since the one before it is called `PREVIOUS.LOG` already. The next
    /// `append` or `drop_previous` makes it.
    pub fn waits(&self) -> bool
        ensures { result ≡ self.now.waits }
    {
        self.waits
    }

    // Closes the log and gives it its other name. From then on the new one waits for its file.
    fn retire<D: Disk>(&mut self, disk: &mut D) -> Result<(), LogErr>
        requires log { IsTrue D.tells → IsLog (D.past disk.old) (handle self.old) }
        requires made { self.old.waits ≡ false }
        ensures ok { OnOk result (self.new ≡ record { commits = 0; closed = true; waits = true }) }
        ensures err { OnErr result (self.new.waits ≡ false) }
        ensures log { IsTrue D.tells → OnOk result (IsLog (D.past disk.new) (handle self.new)) }
        ensures wanted { IsTrue D.tells → IsErrOf result LogErr.Memory → IsLog (D.past disk.new) (handle self.new) }
        ensures stands { (commits : List CommitRecord) (synced : ℕ) → IsTrue D.tells
            → BothStand (D.past disk.old) self.old None commits synced
            → OnOk result (LogWaits (D.past disk.new) self.new commits) }
        ensures kept { (commits : List CommitRecord) (synced : ℕ) → IsTrue D.tells
            → BothStand (D.past disk.old) self.old None commits synced → IsErrOf result LogErr.Memory
            → BothStand (D.past disk.new) self.new None commits synced }
        ensures left { (commits : List CommitRecord) (synced : ℕ) → IsTrue D.tells
            → BothStand (D.past disk.old) self.old None commits synced
            → Rotates commits (length commits) (reads (D.past disk.new)) }
        ensures any_moment { (commits : List CommitRecord) (synced : ℕ) → IsTrue D.tells
            → BothStand (D.past disk.old) self.old None commits synced
            → Moments (Crashes (Rotates commits synced)) (D.past disk.old) (D.past disk.new) }
        ensures sound { (commits : List CommitRecord) (synced : ℕ) → IsTrue D.tells
            → BothStand (D.past disk.old) self.old None commits synced
            → Moments AreSound (D.past disk.old) (D.past disk.new) }
        ensures calls { LogCalls D.Disk disk.old disk.new IsOfLogs OnlyFileOrMemory result }
    {
        self.log.close(disk)?;
        self.log.rename(disk, previous())?;
        self.commits = 0;
        self.waits = true;
        Ok(())
    }

    // Publishes the file that the log waits for, without commits.
    fn renew<D: Disk>(&mut self, alloc: Global, disk: &mut D) -> Result<(), LogErr>
        requires log { IsTrue D.tells → IsLog (D.past disk.old) (handle self.old) }
        requires waits { self.old.waits ≡ true }
        ensures ok { OnOk result (self.new ≡ record { commits = self.old.commits; closed = true; waits = false }) }
        ensures err { OnErr result (self.new ≡ self.old) }
        ensures log { IsTrue D.tells → OnOk result (IsLog (D.past disk.new) (handle self.new)) }
        ensures wanted { IsTrue D.tells → IsErrOf result LogErr.Memory → IsLog (D.past disk.new) (handle self.new) }
        ensures stands { (commits : List CommitRecord) → IsTrue D.tells → LogWaits (D.past disk.old) self.old commits
            → OnOk result (BothStand (D.past disk.new) self.new (Some commits) [] 0) }
        ensures kept { (commits : List CommitRecord) → IsTrue D.tells → LogWaits (D.past disk.old) self.old commits
            → IsErrOf result LogErr.Memory → LogWaits (D.past disk.new) self.new commits }
        ensures left { (commits : List CommitRecord) → IsTrue D.tells → LogWaits (D.past disk.old) self.old commits
            → Rotates commits (length commits) (reads (D.past disk.new)) }
        ensures any_moment { (commits : List CommitRecord) → IsTrue D.tells
            → LogWaits (D.past disk.old) self.old commits
            → Moments (Crashes (Rotates commits (length commits))) (D.past disk.old) (D.past disk.new) }
        ensures sound { (commits : List CommitRecord) → IsTrue D.tells → LogWaits (D.past disk.old) self.old commits
            → Moments AreSound (D.past disk.old) (D.past disk.new) }
        ensures calls { LogCalls D.Disk disk.old disk.new IsLogName OnlyFileOrMemory result }
    {
        let mut log = Log::draft(alloc, disk, latest(), &HEAD_TEXT)?;
        log.publish(disk)?;
        self.log = log;
        self.waits = false;
        Ok(())
    }

    // Publishes the file of the log where it waits for one.
    fn ready<D: Disk>(&mut self, alloc: Global, disk: &mut D) -> Result<(), LogErr>
        requires log { IsTrue D.tells → IsLog (D.past disk.old) (handle self.old) }
        ensures nothing { self.old.waits ≡ false → (result ≡ Ok tt) × (self.new ≡ self.old) × (disk.new ≡ disk.old) }
        ensures open { self.old.closed ≡ false → self.old.waits ≡ false }
        ensures made { OnOk result (self.new.waits ≡ false) }
        ensures same { self.new.commits ≡ self.old.commits }
        ensures log { IsTrue D.tells → OnOk result (IsLog (D.past disk.new) (handle self.new)) }
        ensures wanted { IsTrue D.tells → IsErrOf result LogErr.Memory → IsLog (D.past disk.new) (handle self.new) }
        ensures stands { (before : Option (List CommitRecord)) (after : List CommitRecord) (synced : ℕ)
            → IsTrue D.tells → LogsStand (D.past disk.old) self.old before after synced
            → OnOk result (BothStand (D.past disk.new) self.new before after synced) }
        ensures kept { (before : Option (List CommitRecord)) (after : List CommitRecord) (synced : ℕ)
            → IsTrue D.tells → LogsStand (D.past disk.old) self.old before after synced
            → IsErrOf result LogErr.Memory → LogsStand (D.past disk.new) self.new before after synced }
        ensures left { (before : Option (List CommitRecord)) (after : List CommitRecord) (synced : ℕ)
            → IsTrue D.tells → LogsStand (D.past disk.old) self.old before after synced
            → TwoLogs (commits_of before) after (length after) (reads (D.past disk.new)) }
        ensures any_moment { (before : Option (List CommitRecord)) (after : List CommitRecord) (synced : ℕ)
            → IsTrue D.tells → LogsStand (D.past disk.old) self.old before after synced
            → Moments (Crashes (TwoLogs (commits_of before) after synced)) (D.past disk.old) (D.past disk.new) }
        ensures sound { (before : Option (List CommitRecord)) (after : List CommitRecord) (synced : ℕ)
            → IsTrue D.tells → LogsStand (D.past disk.old) self.old before after synced
            → Moments AreSound (D.past disk.old) (D.past disk.new) }
        ensures calls { LogCalls D.Disk disk.old disk.new (IsOwn self.old) OnlyFileOrMemory result }
    {
        if self.waits {
            return self.renew(alloc, disk);
        }
        Ok(())
    }
}

// Opens the log that was read.
fn resumed<D: Disk>(disk: &mut D, file: &CommitFile) -> Result<TxnLog, LogErr>
    requires read { IsTrue D.tells → reads (D.past disk.old) latest_name ≡ Some file.now.bytes }
    requires commits { (commits : List CommitRecord) × AreItemsOf commits file.now.items }
    ensures few { IfOk result (λ log. log.commits < 2 ^ 63) }
    ensures opens { IsTrue D.tells → Opens (D.past disk.old) (D.past disk.new) result }
    ensures trusted { (items : List (List ℕ)) → IsTrue D.tells
        → reads (D.past disk.old) latest_name ≡ Some (log_bytes true items)
        → IsOk result × (disk.new ≡ disk.old) }
    ensures named { (name : List ℕ) → IsErrOf result (LogErr.File name) → IsLogName name }
    ensures only { OnlyFileOrMemory result }
    ensures time { D.moment disk.old ≤ D.moment disk.new }
    ensures cause { LogCause (D.faults disk.old) (D.faults disk.new) (D.blamed disk.new) result }
{
    match Log::resume(disk, latest(), file.file()) {
        Ok(log) => Ok(TxnLog {
            log,
            commits: file.len() as u64,
            waits: false,
        }),
        Err(error) => Err(error),
    }
}

// Publishes a log without commits.
fn made<D: Disk>(alloc: Global, disk: &mut D) -> Result<TxnLog, LogErr>
    requires { IsTrue D.tells → IsAbsent (D.past disk.old) latest_name }
    ensures few { IfOk result (λ log. log.commits < 2 ^ 63) }
    ensures opens { IsTrue D.tells → Opens (D.past disk.old) (D.past disk.new) result }
    ensures named { (name : List ℕ) → IsErrOf result (LogErr.File name) → IsLogName name }
    ensures only { OnlyFileOrMemory result }
    ensures time { D.moment disk.old ≤ D.moment disk.new }
    ensures cause { LogCause (D.faults disk.old) (D.faults disk.new) (D.blamed disk.new) result }
{
    let mut log = match Log::draft(alloc, disk, latest(), &HEAD_TEXT) {
        Ok(log) => log,
        Err(error) => return Err(error),
    };
    match log.publish(disk) {
        Ok(()) => Ok(TxnLog {
            log,
            commits: 0,
            waits: false,
        }),
        Err(error) => Err(error),
    }
}
