//! Ops on a table's records are put into the file that keeps them.

ghost use Rattle.std.specs.Prelude.{◌≡◌, ◌++◌, ◌≤◌, ◌+◌, ℕ, List, true, false, length, Option, Some, IsTrue, IsErrOf, OnOk};
ghost use Rattle.file_trait.specs.DiskModel.{reads, Crashes};
ghost use Rattle.file_trait.specs.Moments.{Moments};
ghost use Rattle.log_items.specs.Items.{wire, AreContents};
ghost use Rattle.disk_logs.specs.Calls.{LogCalls};
ghost use Rattle.disk_logs.specs.Errors.{OnlyFileOrMemory};
ghost use Rattle.disk_logs.specs.Logs.{IsLog, AreItems};
ghost use Rattle.disk_logs.specs.Rests.{Rests};
ghost use Rattle.store_files.specs.Names.{dcl_of};
ghost use Rattle.store_files.specs.Pairs.{beside, AreSound, FilesHave};
ghost use Rattle.store_files.specs.Writers.{dcl_handle, DclStands};

use disk_logs::{Log, LogErr};
use file_trait::Disk;
use std::marker::Model;

/// The file of the ops that are to be done on a table's records.
#[derive(Drop)]
pub struct DclWriter {
    log: Log,
}

impl Model for DclWriter {
    ghost use Rattle.std.specs.Prelude.{◌≡◌, ◌-◌, length, take};
    ghost use Rattle.store_files.specs.Writers.{DclState, dcl_handle};

    ghost Value = { DclState };

    // The table's name is that of its file but for the four bytes of the ending.
    ghost view = { λ w. record { table = take (length w.log.name - 4) w.log.name; closed = w.log.closed } };

    ghost invariant = { λ w. w.log
        ≡ dcl_handle (record { table = take (length w.log.name - 4) w.log.name; closed = w.log.closed }) };
}

impl DclWriter {
    /// Puts whole items, one behind the other as `change_item` makes them, behind those of the file. A file that is
    /// closed is marked open and synced first.
    pub fn append<D: Disk>(&mut self, disk: &mut D, items: &[u8]) -> Result<(), LogErr>
        requires log { IsTrue D.tells → IsLog (D.past disk.old) (dcl_handle self.old) }
        requires items { AreItems items.now }
        ensures table { self.new.table ≡ self.old.table }
        ensures log { IsTrue D.tells → OnOk result (IsLog (D.past disk.new) (dcl_handle self.new)) }
        ensures wanted { IsTrue D.tells → IsErrOf result LogErr.Memory → IsLog (D.past disk.new) (dcl_handle self.new) }

        // At Ok the items stand behind the old ones, and as many as before are synced. Where memory was wanting all is
        // as before.
        ensures stands { (records : Option (List (List ℕ))) (all more : List (List ℕ)) (synced : ℕ) → IsTrue D.tells
            → AreContents more → items.now ≡ wire more → DclStands (D.past disk.old) self.old records all synced
            → OnOk result (DclStands (D.past disk.new) self.new records (all ++ more) synced) }
        ensures kept { (records : Option (List (List ℕ))) (all : List (List ℕ)) (synced : ℕ) → IsTrue D.tells
            → DclStands (D.past disk.old) self.old records all synced → IsErrOf result LogErr.Memory
            → DclStands (D.past disk.new) self.new records all synced }

        // At each moment a crash leaves the records and the first ones of the old items and the new, and at least those
        // that were synced. Where memory was wanting it leaves only old ones.
        ensures any_moment { (records : Option (List (List ℕ))) (all more : List (List ℕ)) (synced : ℕ)
            → IsTrue D.tells → AreContents more → items.now ≡ wire more
            → DclStands (D.past disk.old) self.old records all synced
            → Moments (Crashes (FilesHave self.old.table (beside records (all ++ more) synced)))
            (D.past disk.old) (D.past disk.new) }
        ensures only_old { (records : Option (List (List ℕ))) (all : List (List ℕ)) (synced : ℕ) → IsTrue D.tells
            → DclStands (D.past disk.old) self.old records all synced → IsErrOf result LogErr.Memory
            → Moments (Crashes (FilesHave self.old.table (beside records all synced)))
            (D.past disk.old) (D.past disk.new) }
        ensures sound { (records : Option (List (List ℕ))) (all : List (List ℕ)) (synced : ℕ) → IsTrue D.tells
            → DclStands (D.past disk.old) self.old records all synced
            → Moments (AreSound self.old.table) (D.past disk.old) (D.past disk.new) }
        ensures calls { LogCalls D.Disk disk.old disk.new (λ n. n ≡ dcl_of self.old.table) OnlyFileOrMemory result }
        ensures few { D.moment disk.new ≤ D.moment disk.old + 3 }
    {
        self.log.append(disk, items)
    }

    /// Makes all items durable and closes the file. Where memory was wanting it may be called again. Where the file is
    /// closed this cannot fail, and nothing is done.
    pub fn finish<D: Disk>(&mut self, disk: &mut D) -> Result<(), LogErr>
        requires log { IsTrue D.tells → IsLog (D.past disk.old) (dcl_handle self.old) }
        ensures table { self.new.table ≡ self.old.table }
        ensures closed { OnOk result (self.new.closed ≡ true) }
        ensures log { IsTrue D.tells → OnOk result (IsLog (D.past disk.new) (dcl_handle self.new)) }
        ensures wanted { IsTrue D.tells → IsErrOf result LogErr.Memory → IsLog (D.past disk.new) (dcl_handle self.new) }

        // At Ok all items are synced and the file rests. Where memory was wanting all is as before.
        ensures stands { (records : Option (List (List ℕ))) (items : List (List ℕ)) (synced : ℕ) → IsTrue D.tells
            → DclStands (D.past disk.old) self.old records items synced
            → OnOk result (DclStands (D.past disk.new) self.new records items (length items)) }
        ensures rests { (records : Option (List (List ℕ))) (items : List (List ℕ)) (synced : ℕ) → IsTrue D.tells
            → DclStands (D.past disk.old) self.old records items synced
            → OnOk result (Rests (D.past disk.new) (dcl_of self.old.table) (Some items)) }
        ensures kept { (records : Option (List (List ℕ))) (items : List (List ℕ)) (synced : ℕ) → IsTrue D.tells
            → DclStands (D.past disk.old) self.old records items synced → IsErrOf result LogErr.Memory
            → DclStands (D.past disk.new) self.new records items synced }

        // At each moment a crash leaves the records and the first ones of the items, and at least those that were
        // synced.
        ensures any_moment { (records : Option (List (List ℕ))) (items : List (List ℕ)) (synced : ℕ) → IsTrue D.tells
            → DclStands (D.past disk.old) self.old records items synced
            → Moments (Crashes (FilesHave self.old.table (beside records items synced)))
            (D.past disk.old) (D.past disk.new) }
        ensures sound { (records : Option (List (List ℕ))) (items : List (List ℕ)) (synced : ℕ) → IsTrue D.tells
            → DclStands (D.past disk.old) self.old records items synced
            → Moments (AreSound self.old.table) (D.past disk.old) (D.past disk.new) }
        ensures calls { LogCalls D.Disk disk.old disk.new (λ n. n ≡ dcl_of self.old.table) OnlyFileOrMemory result }
        ensures few { D.moment disk.new ≤ D.moment disk.old + 3 }
    {
        self.log.close(disk)
    }
}
