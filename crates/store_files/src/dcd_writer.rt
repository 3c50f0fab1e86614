//! New records of a table are put in the place of its files.

ghost use Rattle.std.specs.Prelude.{◌≡◌, ◌++◌, ◌∷◌, [], ℕ, List, true, false, codes, IsTrue, IfOk, IsErrOf, OnOk, OnErr};
ghost use Rattle.file_trait.specs.Calls.{IsDirDurable};
ghost use Rattle.file_trait.specs.DiskModel.{reads, Crashes};
ghost use Rattle.file_trait.specs.Moments.{Moments};
ghost use Rattle.log_items.specs.Items.{wire, AreContents};
ghost use Rattle.disk_logs.specs.Calls.{LogCalls};
ghost use Rattle.disk_logs.specs.Errors.{OnlyFileOrMemory};
ghost use Rattle.disk_logs.specs.Logs.{draft_name, IsLog, AreItems};
ghost use Rattle.db_model.specs.Names.{IsTableName};
ghost use Rattle.store_files.specs.Forms.{IsHead};
ghost use Rattle.store_files.specs.Names.{dcd_of};
ghost use Rattle.store_files.specs.Pairs.{TableFiles, records_alone, FilesStand, AreSound, OldOrNew, IsSwapped, IsFileOf, IsOfTable};
ghost use Rattle.store_files.specs.Writers.{dcd_handle, DcdStands};

use crate::heads::dcd_head;
use crate::names::{dcd_name, dcl_name};
use db_model::TableDef;
use disk_logs::{Log, LogErr, discard};
use file_trait::{Disk, FileName};
use std::alloc::Global;
use std::marker::Model;

/// The file of new records of a table. It is a draft until it takes the place of the old one.
#[derive(Drop)]
pub struct DcdWriter {
    log: Log,
    dcl: FileName,
    published: bool,
}

impl Model for DcdWriter {
    ghost use Rattle.std.specs.Prelude.{◌≡◌, ◌-◌, length, take};
    ghost use Rattle.store_files.specs.Names.{dcl_of};
    ghost use Rattle.store_files.specs.Writers.{DcdState, dcd_handle};

    ghost Value = { DcdState };

    // The table's name is that of its file but for the four bytes of the ending.
    ghost view = { λ w. record { table = take (length w.dcl - 4) w.dcl; published = w.published } };

    ghost invariant = { λ w. (w.dcl ≡ dcl_of (take (length w.dcl - 4) w.dcl))
        × (w.log ≡ dcd_handle (record { table = take (length w.dcl - 4) w.dcl; published = w.published })) };
}

impl DcdWriter {
    /// Makes a draft without records. An older one is removed.
    pub fn start<D: Disk>(alloc: Global, disk: &mut D, def: &TableDef) -> Result<DcdWriter, LogErr>
        requires named { IsTableName def.now.name }
        ensures writer { IfOk result (λ writer. writer ≡ record { table = def.now.name; published = false }) }
        ensures log { IsTrue D.tells → IfOk result (λ writer. IsLog (D.past disk.new) (dcd_handle writer)) }

        // At Ok the draft stands with its first item beside the files of the table, which stand as before at each
        // moment.
        ensures stands { (files : TableFiles) → IsTrue D.tells → FilesStand (D.past disk.old) def.now.name files
            → IfOk result (λ writer. (head : List ℕ) × IsHead (codes "dcd") def.now.cookie head
            × DcdStands (D.past disk.new) writer files (head ∷ [])) }
        ensures beside { (files : TableFiles) → IsTrue D.tells → FilesStand (D.past disk.old) def.now.name files
            → Moments (λ past. FilesStand past def.now.name files) (D.past disk.old) (D.past disk.new) }
        ensures calls { LogCalls D.Disk disk.old disk.new (λ n. n ≡ draft_name (dcd_of def.now.name))
            OnlyFileOrMemory result }
    {
        let name = dcd_name(&def.name);
        let dcl = dcl_name(&def.name);
        let head = dcd_head(alloc, def.cookie)?;
        let log = Log::draft(alloc, disk, name, &head)?;
        Ok(DcdWriter {
            log,
            dcl,
            published: false,
        })
    }

    /// Puts whole items, one behind the other as `record_item` makes them, behind those of the draft.
    pub fn append<D: Disk>(&mut self, disk: &mut D, items: &[u8]) -> Result<(), LogErr>
        requires log { IsTrue D.tells → IsLog (D.past disk.old) (dcd_handle self.old) }
        requires draft { self.old.published ≡ false }
        requires items { AreItems items.now }
        ensures same { self.new ≡ self.old }
        ensures log { IsTrue D.tells → OnOk result (IsLog (D.past disk.new) (dcd_handle self.new)) }
        ensures wanted { IsTrue D.tells → IsErrOf result LogErr.Memory → D.past disk.new ≡ D.past disk.old }

        // At Ok the items stand behind the old ones, beside the files of the table, which stand as before at each
        // moment. Where memory was wanting nothing was done.
        ensures stands { (files : TableFiles) (all more : List (List ℕ)) → IsTrue D.tells → AreContents more
            → items.now ≡ wire more → DcdStands (D.past disk.old) self.old files all
            → OnOk result (DcdStands (D.past disk.new) self.new files (all ++ more)) }
        ensures beside { (files : TableFiles) → IsTrue D.tells → FilesStand (D.past disk.old) self.old.table files
            → Moments (λ past. FilesStand past self.old.table files) (D.past disk.old) (D.past disk.new) }
        ensures calls { LogCalls D.Disk disk.old disk.new (λ n. n ≡ draft_name (dcd_of self.old.table))
            OnlyFileOrMemory result }
    {
        self.log.append(disk, items)
    }

    /// Puts the new records in the place of the old ones, and takes the ops away. Where memory was wanting it may be
    /// called again, and does what is left.
    pub fn swap<D: Disk>(&mut self, disk: &mut D) -> Result<(), LogErr>
        requires log { IsTrue D.tells → IsLog (D.past disk.old) (dcd_handle self.old) }
        ensures table { self.new.table ≡ self.old.table }
        ensures published { OnOk result (self.new.published ≡ true) }
        ensures log { IsTrue D.tells → OnOk result (IsLog (D.past disk.new) (dcd_handle self.new)) }
        ensures wanted { IsTrue D.tells → IsErrOf result LogErr.Memory → IsLog (D.past disk.new) (dcd_handle self.new) }

        // At Ok the new records stand alone, and a crash leaves exactly that. Where memory was wanting the old files
        // stand, or the new records beside the old ops.
        ensures stands { (files : TableFiles) (items : List (List ℕ)) → IsTrue D.tells
            → DcdStands (D.past disk.old) self.old files items
            → OnOk result (FilesStand (D.past disk.new) self.old.table (records_alone items)) }
        ensures kept { (files : TableFiles) (items : List (List ℕ)) → IsTrue D.tells
            → DcdStands (D.past disk.old) self.old files items → IsErrOf result LogErr.Memory
            → DcdStands (D.past disk.new) self.new files items }

        // At each moment a crash leaves the old files, the new records beside the old ops, or the new records alone,
        // and so they read.
        ensures any_moment { (files : TableFiles) (items : List (List ℕ)) → IsTrue D.tells
            → DcdStands (D.past disk.old) self.old files items
            → Moments (Crashes (IsSwapped self.old.table files items)) (D.past disk.old) (D.past disk.new) }
        ensures left { (files : TableFiles) (items : List (List ℕ)) → IsTrue D.tells
            → DcdStands (D.past disk.old) self.old files items
            → IsSwapped self.old.table files items (reads (D.past disk.new)) }
        ensures sound { (files : TableFiles) (items : List (List ℕ)) → IsTrue D.tells
            → DcdStands (D.past disk.old) self.old files items
            → Moments (AreSound self.old.table) (D.past disk.old) (D.past disk.new) }
        ensures directory { IsTrue D.tells → OnOk result (IsDirDurable (D.past disk.new)) }
        ensures calls { LogCalls D.Disk disk.old disk.new (IsOfTable self.old.table) OnlyFileOrMemory result }
    {
        self.publish(disk)?;
        discard(disk, self.dcl)
    }

    // Puts the new records in the place of the old ones, where that is not done yet.
    fn publish<D: Disk>(&mut self, disk: &mut D) -> Result<(), LogErr>
        requires log { IsTrue D.tells → IsLog (D.past disk.old) (dcd_handle self.old) }
        ensures ok { OnOk result (self.new ≡ record { table = self.old.table; published = true }) }
        ensures err { OnErr result (self.new ≡ self.old) }
        ensures log { IsTrue D.tells → OnOk result (IsLog (D.past disk.new) (dcd_handle self.new)) }
        ensures wanted { IsTrue D.tells → IsErrOf result LogErr.Memory → IsLog (D.past disk.new) (dcd_handle self.new) }
        ensures stands { (files : TableFiles) (items : List (List ℕ)) → IsTrue D.tells
            → DcdStands (D.past disk.old) self.old files items
            → OnOk result (DcdStands (D.past disk.new) self.new files items) }
        ensures kept { (files : TableFiles) (items : List (List ℕ)) → IsTrue D.tells
            → DcdStands (D.past disk.old) self.old files items → IsErrOf result LogErr.Memory
            → DcdStands (D.past disk.new) self.new files items }
        ensures any_moment { (files : TableFiles) (items : List (List ℕ)) → IsTrue D.tells
            → DcdStands (D.past disk.old) self.old files items
            → Moments (Crashes (OldOrNew self.old.table files items)) (D.past disk.old) (D.past disk.new) }
        ensures sound { (files : TableFiles) (items : List (List ℕ)) → IsTrue D.tells
            → DcdStands (D.past disk.old) self.old files items
            → Moments (AreSound self.old.table) (D.past disk.old) (D.past disk.new) }
        ensures calls { LogCalls D.Disk disk.old disk.new (IsFileOf (dcd_of self.old.table)) OnlyFileOrMemory result }
    {
        if self.published {
            return Ok(());
        }
        self.log.publish(disk)?;
        self.published = true;
        Ok(())
    }
}
