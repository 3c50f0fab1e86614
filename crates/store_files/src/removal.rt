//! The files of a table are taken away.

ghost use Rattle.std.specs.Prelude.{◌≡◌, ◌⊎◌, ◌≤◌, ◌+◌, IsTrue, IsErrOf, OnOk};
ghost use Rattle.file_trait.specs.Calls.{IsDirDurable};
ghost use Rattle.file_trait.specs.DiskModel.{reads, Crashes};
ghost use Rattle.file_trait.specs.Moments.{Moments};
ghost use Rattle.disk_logs.specs.Calls.{LogCalls};
ghost use Rattle.disk_logs.specs.Errors.{OnlyFileOrMemory};
ghost use Rattle.db_model.specs.Names.{IsTableName};
ghost use Rattle.store_files.specs.Pairs.{TableFiles, changes_alone, no_files, FilesStand, AreSound, IsRemoved, IsOfTable};

use crate::names::{dcd_name, dcl_name};
use disk_logs::{LogErr, discard};
use file_trait::Disk;
use term_core::Atom;

/// Takes both files of a table away where they are there, and makes the directory durable.
pub fn remove_table<D: Disk>(disk: &mut D, table: &Atom) -> Result<(), LogErr>
    requires named { IsTableName table.now }

    // At Ok there is none of them, whatever a crash leaves. Where memory was wanting they stand as before, or the ops
    // alone do.
    ensures stands { IsTrue D.tells → OnOk result (FilesStand (D.past disk.new) table.now no_files) }
    ensures kept { (files : TableFiles) → IsTrue D.tells → FilesStand (D.past disk.old) table.now files
        → IsErrOf result LogErr.Memory → FilesStand (D.past disk.new) table.now files
        ⊎ FilesStand (D.past disk.new) table.now (changes_alone files) }

    // At each moment a crash leaves both, the ops alone, or none, and so they read.
    ensures any_moment { (files : TableFiles) → IsTrue D.tells → FilesStand (D.past disk.old) table.now files
        → Moments (Crashes (IsRemoved table.now files)) (D.past disk.old) (D.past disk.new) }
    ensures left { (files : TableFiles) → IsTrue D.tells → FilesStand (D.past disk.old) table.now files
        → IsRemoved table.now files (reads (D.past disk.new)) }
    ensures sound { IsTrue D.tells → AreSound table.now (D.past disk.old)
        → Moments (AreSound table.now) (D.past disk.old) (D.past disk.new) }
    ensures directory { IsTrue D.tells → OnOk result (IsDirDurable (D.past disk.new)) }
    ensures calls { LogCalls D.Disk disk.old disk.new (IsOfTable table.now) OnlyFileOrMemory result }
    ensures few { D.moment disk.new ≤ D.moment disk.old + 4 }
{
    discard(disk, dcd_name(table))?;
    discard(disk, dcl_name(table))
}
