//! Files are taken away.

ghost use Rattle.std.specs.Prelude.{◌≡◌, ◌≤◌, ◌+◌, IsTrue, IsErrOf, OnOk};
ghost use Rattle.file_trait.specs.Calls.{IsDirDurable};
ghost use Rattle.file_trait.specs.Moments.{Moments};
ghost use Rattle.disk_logs.specs.Calls.{LogCalls};
ghost use Rattle.disk_logs.specs.Crash.{IsSound};
ghost use Rattle.disk_logs.specs.Errors.{OnlyFileOrMemory};
ghost use Rattle.disk_logs.specs.Rests.{IsGone, OldOrRemoved};

use crate::LogErr;
use crate::error::told;
use crate::log::clear;
use file_trait::{Disk, FileName};

/// Takes the file away where it is there, and makes the directory durable.
pub fn discard<D: Disk>(disk: &mut D, name: FileName) -> Result<(), LogErr>
    ensures gone { IsTrue D.tells → OnOk result (IsGone (D.past disk.new) name) }
    ensures directory { IsTrue D.tells → OnOk result (IsDirDurable (D.past disk.new)) }

    // Where memory was wanting nothing was done.
    ensures wanted { IsTrue D.tells → IsErrOf result LogErr.Memory → D.past disk.new ≡ D.past disk.old }

    // At each moment a crash leaves what it could leave before, or could once the file is gone.
    ensures images { IsTrue D.tells
        → Moments (OldOrRemoved (D.past disk.old) name) (D.past disk.old) (D.past disk.new) }
    // A closed log of the name may be trusted as before.
    ensures sound { IsTrue D.tells → IsSound (D.past disk.old) name
        → Moments (λ past. IsSound past name) (D.past disk.old) (D.past disk.new) }
    ensures calls { LogCalls D.Disk disk.old disk.new (λ n. n ≡ name) OnlyFileOrMemory result }
    ensures few { D.moment disk.new ≤ D.moment disk.old + 2 }
{
    clear(disk, name)?;
    told(name, disk.sync_dir())
}
