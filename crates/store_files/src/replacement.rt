//! A file is put in the place of another.

ghost use Rattle.std.specs.Prelude.{◌≡◌, ◌⊎◌, ◌≤◌, ◌∷◌, ℕ, List, true, Option, Some, length, IsTrue, IfOk, IsErrOf, OnOk};
ghost use Rattle.file_trait.specs.Calls.{IsThere, IsDirDurable};
ghost use Rattle.file_trait.specs.DiskModel.{reads, Crashes};
ghost use Rattle.file_trait.specs.Moments.{Moments};
ghost use Rattle.file_trait.specs.Name.{IsName};
ghost use Rattle.log_items.specs.Items.{wire, log_bytes, IsContent, AreContents};
ghost use Rattle.disk_logs.specs.Calls.{LogCalls};
ghost use Rattle.disk_logs.specs.Crash.{DraftStands, IsSound};
ghost use Rattle.disk_logs.specs.Errors.{OnlyFileOrMemory};
ghost use Rattle.disk_logs.specs.Logs.{draft_name, AreItems};
ghost use Rattle.disk_logs.specs.Rests.{FileHas, Rests};
ghost use Rattle.store_files.specs.Pairs.{IsFileOf};

use disk_logs::{Log, LogErr};
use file_trait::{Disk, FileName};
use std::alloc::Global;

/// Puts a file with a first item and whole items, one behind the other, in the place of what has the name.
pub(crate) fn replace<D: Disk>(
    alloc: Global,
    disk: &mut D,
    name: FileName,
    head: &[u8],
    items: &[u8],
) -> Result<(), LogErr>
    requires short { length name ≤ 77 }
    requires valid { IsName name }
    requires head { IsContent head.now }
    requires items { AreItems items.now }

    // At Ok the new file rests. Where memory was wanting the old one does.
    ensures stands { (more : List (List ℕ)) → IsTrue D.tells → AreContents more → items.now ≡ wire more
        → OnOk result (Rests (D.past disk.new) name (Some (head.now ∷ more))) }
    ensures kept { (file : Option (List (List ℕ))) → IsTrue D.tells → Rests (D.past disk.old) name file
        → IsErrOf result LogErr.Memory → Rests (D.past disk.new) name file }

    // At each moment a crash leaves the old file or the new one, and so it reads.
    ensures any_moment { (file : Option (List (List ℕ))) (more : List (List ℕ)) → IsTrue D.tells → AreContents more
        → items.now ≡ wire more → Rests (D.past disk.old) name file
        → Moments (Crashes (λ image. FileHas file (image name) ⊎ FileHas (Some (head.now ∷ more)) (image name)))
        (D.past disk.old) (D.past disk.new) }
    ensures sound { IsTrue D.tells → IsSound (D.past disk.old) name
        → Moments (λ past. IsSound past name) (D.past disk.old) (D.past disk.new) }
    ensures directory { IsTrue D.tells → OnOk result (IsDirDurable (D.past disk.new)) }
    ensures calls { LogCalls D.Disk disk.old disk.new (IsFileOf name) OnlyFileOrMemory result }
{
    let mut log = drafted(alloc, disk, name, head, items)?;
    log.publish(disk)
}

// The draft of such a file.
fn drafted<D: Disk>(
    alloc: Global,
    disk: &mut D,
    name: FileName,
    head: &[u8],
    items: &[u8],
) -> Result<Log, LogErr>
    requires short { length name ≤ 77 }
    requires valid { IsName name }
    requires head { IsContent head.now }
    requires items { AreItems items.now }
    ensures log { IfOk result (λ log. log ≡ record { name = name; draft = true; closed = true }) }
    ensures there { IsTrue D.tells → OnOk result (IsThere (D.past disk.new) (draft_name name)) }
    ensures made { (more : List (List ℕ)) → IsTrue D.tells → items.now ≡ wire more
        → OnOk result (DraftStands (D.past disk.new) (draft_name name) (log_bytes true (head.now ∷ more))) }
    ensures calls { LogCalls D.Disk disk.old disk.new (λ n. n ≡ draft_name name) OnlyFileOrMemory result }
{
    let mut log = Log::draft(alloc, disk, name, head)?;
    log.append(disk, items)?;
    Ok(log)
}
