//! A log over a disk.

ghost use Rattle.std.specs.Prelude.{◌≡◌, ◌≢◌, ◌⊎◌, ℕ, ◌≤◌, ◌&&◌, Bool, true, false, not, List, [], ◌∷◌, ◌++◌, ◌+◌, ◌<◌, ◌^◌, ◌↔◌, length, take, None, Some, Ok, IsTrue, IsOk, IfOk, IfErr, OnOk, OnErr, IsErrOf};
ghost use Rattle.file_trait.specs.DiskModel.{reads, Crashes, IsSettled};
ghost use Rattle.file_trait.specs.Calls.{IsThere, IsAbsent, Has, IsDurable, IsDirDurable};
ghost use Rattle.file_trait.specs.Moments.{Moments};
ghost use Rattle.file_trait.specs.Name.{IsName};
ghost use Rattle.file_trait.specs.Touched.{Touches};
ghost use Rattle.disk_logs.specs.Calls.{LogCalls};
ghost use Rattle.disk_logs.specs.Crash.{Stands, DraftStands, IsSound, LogLeaves, IsSafe, OldOrWhole, OldOrPublished, OldOrItems};
ghost use Rattle.disk_logs.specs.Errors.{OnlyFile, OnlyFileOrMemory, LogCause};
ghost use Rattle.disk_logs.specs.Logs.{draft_name as name_of_draft, file_of, with_mark, opened, IsLog, AreItems, HasAppended, HasMarked, SetsMark, mark_bytes as bytes_of_mark, IsKept, IsMoved, HasPart};
ghost use Rattle.disk_logs.specs.Rests.{Rests, Cleared, IsRenamed, UnderOne};
ghost use Rattle.log_items.specs.Items.{wire, log_bytes, AreContents, HasItems};

use crate::error::{told, wrote};
use crate::{LogErr, LogFile};
use file_trait::{Disk, FileName};
use log_items::{head, put_head, put_item};
use std::alloc::Global;
use std::marker::Model;

/// A log. Its file is a draft until it is published, and then has the log's name.
#[derive(Drop)]
pub struct Log {
    name: FileName,
    file: FileName,
    draft: bool,
    closed: bool,
}

impl Model for Log {
    ghost use Rattle.std.specs.Prelude.{◌≡◌};
    ghost use Rattle.disk_logs.specs.Logs.{Handle, file_of};

    ghost Value = { Handle };

    ghost view = { λ l. record { name = l.name; draft = l.draft; closed = l.closed } };

    ghost invariant = { λ l. l.file ≡ file_of (record { name = l.name; draft = l.draft; closed = l.closed }) };
}

impl Log {
    /// Makes a draft of a log with a first item, and its mark says closed. An older draft of the name is removed. It is
    /// `TooLong` where the item has more than 2^28 bytes.
    pub fn draft<D: Disk>(
        alloc: Global,
        disk: &mut D,
        name: FileName,
        head_item: &[u8],
    ) -> Result<Log, LogErr>
        requires short { length name ≤ 77 }
        requires valid { IsName name }
        ensures log { IfOk result (λ log. log ≡ record { name = name; draft = true; closed = true }) }
        ensures made { IsTrue D.tells → OnOk result (DraftStands (D.past disk.new) (name_of_draft name) (log_bytes true (head_item.now ∷ []))) }
        ensures reads { IsTrue D.tells → OnOk result (reads (D.past disk.new) (name_of_draft name) ≡ Some (log_bytes true (head_item.now ∷ []))) }
        ensures left { IsTrue D.tells → OnErr result (HasPart (log_bytes true (head_item.now ∷ [])) (reads (D.past disk.old) (name_of_draft name)) (reads (D.past disk.new) (name_of_draft name))) }
        ensures long { IsErrOf result LogErr.TooLong ↔ (2 ^ 28 < length head_item.now) }
        ensures calls { LogCalls D.Disk disk.old disk.new (λ n. n ≡ name_of_draft name)
            (λ r. length head_item.now ≤ 2 ^ 28 → OnlyFileOrMemory r) result }
    {
        let file = draft_name(name);
        let bytes = draft_bytes(alloc, head_item)?;
        make(disk, file, &bytes)?;
        Ok(Log {
            name,
            file,
            draft: true,
            closed: true,
        })
    }

    /// Makes the draft durable and gives it the log's name. An earlier file of that name is gone.
    pub fn publish<D: Disk>(&mut self, disk: &mut D) -> Result<(), LogErr>
        requires draft { IsTrue self.old.draft }
        requires there { IsTrue D.tells → IsThere (D.past disk.old) (name_of_draft self.old.name) }
        ensures log { OnOk result (self.new ≡ record { name = self.old.name; draft = false; closed = self.old.closed }) }
        ensures err { OnErr result (self.new ≡ self.old) }
        ensures moved { IsTrue D.tells → OnOk result (IsMoved (name_of_draft self.old.name) self.old.name (D.past disk.old) (D.past disk.new)) }

        // After an error the draft may have the name already, but not where memory was wanting.
        ensures left { IsTrue D.tells → OnErr result (IsKept (name_of_draft self.old.name) self.old.name (D.past disk.old) (D.past disk.new) ⊎ IsMoved (name_of_draft self.old.name) self.old.name (D.past disk.old) (D.past disk.new)) }
        ensures memory { IsTrue D.tells → IsErrOf result LogErr.Memory → IsKept (name_of_draft self.old.name) self.old.name (D.past disk.old) (D.past disk.new) }

        // Where memory was wanting nothing was done but that the draft was made durable.
        ensures wanted { IsTrue D.tells → IsErrOf result LogErr.Memory → Touches (λ n. ⊥) (D.past disk.old) (D.past disk.new) }

        // At Ok all items of the draft are durable under the name, and so is its mark. At each moment a crash leaves
        // under it what it could leave before, or the whole draft.
        ensures stands { (items : List (List ℕ)) → IsTrue D.tells → AreContents items → DraftStands (D.past disk.old) (name_of_draft self.old.name) (log_bytes self.old.closed items)
            → OnOk result (Stands (D.past disk.new) self.new items (length items)) }
        ensures durable { (whole : List ℕ) → IsTrue D.tells → DraftStands (D.past disk.old) (name_of_draft self.old.name) whole → OnOk result (IsDurable (D.past disk.new) self.old.name) }
        ensures any_moment { (whole : List ℕ) → IsTrue D.tells → DraftStands (D.past disk.old) (name_of_draft self.old.name) whole
            → Moments (OldOrWhole (D.past disk.old) self.old.name whole) (D.past disk.old) (D.past disk.new) }
        ensures sound { (items : List (List ℕ)) → IsTrue D.tells → AreContents items → DraftStands (D.past disk.old) (name_of_draft self.old.name) (log_bytes self.old.closed items)
            → IsSound (D.past disk.old) self.old.name → Moments (λ past. IsSound past self.old.name) (D.past disk.old) (D.past disk.new) }

        // Where it leaves the whole draft, the directory has all that was done to it. At Ok it always has.
        ensures images { (whole : List ℕ) → IsTrue D.tells → DraftStands (D.past disk.old) (name_of_draft self.old.name) whole
            → Moments (OldOrPublished (D.past disk.old) (name_of_draft self.old.name) self.old.name whole) (D.past disk.old) (D.past disk.new) }
        ensures directory { IsTrue D.tells → OnOk result (IsDirDurable (D.past disk.new)) }
        ensures calls { LogCalls D.Disk disk.old disk.new
            (λ n. (n ≡ self.old.name) ⊎ (n ≡ name_of_draft self.old.name)) OnlyFileOrMemory result }
        ensures few { D.moment disk.new ≤ D.moment disk.old + 3 }
    {
        let draft = self.file;
        told(draft, disk.sync(draft))?;
        told(draft, disk.rename(draft, self.name))?;
        told(self.name, disk.sync_dir())?;
        self.file = self.name;
        self.draft = false;
        Ok(())
    }

    /// Puts whole items, one behind the other as `put_item` makes them, behind those of the file. A log that is
    /// published and says closed is opened first: marked open and synced, so that no crash leaves a closed mark beside
    /// what is appended.
    pub fn append<D: Disk>(&mut self, disk: &mut D, items: &[u8]) -> Result<(), LogErr>
        requires log { IsTrue D.tells → IsLog (D.past disk.old) self.old }
        requires items { AreItems items.now }
        ensures log { OnOk result (self.new ≡ opened self.old) }
        ensures err { OnErr result ((self.new ≡ self.old) ⊎ (self.new ≡ opened self.old)) }
        ensures appended { (all more : List (List ℕ)) → IsTrue D.tells → items.now ≡ wire more → reads (D.past disk.old) (file_of self.old) ≡ Some (log_bytes self.old.closed all)
            → HasAppended result self.new.closed (opened self.old).closed all more (reads (D.past disk.new) (file_of self.old)) }

        // At Ok the items stand behind the old ones, and as many as before are synced. Where memory was wanting all is
        // as before.
        ensures stands { (all more : List (List ℕ)) (synced : ℕ) → IsTrue D.tells → AreContents more → items.now ≡ wire more
            → Stands (D.past disk.old) self.old all synced → OnOk result (Stands (D.past disk.new) self.new (all ++ more) synced) }
        ensures kept { (all : List (List ℕ)) (synced : ℕ) → IsTrue D.tells → Stands (D.past disk.old) self.old all synced
            → IsErrOf result LogErr.Memory → Stands (D.past disk.new) self.new all synced }

        // At each moment a crash leaves the first ones of the old items and the new, and at least those that were
        // synced.
        ensures any_moment { (all more : List (List ℕ)) (synced : ℕ) → IsTrue D.tells → AreContents more → items.now ≡ wire more
            → Stands (D.past disk.old) self.old all synced → Moments (LogLeaves self.old.name (all ++ more) synced) (D.past disk.old) (D.past disk.new) }
        // Where memory was wanting it leaves only old ones.
        ensures only_old { (all : List (List ℕ)) (synced : ℕ) → IsTrue D.tells → Stands (D.past disk.old) self.old all synced
            → IsErrOf result LogErr.Memory → Moments (LogLeaves self.old.name all synced) (D.past disk.old) (D.past disk.new) }
        // To a draft nothing was done then.
        ensures undone { IsTrue D.tells → IsTrue self.old.draft → IsErrOf result LogErr.Memory
            → D.past disk.new ≡ D.past disk.old }
        // While it is written each closed log of the name stays sound, and a draft stays one.
        ensures sound { (all : List (List ℕ)) (synced : ℕ) → IsTrue D.tells → Stands (D.past disk.old) self.old all synced
            → Moments (λ past. IsSound past self.old.name) (D.past disk.old) (D.past disk.new) }
        ensures drafted { (all more : List (List ℕ)) → IsTrue D.tells → IsTrue self.old.draft → items.now ≡ wire more
            → DraftStands (D.past disk.old) (name_of_draft self.old.name) (log_bytes self.old.closed all)
            → OnOk result (DraftStands (D.past disk.new) (name_of_draft self.old.name) (log_bytes self.old.closed (all ++ more))) }
        ensures calls { LogCalls D.Disk disk.old disk.new (λ n. n ≡ file_of self.old) OnlyFileOrMemory result }
        // It is one write, and with the mark and its sync three calls.
        ensures few { D.moment disk.new ≤ D.moment disk.old + 3 }
        ensures one { self.old.closed ≡ false → D.moment disk.new ≤ D.moment disk.old + 1 }
    {
        self.open(disk)?;
        told(self.file, disk.append(self.file, items))
    }

    /// Makes all that was appended durable. A published log that says closed is durable already, and then nothing is
    /// done.
    pub fn sync<D: Disk>(&mut self, disk: &mut D) -> Result<(), LogErr>
        requires { IsTrue D.tells → IsThere (D.past disk.old) (file_of self.old) }
        ensures log { self.new ≡ self.old }
        ensures nothing { self.old.closed ≡ true → self.old.draft ≡ false → (result ≡ Ok tt) × (disk.new ≡ disk.old) }
        ensures same { IsTrue D.tells → (other : List ℕ) → reads (D.past disk.new) other ≡ reads (D.past disk.old) other }
        ensures stands { (items : List (List ℕ)) (synced : ℕ) → IsTrue D.tells → Stands (D.past disk.old) self.old items synced
            → OnOk result (Stands (D.past disk.new) self.new items (length items)) }
        ensures durable { (items : List (List ℕ)) (synced : ℕ) → IsTrue D.tells → Stands (D.past disk.old) self.old items synced → self.old.closed ≡ false
            → OnOk result (IsDurable (D.past disk.new) self.old.name) }
        ensures any_moment { (items : List (List ℕ)) (synced : ℕ) → IsTrue D.tells → Stands (D.past disk.old) self.old items synced
            → Moments (LogLeaves self.old.name items synced) (D.past disk.old) (D.past disk.new) }
        ensures sound { (items : List (List ℕ)) (synced : ℕ) → IsTrue D.tells → Stands (D.past disk.old) self.old items synced
            → Moments (λ past. IsSound past self.old.name) (D.past disk.old) (D.past disk.new) }
        ensures calls { LogCalls D.Disk disk.old disk.new (λ n. n ≡ file_of self.old) OnlyFile result }
        ensures few { D.moment disk.new ≤ D.moment disk.old + 1 }
    {
        if self.is_closed() {
            return Ok(());
        }
        told(self.file, disk.sync(self.file))
    }

    /// Closes the log where its mark does not say so: it is made durable, marked closed, and made durable again, so
    /// that a closed mark stands over durable items alone. Where it says closed this cannot fail, and nothing is done.
    pub fn close<D: Disk>(&mut self, disk: &mut D) -> Result<(), LogErr>
        requires { IsTrue D.tells → IsLog (D.past disk.old) self.old }
        ensures log { OnOk result (self.new ≡ with_mark true self.old) }
        ensures err { OnErr result ((self.new ≡ self.old) ⊎ (self.new ≡ with_mark true self.old)) }
        ensures nothing { self.old.closed ≡ true → (result ≡ Ok tt) × (disk.new ≡ disk.old) }
        ensures wanted { IsErrOf result LogErr.Memory → self.new ≡ self.old }
        ensures closed { (all : List (List ℕ)) → IsTrue D.tells → reads (D.past disk.old) (file_of self.old) ≡ Some (log_bytes self.old.closed all)
            → HasMarked result self.old.closed true all (reads (D.past disk.new) (file_of self.old)) }
        ensures stands { (items : List (List ℕ)) (synced : ℕ) → IsTrue D.tells → Stands (D.past disk.old) self.old items synced
            → OnOk result (Stands (D.past disk.new) self.new items (length items)) }

        // The closed mark is durable too.
        ensures durable { (items : List (List ℕ)) (synced : ℕ) → IsTrue D.tells → Stands (D.past disk.old) self.old items synced → self.old.closed ≡ false
            → OnOk result (IsDurable (D.past disk.new) self.old.name) }
        ensures kept { (items : List (List ℕ)) (synced : ℕ) → IsTrue D.tells → Stands (D.past disk.old) self.old items synced
            → IsErrOf result LogErr.Memory → Stands (D.past disk.new) self.new items synced }
        ensures any_moment { (items : List (List ℕ)) (synced : ℕ) → IsTrue D.tells → Stands (D.past disk.old) self.old items synced
            → Moments (LogLeaves self.old.name items synced) (D.past disk.old) (D.past disk.new) }
        ensures sound { (items : List (List ℕ)) (synced : ℕ) → IsTrue D.tells → Stands (D.past disk.old) self.old items synced
            → Moments (λ past. IsSound past self.old.name) (D.past disk.old) (D.past disk.new) }
        ensures calls { LogCalls D.Disk disk.old disk.new (λ n. n ≡ file_of self.old) OnlyFileOrMemory result }
        ensures few { D.moment disk.new ≤ D.moment disk.old + 3 }
    {
        if self.closed {
            return Ok(());
        }
        self.sync(disk)?;
        self.set_mark(disk, true)
    }

    /// Gives a published log another name. An earlier file of that name is gone. Until the directory is synced a crash
    /// may leave the log its old name.
    pub fn rename<D: Disk>(&mut self, disk: &mut D, name: FileName) -> Result<(), LogErr>
        requires published { self.old.draft ≡ false }
        requires other { self.old.name ≢ name }
        requires there { IsTrue D.tells → IsThere (D.past disk.old) self.old.name }
        ensures log { OnOk result (self.new ≡ record { name = name; draft = false; closed = self.old.closed }) }
        ensures err { OnErr result (self.new ≡ self.old) }

        ensures moved { IsTrue D.tells → OnOk result (IsMoved self.old.name name (D.past disk.old) (D.past disk.new)) }

        // Where memory was wanting nothing was done.
        ensures wanted { IsTrue D.tells → IsErrOf result LogErr.Memory → D.past disk.new ≡ D.past disk.old }

        // A closed log that rests, whose new name no file has, keeps all its items: at each moment a crash leaves them
        // under one of the two names and no file under the other, and a closed log of either name may be trusted.
        ensures renamed { (items : List (List ℕ)) → IsTrue D.tells
            → Rests (D.past disk.old) self.old.name (Some items) → Rests (D.past disk.old) name None
            → OnOk result (IsRenamed (D.past disk.new) self.old.name name items) }
        ensures left { (items : List (List ℕ)) → IsTrue D.tells
            → Rests (D.past disk.old) self.old.name (Some items) → Rests (D.past disk.old) name None
            → UnderOne self.old.name name items (reads (D.past disk.new)) }
        ensures any_moment { (items : List (List ℕ)) → IsTrue D.tells
            → Rests (D.past disk.old) self.old.name (Some items) → Rests (D.past disk.old) name None
            → Moments (Crashes (UnderOne self.old.name name items)) (D.past disk.old) (D.past disk.new) }
        ensures sound { (items : List (List ℕ)) → IsTrue D.tells
            → Rests (D.past disk.old) self.old.name (Some items) → Rests (D.past disk.old) name None
            → Moments (λ past. IsSound past self.old.name × IsSound past name) (D.past disk.old) (D.past disk.new) }
        ensures calls { LogCalls D.Disk disk.old disk.new (λ n. (n ≡ self.old.name) ⊎ (n ≡ name))
            OnlyFileOrMemory result }
        ensures few { D.moment disk.new ≤ D.moment disk.old + 1 }
    {
        told(self.file, disk.rename(self.file, name))?;
        self.name = name;
        self.file = name;
        Ok(())
    }

    /// The log whose file was read so. A file whose mark says closed is trusted as it is: this cannot fail, and nothing
    /// is done. One whose mark says open is renewed: its whole items are written into a draft under a closed head,
    /// which is published. No earlier sync of the old file is trusted, and nothing of it is changed.
    pub fn resume<D: Disk>(disk: &mut D, name: FileName, read: &LogFile) -> Result<Log, LogErr>
        requires short { length name ≤ 77 }
        requires valid { IsName name }
        requires read { IsTrue D.tells → reads (D.past disk.old) name ≡ Some read.now.bytes }
        ensures log { IfOk result (λ log. log ≡ record { name = name; draft = false; closed = true }) }

        // After an error the name has the old file or the new one, with the same items.
        ensures items { IsTrue D.tells → OnOk result (reads (D.past disk.new) name ≡ Some (log_bytes true read.now.items)) }
        ensures kept { IsTrue D.tells → OnErr result (Has (D.past disk.new) name (λ left. HasItems left read.now.items)) }
        ensures trusted { read.now.was_open ≡ false → IsOk result × (disk.new ≡ disk.old) }
        ensures wanted { IsTrue D.tells → IsErrOf result LogErr.Memory → Touches (λ n. n ≡ name_of_draft name) (D.past disk.old) (D.past disk.new) }

        // At Ok all items are synced. At each moment a crash leaves under the name what it could leave before, or
        // exactly these items.
        ensures stands { IsTrue D.tells → IsSettled (D.past disk.old) name → IsSound (D.past disk.old) name
            → IfOk result (λ log. Stands (D.past disk.new) log read.now.items (length read.now.items)) }
        ensures any_moment { IsTrue D.tells → IsSettled (D.past disk.old) name → Moments (OldOrItems (D.past disk.old) name read.now.items) (D.past disk.old) (D.past disk.new) }
        ensures sound { IsTrue D.tells → IsSound (D.past disk.old) name → Moments (λ past. IsSound past name) (D.past disk.old) (D.past disk.new) }
        ensures calls { LogCalls D.Disk disk.old disk.new (λ n. (n ≡ name) ⊎ (n ≡ name_of_draft name))
            OnlyFileOrMemory result }
    {
        if !read.was_open() {
            return Ok(Log {
                name,
                file: name,
                draft: false,
                closed: true,
            });
        }
        let mut log = redraft(disk, name, read)?;
        log.publish(disk)?;
        Ok(log)
    }

    // Whether it is published and says closed.
    fn is_closed(&self) -> bool
        ensures { result ≡ (self.now.closed && not self.now.draft) }
    {
        self.closed && !self.draft
    }

    // Opens a log that is published and says closed: it is marked open, and the mark is made durable.
    fn open<D: Disk>(&mut self, disk: &mut D) -> Result<(), LogErr>
        requires { IsTrue D.tells → IsLog (D.past disk.old) self.old }
        ensures log { OnOk result (self.new ≡ opened self.old) }
        ensures err { OnErr result ((self.new ≡ self.old) ⊎ (self.new ≡ opened self.old)) }
        ensures wanted { IsErrOf result LogErr.Memory → self.new ≡ self.old }
        ensures marked { (all : List (List ℕ)) → IsTrue D.tells → reads (D.past disk.old) (file_of self.old) ≡ Some (log_bytes self.old.closed all)
            → HasMarked result self.old.closed (opened self.old).closed all (reads (D.past disk.new) (file_of self.old)) }
        ensures touches { IsTrue D.tells → Touches (λ n. n ≡ file_of self.old) (D.past disk.old) (D.past disk.new) }
        ensures same { IsTrue D.tells → IsTrue self.old.draft ⊎ (self.old.closed ≡ false) → D.past disk.new ≡ D.past disk.old }
        ensures stands { (items : List (List ℕ)) (synced : ℕ) → IsTrue D.tells → Stands (D.past disk.old) self.old items synced
            → OnOk result (Stands (D.past disk.new) self.new items synced) }
        ensures kept { (items : List (List ℕ)) (synced : ℕ) → IsTrue D.tells → Stands (D.past disk.old) self.old items synced
            → IsErrOf result LogErr.Memory → Stands (D.past disk.new) self.new items synced }
        ensures any_moment { (items : List (List ℕ)) (synced : ℕ) → IsTrue D.tells → Stands (D.past disk.old) self.old items synced
            → Moments (IsSafe self.old.name items synced) (D.past disk.old) (D.past disk.new) }
        ensures only { OnlyFileOrMemory result }
        ensures time { D.moment disk.old ≤ D.moment disk.new }
        ensures few { D.moment disk.new ≤ D.moment disk.old + 2 }
        ensures none { self.old.closed ≡ false → D.moment disk.new ≡ D.moment disk.old }
        ensures cause { LogCause (D.faults disk.old) (D.faults disk.new) (D.blamed disk.new) result }
        ensures named { (name : List ℕ) → IsErrOf result (LogErr.File name) → name ≡ file_of self.old }
    {
        if self.is_closed() {
            return self.set_mark(disk, false);
        }
        Ok(())
    }

    // Sets the file's mark and makes it durable.
    fn set_mark<D: Disk>(&mut self, disk: &mut D, closed: bool) -> Result<(), LogErr>
        requires { IsTrue D.tells → IsLog (D.past disk.old) self.old }
        ensures log { OnOk result (self.new ≡ with_mark closed self.old) }
        ensures err { OnErr result ((self.new ≡ self.old) ⊎ (self.new ≡ with_mark closed self.old)) }
        ensures wanted { IsErrOf result LogErr.Memory → self.new ≡ self.old }
        ensures done { IsTrue D.tells → SetsMark (file_of self.old) closed result (D.past disk.old) (D.past disk.new) }
        ensures only { OnlyFileOrMemory result }
        ensures time { D.moment disk.old ≤ D.moment disk.new }
        ensures few { D.moment disk.new ≤ D.moment disk.old + 2 }
        ensures cause { LogCause (D.faults disk.old) (D.faults disk.new) (D.blamed disk.new) result }
        ensures named { (name : List ℕ) → IsErrOf result (LogErr.File name) → name ≡ file_of self.old }
    {
        told(self.file, disk.mark(self.file, mark_bytes(closed)))?;
        self.closed = closed;
        told(self.file, disk.sync(self.file))
    }
}

// Writes a draft with the whole items that were read, under a closed head.
fn redraft<D: Disk>(disk: &mut D, name: FileName, read: &LogFile) -> Result<Log, LogErr>
    requires short { length name ≤ 77 }
    requires valid { IsName name }
    ensures log { IfOk result (λ log. log ≡ record { name = name; draft = true; closed = true }) }
    ensures made { IsTrue D.tells → OnOk result (DraftStands (D.past disk.new) (name_of_draft name) (log_bytes true read.now.items)) }
    ensures touches { IsTrue D.tells → Touches (λ n. n ≡ name_of_draft name) (D.past disk.old) (D.past disk.new) }
    ensures only { OnlyFileOrMemory result }
    ensures time { D.moment disk.old ≤ D.moment disk.new }
    ensures cause { LogCause (D.faults disk.old) (D.faults disk.new) (D.blamed disk.new) result }
    ensures named { (other : List ℕ) → IsErrOf result (LogErr.File other) → other ≡ name_of_draft name }
{
    let file = draft_name(name);
    make(disk, file, &head(true))?;
    told(file, disk.append(file, read.items()))?;
    Ok(Log {
        name,
        file,
        draft: true,
        closed: true,
    })
}

// Makes a file with these bytes. An older one of the name is removed.
fn make<D: Disk>(disk: &mut D, name: FileName, bytes: &[u8]) -> Result<(), LogErr>
    ensures made { IsTrue D.tells → OnOk result (DraftStands (D.past disk.new) name bytes.now) }
    ensures left { IsTrue D.tells → OnErr result (HasPart bytes.now (reads (D.past disk.old) name) (reads (D.past disk.new) name)) }
    ensures touches { IsTrue D.tells → Touches (λ n. n ≡ name) (D.past disk.old) (D.past disk.new) }
    ensures only { OnlyFileOrMemory result }
    ensures time { D.moment disk.old ≤ D.moment disk.new }
    ensures cause { LogCause (D.faults disk.old) (D.faults disk.new) (D.blamed disk.new) result }
    ensures named { (other : List ℕ) → IsErrOf result (LogErr.File other) → other ≡ name }
{
    clear(disk, name)?;
    told(name, disk.create(name))?;
    told(name, disk.append(name, bytes))
}

// The four bytes of a mark.
fn mark_bytes(closed: bool) -> [u8; 4]
    ensures { result ≡ bytes_of_mark closed }
{
    if closed {
        [99, 88, 77, 11]
    } else {
        [6, 7, 8, 9]
    }
}

// The name with TMP behind it.
fn draft_name(name: FileName) -> FileName
    requires short { length name ≤ 77 }
    requires valid { IsName name }
    ensures { result ≡ name_of_draft name }
{
    let bytes = name.bytes();
    let text = with_tmp(bytes);
    named(&text[..bytes.len() + 3])
}

// The bytes and TMP, with zeros behind them.
fn with_tmp(bytes: &[u8]) -> [u8; 80]
    requires { length bytes.now ≤ 77 }
    ensures { take (length bytes.now + 3) result ≡ name_of_draft bytes.now }
{
    let mut text = [0; 80];
    let len = bytes.len();
    text[..len].copy_from_slice(bytes);
    text[len..len + 3].copy_from_slice(b"TMP");
    text
}

fn named(text: &[u8]) -> FileName
    requires { IsName text.now }
    ensures { result ≡ text.now }
{
    FileName::new(text).unwrap()
}

// The bytes of a closed file with this item.
fn draft_bytes(alloc: Global, head_item: &[u8]) -> Result<Vec<u8>, LogErr>
    ensures bytes { IfOk result (λ bytes. bytes.items ≡ log_bytes true (head_item.now ∷ [])) }
    ensures long { IsErrOf result LogErr.TooLong ↔ (2 ^ 28 < length head_item.now) }
    ensures only { length head_item.now ≤ 2 ^ 28 → IfErr result (λ error. error ≡ LogErr.Memory) }
{
    let mut bytes = Vec::new(alloc);
    let head = put_head(true, &mut bytes);
    // That the item is too long is told first.
    wrote(put_item(head_item, &mut bytes))?;
    wrote(head)?;
    Ok(bytes)
}

// Removes a file where it is there.
pub(crate) fn clear<D: Disk>(disk: &mut D, name: FileName) -> Result<(), LogErr>
    ensures cleared { IsTrue D.tells → Cleared name result (D.past disk.old) (D.past disk.new) }
    ensures gone { IsTrue D.tells → OnOk result (IsAbsent (D.past disk.new) name) }
    ensures left { IsTrue D.tells → OnErr result ((reads (D.past disk.new) name ≡ reads (D.past disk.old) name) ⊎ IsAbsent (D.past disk.new) name) }
    ensures touches { IsTrue D.tells → Touches (λ n. n ≡ name) (D.past disk.old) (D.past disk.new) }
    ensures only { OnlyFileOrMemory result }
    ensures time { D.moment disk.old ≤ D.moment disk.new }
    ensures few { D.moment disk.new ≤ D.moment disk.old + 1 }
    ensures cause { LogCause (D.faults disk.old) (D.faults disk.new) (D.blamed disk.new) result }
    ensures named { (other : List ℕ) → IsErrOf result (LogErr.File other) → other ≡ name }
{
    match told(name, disk.len(name))? {
        Some(_) => told(name, disk.remove(name)),
        None => Ok(()),
    }
}
