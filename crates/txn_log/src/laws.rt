//! What contents and files say.

ghost use Rattle.std.specs.Prelude.{◌≡◌, ◌≢◌, ◌⊎◌, ◌≤◌, ◌++◌, List, length, take, ℕ, true, Option, None, Some};
ghost use Rattle.file_trait.specs.DiskModel.{Past, reads, Crashes, IsSettled};
ghost use Rattle.file_trait.specs.Moments.{Moments};
ghost use Rattle.file_trait.specs.Touched.{Touches};
ghost use Rattle.log_items.specs.Items.{log_bytes, AreContents};
ghost use Rattle.disk_logs.specs.Crash.{IsSound};
ghost use Rattle.db_model.specs.Commits.{CommitRecord};
ghost use Rattle.txn_log.specs.Commits.{IsCommit, AreItemsOf};
ghost use Rattle.txn_log.specs.Logs.{latest, previous, LogState, Reads, IsAny, IsWrong, Leaves, IsLogName};
ghost use Rattle.txn_log.specs.TwoLogs.{TwoLogs, AreSound, PreviousStands, LogsStand, commits_of};

/// No content is a text of two commits.
#[tactic(none)]
pub fn commit_law()
    ensures { (content : List ℕ) (a b : CommitRecord) → IsCommit content a → IsCommit content b → a ≡ b }
{}

/// No items are those of two lists of commits.
#[tactic(none)]
pub fn item_law()
    ensures { (commits more : List CommitRecord) (items : List (List ℕ))
        → AreItemsOf commits items → AreItemsOf more items → commits ≡ more }
{}

/// A file has one list of commits or one first wrong place, and never both. Where a crate above allows fewer commits,
/// the lemmas for callers say the same of those.
#[tactic(none)]
pub fn log_law()
    ensures one { (file : Option (List ℕ)) (commits more : List CommitRecord)
        → Reads commits file → Reads more file → commits ≡ more }
    ensures apart { (file : Option (List ℕ)) (commits : List CommitRecord) (at : ℕ)
        → Reads commits file → IsWrong IsAny at file → ⊥ }
    ensures place { (file : Option (List ℕ)) (at other : ℕ)
        → IsWrong IsAny at file → IsWrong IsAny other file → at ≡ other }
    ensures either { (file : Option (List ℕ))
        → ((commits : List CommitRecord) × Reads commits file) ⊎ ((at : ℕ) × IsWrong IsAny at file) }
{}

/// The two logs between calls.
#[tactic(none)]
pub fn logs_law()
    // Whatever a crash leaves of them, the commits of PREVIOUS.LOG and then those of LATEST.LOG are the first ones of
    // all, and so many at least. Now they are all.
    ensures leaves { (past : Past) (log : LogState) (before : Option (List CommitRecord)) (after : List CommitRecord)
        (synced : ℕ) → LogsStand past log before after synced
        → Crashes (TwoLogs (commits_of before) after synced) past }
    ensures reads { (past : Past) (log : LogState) (before : Option (List CommitRecord)) (after : List CommitRecord)
        (synced : ℕ) → LogsStand past log before after synced
        → TwoLogs (commits_of before) after (length after) (reads past) }
    ensures sound { (past : Past) (log : LogState) (before : Option (List CommitRecord)) (after : List CommitRecord)
        (synced : ℕ) → LogsStand past log before after synced → AreSound past }

    // Each of the two files is read as one list of commits, and so are both together.
    ensures one { (before after one two : List CommitRecord) (least : ℕ) (files : List ℕ → Option (List ℕ))
        → TwoLogs before after least files → Reads one (files previous) → Reads two (files latest)
        → (n : ℕ) × (least ≤ n) × (n ≤ length after) × (one ++ two ≡ before ++ take n after) }

    // They stand so at each moment while another file is worked on, and PREVIOUS.LOG also while LATEST.LOG is.
    ensures kept { (other : List ℕ) (log : LogState) (before : Option (List CommitRecord)) (after : List CommitRecord)
        (synced : ℕ) (old new : Past) → other ≢ latest → other ≢ previous → Touches (λ n. n ≡ other) old new
        → LogsStand old log before after synced → Moments (λ past. LogsStand past log before after synced) old new }
    ensures beside { (before : Option (List CommitRecord)) (old new : Past) → Touches IsLogName old new
        → PreviousStands old before → Moments (λ past. PreviousStands past before) old new }
    ensures grown { (before : Option (List CommitRecord)) (after : List CommitRecord) (synced : ℕ) (old new : Past)
        → Touches IsLogName old new → PreviousStands old before → Moments (Leaves after synced) old new
        → Moments (Crashes (TwoLogs (commits_of before) after synced)) old new }

    // PREVIOUS.LOG stands where a crash leaves its name no other file, and it is not there, or closed and sound.
    ensures absent { (past : Past) → IsSettled past previous → reads past previous ≡ None → PreviousStands past None }
    ensures trusted { (past : Past) (commits : List CommitRecord) (items : List (List ℕ)) → IsSound past previous
        → IsSettled past previous → AreItemsOf commits items → AreContents items
        → reads past previous ≡ Some (log_bytes true items) → PreviousStands past (Some commits) }
{}
