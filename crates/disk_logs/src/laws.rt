//! The laws of logs.

ghost use Rattle.std.specs.Prelude.{◌≡◌, ◌≢◌, ◌≤◌, ◌⊎◌, ◌++◌, ℕ, Bool, true, false, List, [], length, Option, None, Some};
ghost use Rattle.file_trait.specs.DiskModel.{Past, handed, reads, Crashes, IsSettled};
ghost use Rattle.file_trait.specs.Moments.{Moments};
ghost use Rattle.file_trait.specs.Touched.{Touches};
ghost use Rattle.log_items.specs.Items.{log_bytes, AreContents};
ghost use Rattle.disk_logs.specs.Crash.{LogStands, DraftStands, IsSound, LogLeaves, OldOrWhole};
ghost use Rattle.disk_logs.specs.Rests.{FileHas, Rests, IsRenamed, UnderOne};

/// What a crash leaves of a log that stands.
#[tactic(none)]
pub fn standing_law()
    // No more items are synced than there are, and a crash now leaves at least these.
    ensures within { (past : Past) (name : List ℕ) (closed : Bool) (items : List (List ℕ)) (synced : ℕ) → LogStands past name closed items synced → synced ≤ length items }
    ensures leaves { (past : Past) (name : List ℕ) (closed : Bool) (items : List (List ℕ)) (synced : ℕ) → LogStands past name closed items synced → LogLeaves name items synced past }
{}

/// While only other names are touched, a log, a draft and what is sound stay at each moment as they were.
#[tactic(none)]
pub fn frame_law()
    ensures one { (other name : List ℕ) (closed : Bool) (items : List (List ℕ)) (synced : ℕ) (old new : Past) → other ≢ name
        → Touches (λ n. n ≡ other) old new → LogStands old name closed items synced → Moments (λ past. LogStands past name closed items synced) old new }
    ensures two { (one other name : List ℕ) (closed : Bool) (items : List (List ℕ)) (synced : ℕ) (old new : Past) → one ≢ name → other ≢ name
        → Touches (λ n. (n ≡ one) ⊎ (n ≡ other)) old new → LogStands old name closed items synced → Moments (λ past. LogStands past name closed items synced) old new }
    ensures draft { (other draft whole : List ℕ) (old new : Past) → other ≢ draft → Touches (λ n. n ≡ other) old new → DraftStands old draft whole → Moments (λ past. DraftStands past draft whole) old new }
    ensures sound { (other name : List ℕ) (old new : Past) → other ≢ name → Touches (λ n. n ≡ other) old new → IsSound old name → Moments (λ past. IsSound past name) old new }
    // And those names read as before.
    ensures reads { (other name : List ℕ) (old new : Past) → other ≢ name
        → Touches (λ n. n ≡ other) old new → reads new name ≡ reads old name }
    ensures reads_two { (one other name : List ℕ) (old new : Past) → one ≢ name → other ≢ name
        → Touches (λ n. (n ≡ one) ⊎ (n ≡ other)) old new → reads new name ≡ reads old name }
{}

/// When a closed log may be trusted: of a disk that was just handed over each name is sound, one stays so, and a log that stands is.
#[tactic(none)]
pub fn sound_law()
    ensures handed { (files : List ℕ → Option (List ℕ)) (name : List ℕ) → IsSound (handed files) name }
    ensures absent { (past : Past) (name : List ℕ) → reads past name ≡ None → IsSound past name }
    ensures open_log { (past : Past) (name rest : List ℕ) → reads past name ≡ Some (log_bytes false [] ++ rest) → IsSound past name }
    ensures stands { (past : Past) (name : List ℕ) (closed : Bool) (items : List (List ℕ)) (synced : ℕ) → LogStands past name closed items synced → IsSound past name }

    // A closed log that is sound stands with all its items, where no crash leaves the name for another file.
    ensures trusted { (past : Past) (name : List ℕ) (items : List (List ℕ)) → IsSound past name → IsSettled past name → AreContents items → reads past name ≡ Some (log_bytes true items)
        → LogStands past name true items (length items) }
{}

/// What rests: no file, or a closed log with all its items, whatever a crash leaves.
#[tactic(none)]
pub fn rests_law()
    ensures leaves { (past : Past) (name : List ℕ) (file : Option (List (List ℕ))) → Rests past name file
        → Crashes (λ image. FileHas file (image name)) past }
    ensures sound { (past : Past) (name : List ℕ) (file : Option (List (List ℕ))) → Rests past name file
        → IsSound past name }

    // It does so at each moment while another name is touched, and where none is.
    ensures kept { (other name : List ℕ) (file : Option (List (List ℕ))) (old new : Past) → other ≢ name
        → Touches (λ n. n ≡ other) old new → Rests old name file → Moments (λ past. Rests past name file) old new }
    ensures untouched { (name : List ℕ) (file : Option (List (List ℕ))) (old new : Past)
        → Touches (λ n. ⊥) old new → Rests old name file → Rests new name file }

    // Where a crash leaves a name no other file, no file rests, and so does a closed log that is sound.
    ensures absent { (past : Past) (name : List ℕ) → IsSettled past name → reads past name ≡ None
        → Rests past name None }
    ensures trusted { (past : Past) (name : List ℕ) (items : List (List ℕ)) → IsSound past name → IsSettled past name
        → AreContents items → reads past name ≡ Some (log_bytes true items) → Rests past name (Some items) }

    // While a whole draft is published in its place a crash leaves what rested there, or the new file.
    ensures replaced { (name : List ℕ) (file : Option (List (List ℕ))) (items : List (List ℕ)) (old new : Past)
        → AreContents items → Rests old name file → Moments (OldOrWhole old name (log_bytes true items)) old new
        → Moments (Crashes (λ image. FileHas file (image name) ⊎ FileHas (Some items) (image name))) old new }
{}

/// A closed log that got another name, until the directory is synced.
#[tactic(none)]
pub fn rename_law()
    ensures leaves { (past : Past) (from to : List ℕ) (items : List (List ℕ)) → IsRenamed past from to items
        → Crashes (UnderOne from to items) past }
    ensures sound { (past : Past) (from to : List ℕ) (items : List (List ℕ)) → IsRenamed past from to items
        → IsSound past from × IsSound past to }
    ensures kept { (other from to : List ℕ) (items : List (List ℕ)) (old new : Past) → other ≢ from → other ≢ to
        → Touches (λ n. n ≡ other) old new → IsRenamed old from to items
        → Moments (λ past. IsRenamed past from to items) old new }

    // Once a crash leaves it no other name it rests.
    ensures settled { (past : Past) (from to : List ℕ) (items : List (List ℕ)) → IsRenamed past from to items
        → IsSettled past to → Rests past to (Some items) }
{}
