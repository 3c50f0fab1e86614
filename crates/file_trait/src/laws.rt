//! What follows from what was done to a disk: how its files read, what a crash may leave, and what each moment keeps.

ghost use Rattle.std.specs.Prelude.{◌≡◌, ◌≢◌, ◌≤◌, ◌⊎◌, ◌↔◌, ℕ, List, [], Option, None, Some, is_some, option_map, if◌then◌else◌};
ghost use Rattle.file_trait.specs.DiskModel.{Past, handed, did, FileOp, DirOp, DiskOp, to_file, to_dir, create, rename, remove, sync, sync_failed, sync_dir, FileId, clock, same_name, named, changed, reads, PartDone, FileLeaves, IsHonest, IsImage, Crashes, IsSettled, Spares, SparesFile, at_moment, doing};
ghost use Rattle.file_trait.specs.Calls.{IsSureOf};
ghost use Rattle.file_trait.specs.PrefixModel.{IsPrefixImage};

/// How the files read at first, and after each thing that is done. Syncs change how none reads: `frame_law`.
#[tactic(none)]
pub fn reading_laws()
    ensures handed { (files : List ℕ → Option (List ℕ)) (name : List ℕ) → reads (handed files) name ≡ files name }
    ensures file { (past : Past) (name : List ℕ) (op : FileOp) (other : List ℕ) → reads (did (to_file name op) past) other
        ≡ (if same_name name other then option_map (changed op) (reads past other) else reads past other) }
    ensures create { (past : Past) (name other : List ℕ) → reads (did (to_dir (create name)) past) other
        ≡ (if same_name name other then Some [] else reads past other) }
    ensures rename { (past : Past) (from to other : List ℕ) → reads (did (to_dir (rename from to)) past) other
        ≡ (if same_name to other then reads past from else if same_name from other then None else reads past other) }
    ensures remove { (past : Past) (name other : List ℕ) → reads (did (to_dir (remove name)) past) other
        ≡ (if same_name name other then None else reads past other) }
{}

/// What a crash may leave, and what each thing that is done does to it.
#[tactic(none)]
pub fn image_laws()
    // What is read now a crash may leave, and of a disk that was only handed over nothing else.
    ensures reads { (past : Past) → IsImage past (reads past) }
    ensures handed { (files : List ℕ → Option (List ℕ)) → Crashes (λ image. (name : List ℕ) → image name ≡ files name) (handed files) }

    // A sync leaves of the file only what it reads as, one of the directory only the names that are read, and neither adds an image.
    ensures sync { (past : Past) (name : List ℕ) → IsSettled past name → IsSureOf past name → Crashes (λ image. image name ≡ reads past name) (did (sync name) past) }
    ensures sync_adds { (past : Past) (name : List ℕ) → Crashes (IsImage past) (did (sync name) past) }
    ensures sync_dir { (past : Past) → Crashes (λ image. (name : List ℕ) → is_some (image name) ≡ is_some (reads past name)) (did sync_dir past) }
    ensures sync_dir_adds { (past : Past) → Crashes (IsImage past) (did sync_dir past) }
    ensures settles { (past : Past) (name : List ℕ) → IsSettled (did sync_dir past) name }

    // One that fails adds no image either.
    ensures sync_failed_adds { (past : Past) (name : List ℕ) → Crashes (IsImage past) (did (sync_failed name) past) }

    // A change of a file is done or not, and behind an append's file any bytes may stand.
    ensures file { (past : Past) (name : List ℕ) (op : FileOp) (i : FileId) (bytes : List ℕ) → FileLeaves (did (to_file name op) past) i bytes
        → FileLeaves past i bytes ⊎ ((named past name ≡ Some i) × ((before : List ℕ) × FileLeaves past i before × PartDone op before bytes)) }

    // Each image that has of every file a prefix of what was done to it is one.
    ensures prefixes { (past : Past) → (image : List ℕ → Option (List ℕ)) → IsPrefixImage past image → IsImage past image }

    // A creation, a rename or a removal leaves the old names or the new ones.
    ensures names { (past : Past) (op : DirOp) → Crashes (λ image. IsImage past image
        ⊎ ((bytes : FileId → List ℕ) × ((i : FileId) → FileLeaves past i (bytes i)) × ((i : FileId) → IsHonest past i (bytes i)) × ((name : List ℕ) → image name ≡ option_map bytes (named (did (to_dir op) past) name))))
        (did (to_dir op) past) }

    // Until the next sync a crash may leave either undone.
    ensures file_undone { (past : Past) (name : List ℕ) (op : FileOp) → (image : List ℕ → Option (List ℕ)) → IsImage past image → IsImage (did (to_file name op) past) image }
    ensures names_undone { (past : Past) (op : DirOp) → (image : List ℕ → Option (List ℕ)) → IsImage past image → IsImage (did (to_dir op) past) image }
{}

/// What is done to one file leaves every other as it was.
#[tactic(none)]
pub fn frame_law()
    // A file that it does not name reads as before, and a sync changes how none reads.
    ensures reads { (past : Past) (op : DiskOp) (other : List ℕ) → Spares op other → reads (did op past) other ≡ reads past other }

    // A name that it does not give away stands for the same file, and stays settled.
    ensures named { (past : Past) (op : DiskOp) (other : List ℕ) → Spares op other → named (did op past) other ≡ named past other }
    ensures settled { (past : Past) (op : DiskOp) (other : List ℕ) → Spares op other → IsSettled past other → IsSettled (did op past) other }

    // No two names stand for one file, and a crash leaves of each other file what it could leave before.
    ensures apart { (past : Past) (a b : List ℕ) (i : FileId) → named past a ≡ Some i → named past b ≡ Some i → a ≡ b }
    ensures leaves { (past : Past) (op : DiskOp) (i : FileId) (bytes : List ℕ) → SparesFile past op i → FileLeaves (did op past) i bytes ↔ FileLeaves past i bytes }
{}

/// The present moment is the disk as it is, and what is done later changes no moment that was reached.
#[tactic(none)]
pub fn moment_law()
    ensures now { (past : Past) → at_moment (clock past) past ≡ past }
    ensures earlier { (ops : List DiskOp) (past : Past) (moment : ℕ) → moment ≤ clock past → at_moment moment (doing ops past) ≡ at_moment moment past }
{}
