//! What is stored in a directory, and what an image of it says.

ghost use Rattle.std.specs.Prelude.{◌≡◌, ℕ, List, [], ◌∷◌, ◌++◌, Option, Some};
ghost use Rattle.file_trait.specs.DiskModel.{Past, Crashes};
ghost use Rattle.file_trait.specs.Moments.{Moments};
ghost use Rattle.db_model.specs.Commits.{CommitRecord};
ghost use Rattle.db_model.specs.Definitions.{Definition};
ghost use Rattle.db_model.specs.Ops.{Operation};
ghost use Rattle.dump_laws.specs.Contents.{IsKeyed};
ghost use Rattle.dump_laws.specs.Lists.{Directory, view_of};
ghost use Rattle.dump_laws.specs.Order.{First, IsCutOf};
ghost use Rattle.txn_log.specs.TwoLogs.{commits_of};
ghost use Rattle.store_files.specs.Pairs.{Changes, TableFiles};
ghost use Rattle.store_files.specs.Tables.{IsChange};
ghost use Rattle.log_dumper.specs.Directory.{Files, Logs, State, with_logs, with_schema, with_files, DirectoryHas, HasOne};
ghost use Rattle.log_dumper.specs.Ordered.{IsOrdered, Recovers, RecoversOne, AreOrdered};
ghost use Rattle.log_dumper.specs.Says.{SaysSchema, SaysChanges, SaysTable, Says, HasDirectory};
ghost use Rattle.log_dumper.specs.Stored.{StoredOps, StoredTable, Stored, with_op, with_table, tables_at, whole, IsImageOf};

/// An image of a directory whose items say what is stored is a directory itself: what is stored, but for commits and
/// ops at the end that are not synced.
#[tactic(none)]
pub fn image_law()
    ensures says { (s : State) (stored : Stored) (image : Files) → Says s stored → DirectoryHas s image
        → (directory : Directory) × (of : IsImageOf stored directory)
        × HasDirectory image (tables_at of.cut stored) directory }
    ensures cut { (stored : Stored) (directory : Directory) → IsImageOf stored directory
        → IsCutOf (view_of (whole stored)) (view_of directory) }

    // Where what is stored is ordered, a start finds a directory that stands on the first database.
    ensures recovers { (first : First) (s : State) (stored : Stored) (image : Files) → Says s stored
        → IsOrdered first stored → DirectoryHas s image → Recovers first stored image }

    // And so at each moment of a step that leaves one of some states, as directory_law says, where each of them is.
    ensures moments { (states : List State) (ones : List (First × Stored)) (old new : Past) → AreOrdered states ones
        → Moments (Crashes (HasOne states)) old new → Moments (Crashes (RecoversOne ones)) old new }
{}

/// What the items of a directory say once some are others.
#[tactic(none)]
pub fn says_law()
    ensures table { (s : State) (stored : Stored) (name : List ℕ) (files : TableFiles) (table : StoredTable)
        → Says s stored → SaysTable files table → Says (with_files name files s) (with_table name table stored) }
    ensures logs { (s : State) (stored : Stored) (logs : Logs) (before after : List CommitRecord) → Says s stored
        → commits_of logs.before ≡ before → logs.after ≡ after
        → Says (with_logs logs s) (record stored { before = before; after = after; synced = logs.synced }) }
    ensures schema { (s : State) (stored : Stored) (items : Option (List (List ℕ))) (version : ℕ)
        (definitions : List Definition) → Says s stored → SaysSchema items version definitions
        → Says (with_schema items s) (record stored { version = version; definitions = definitions }) }
    ensures op { (file : Changes) (changes : StoredOps) (item : List ℕ) (op : Operation)
        → SaysChanges (Some file) (Some changes) → IsChange item op → IsKeyed op
        → SaysChanges (Some (record file { items = file.items ++ item ∷ [] })) (Some (with_op op changes)) }
{}
