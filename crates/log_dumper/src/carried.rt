//! How far the ops of PREVIOUS.LOG are carried into the files of tables.

ghost use Rattle.std.specs.Prelude.{◌≡◌, ◌≢◌, ◌≤◌, ℕ, length, List, [], ◌∷◌, ◌++◌, Option, None, Some};
ghost use Rattle.db_model.specs.Commits.{CommitRecord};
ghost use Rattle.db_model.specs.Database.{Contents};
ghost use Rattle.db_model.specs.Definitions.{Definition};
ghost use Rattle.db_model.specs.Lawful.{IsLawful};
ghost use Rattle.db_model.specs.Ops.{Operation};
ghost use Rattle.dump_laws.specs.Contents.{has, AreOrdered};
ghost use Rattle.dump_laws.specs.Directory.{of_table};
ghost use Rattle.dump_laws.specs.Effects.{IsDraft};
ghost use Rattle.dump_laws.specs.Lists.{database_of};
ghost use Rattle.dump_laws.specs.Order.{First};
ghost use Rattle.log_dumper.specs.Ordered.{IsOrdered, standing, IsDefined, IsCarriedIn, IsCarriedUpTo};
ghost use Rattle.log_dumper.specs.Stored.{StoredOps, StoredTable, Stored, ops_at, contents_at, no_ops, with_op, with_synced, with_changes, with_rows, rows_alone, with_table, AreOpsSynced, commits_at, whole, with_commit, with_log_synced};

/// The ops of PREVIOUS.LOG on one table are carried into its file, one after another.
#[tactic(none)]
pub fn carrying_law()
    // None is carried at first. Where the table has no file of ops one is begun, and then the next op is done.
    ensures begun { (first : First) (stored : Stored) (name : List ℕ) (definition : Definition)
        → IsDefined first stored name (Some definition) → IsOrdered first stored
        → IsCarriedUpTo first stored name definition [] (of_table name definition.cookie stored.before) }
    ensures opened { (first : First) (stored : Stored) (name : List ℕ) (definition : Definition)
        (carried left : List Operation) → IsCarriedUpTo first stored name definition carried left
        → ops_at definition.cookie (stored.tables name).changes ≡ []
        → IsCarriedUpTo first
        (with_table name (with_changes (Some (no_ops definition.cookie)) (stored.tables name)) stored)
        name definition carried left }
    ensures next { (first : First) (stored : Stored) (name : List ℕ) (definition : Definition) (changes : StoredOps)
        (op : Operation) (carried left : List Operation)
        → IsCarriedUpTo first stored name definition carried (op ∷ left)
        → (stored.tables name).changes ≡ Some changes → changes.cookie ≡ definition.cookie
        → IsCarriedUpTo first
        (with_table name (with_changes (Some (with_op op changes)) (stored.tables name)) stored)
        name definition (carried ++ op ∷ []) left }

    // Meanwhile ops and commits are made durable, another table's files are worked on, and commits are appended.
    ensures ops_synced { (first : First) (stored : Stored) (name : List ℕ) (definition : Definition)
        (changes : StoredOps) (synced : ℕ) (carried left : List Operation)
        → IsCarriedUpTo first stored name definition carried left → (stored.tables name).changes ≡ Some changes
        → IsCarriedUpTo first
        (with_table name (with_changes (Some (with_synced synced changes)) (stored.tables name)) stored)
        name definition carried left }
    ensures log_synced { (first : First) (stored : Stored) (name : List ℕ) (definition : Definition) (synced : ℕ)
        (carried left : List Operation) → IsCarriedUpTo first stored name definition carried left
        → stored.synced ≤ synced
        → IsCarriedUpTo first (with_log_synced synced stored) name definition carried left }
    ensures apart { (first : First) (stored : Stored) (name other : List ℕ) (definition : Definition)
        (table : StoredTable) (carried left : List Operation)
        → IsCarriedUpTo first stored name definition carried left → other ≢ name
        → IsCarriedUpTo first (with_table other table stored) name definition carried left }
    ensures appended { (first : First) (stored : Stored) (name : List ℕ) (definition : Definition)
        (commit : CommitRecord) (carried left : List Operation)
        → IsCarriedUpTo first stored name definition carried left
        → IsCarriedUpTo first (with_commit commit stored) name definition carried left }

    // Once none is left, and all of them are durable, each image has them all.
    ensures ended { (first : First) (stored : Stored) (name : List ℕ) (definition : Definition)
        (carried : List Operation) → IsCarriedUpTo first stored name definition carried []
        → IsDefined first stored name (Some definition) → AreOpsSynced (stored.tables name).changes
        → IsCarriedIn first stored name }
{}

/// The files of a table have all ops of PREVIOUS.LOG on it, whatever a crash leaves, so that it may be dropped.
#[tactic(none)]
pub fn carried_law()
    // A table that does not stand has none, nor has one on which PREVIOUS.LOG has no ops.
    ensures absent { (first : First) (stored : Stored) (name : List ℕ) → IsDefined first stored name None
        → IsCarriedIn first stored name }
    ensures nothing { (first : First) (stored : Stored) (name : List ℕ) → IsOrdered first stored
        → ((n : ℕ) → stored.synced ≤ n → (definition : Definition)
        → standing (commits_at n stored) first.schema name ≡ Some definition
        → of_table name definition.cookie stored.before ≡ []) → IsCarriedIn first stored name }

    // It stays so while commits are appended or made durable, and ops are made durable.
    ensures appended { (first : First) (stored : Stored) (name : List ℕ) (commit : CommitRecord)
        → IsCarriedIn first stored name → IsOrdered first stored → IsLawful commit (database_of (whole stored))
        → IsOrdered first (with_commit commit stored) → IsCarriedIn first (with_commit commit stored) name }
    ensures log_synced { (first : First) (stored : Stored) (name : List ℕ) (synced : ℕ)
        → IsCarriedIn first stored name → stored.synced ≤ synced
        → IsCarriedIn first (with_log_synced synced stored) name }
    ensures ops_synced { (first : First) (stored : Stored) (name : List ℕ) (changes : StoredOps) (synced : ℕ)
        → IsCarriedIn first stored name → (stored.tables name).changes ≡ Some changes → changes.synced ≤ synced
        → IsCarriedIn first
        (with_table name (with_changes (Some (with_synced synced changes)) (stored.tables name)) stored) name }

    // And while another table's files are worked on, and a draft takes the place of its own.
    ensures apart { (first : First) (stored : Stored) (name other : List ℕ) (table : StoredTable)
        → IsCarriedIn first stored name → other ≢ name
        → IsCarriedIn first (with_table other table stored) name }
    ensures swapped { (first : First) (stored : Stored) (name : List ℕ) (definition : Definition) (rows : Contents)
        → IsCarriedIn first stored name → IsDefined first stored name (Some definition)
        → length stored.after ≤ stored.synced → AreOpsSynced (stored.tables name).changes
        → IsDraft definition.kind (has (contents_at definition.kind definition.cookie (stored.tables name)))
        (of_table name definition.cookie stored.before) (of_table name definition.cookie stored.after) (has rows)
        → AreOrdered rows → IsOrdered first stored
        → IsCarriedIn first (with_table name (with_rows definition.cookie rows (stored.tables name)) stored) name
        × IsCarriedIn first (with_table name (rows_alone definition.cookie rows) stored) name }
{}
