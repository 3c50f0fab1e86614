//! What each step makes of what is stored, and that whatever a crash leaves stands on one first database.

ghost use Rattle.std.specs.Prelude.{◌≡◌, ◌≤◌, ℕ, take, drop, length, List, [], ◌++◌, Option, None, Some, option_map};
ghost use Rattle.std.specs.List.{AllByRecursion};
ghost use Rattle.db_model.specs.Commits.{CommitRecord};
ghost use Rattle.db_model.specs.Database.{Contents, do_commit};
ghost use Rattle.db_model.specs.Definitions.{Definition};
ghost use Rattle.db_model.specs.Lawful.{table_in, IsLawful};
ghost use Rattle.db_model.specs.Ops.{Operation};
ghost use Rattle.dump_laws.specs.Contents.{has, AreOrdered, IsKeyed};
ghost use Rattle.dump_laws.specs.Directory.{reached_after, schema_after, under, of_table};
ghost use Rattle.dump_laws.specs.Effects.{IsAmong, IsDraft};
ghost use Rattle.dump_laws.specs.Lists.{Directory, begun, database_of, HasMeaning, schema_of, seen, view_of};
ghost use Rattle.dump_laws.specs.Order.{IsStrict, First};
ghost use Rattle.log_dumper.specs.Ordered.{IsInOrder, IsTableUpTo, StandsOn, IsOrdered, over, IsDefined, ArePlain, IsCarriedIn};
ghost use Rattle.log_dumper.specs.Stored.{StoredOps, Stored, ops_at, contents_at, no_ops, with_op, with_synced, with_changes, with_rows, rows_alone, without_rows, no_table, with_table, AreOpsSynced, commits_at, whole, IsImageOf, IsAllSynced, with_commit, with_log_synced, rotated, without_previous, with_schema_at};

/// What an image of an ordered directory stands for: its commits, done over the first database. One with all commits
/// stands for what all that is stored does.
#[tactic(none)]
pub fn stands_law()
    ensures on { (first : First) (stored : Stored) (directory : Directory) → IsOrdered first stored
        → IsImageOf stored directory → StandsOn first directory }
    ensures means { (first : First) (stored : Stored) (directory : Directory) → IsOrdered first stored
        → IsImageOf stored directory
        → under (view_of directory) ≡ over first (directory.previous ++ directory.latest) }
    ensures now { (first : First) (stored : Stored) (directory : Directory) → IsOrdered first stored
        → IsImageOf stored directory → directory.previous ++ directory.latest ≡ stored.before ++ stored.after
        → database_of directory ≡ database_of (whole stored) }

    // The same of two directories, as before a step on the files or the logs and behind it. A commit that is appended
    // is done to what all stands for.
    ensures alike { (first later : First) (one other : Stored) → IsOrdered first one → IsOrdered later other
        → over first (one.before ++ one.after) ≡ over later (other.before ++ other.after)
        → database_of (whole one) ≡ database_of (whole other) }
    ensures appended { (first : First) (stored : Stored) (commit : CommitRecord) → IsOrdered first stored
        → IsLawful commit (database_of (whole stored)) → IsOrdered first (with_commit commit stored)
        → seen (database_of (whole (with_commit commit stored)))
        ≡ seen (do_commit commit (database_of (whole stored))) }

    // Where no commit makes a table or takes one away that is not synced, a table is defined so in each image.
    ensures defined { (first : First) (stored : Stored) (name : List ℕ) → IsOrdered first stored
        → ArePlain (drop stored.synced stored.after)
        → IsDefined first stored name
        (option_map (λ table. table.definition) (table_in name (database_of (whole stored)).tables)) }
{}

/// Each step keeps it that whatever a crash leaves stands on the first database.
#[tactic(none)]
pub fn ordered_law()
    // A start makes all durable, and what there is then is the first database.
    ensures start { (stored : Stored) → IsAllSynced stored → IsInOrder stored → HasMeaning (whole stored)
        → IsStrict (view_of (whole stored))
        → ((name : List ℕ)
        → IsTableUpTo (reached_after stored.version (stored.before ++ stored.after)) (stored.tables name))
        → IsOrdered record { schema = schema_of (begun (whole stored)); rows = (view_of (whole stored)).files } stored }

    // The logs: a commit that is lawful over what all stands for is appended, more of them are made durable, and the
    // log gets its other name.
    ensures appended { (first : First) (stored : Stored) (commit : CommitRecord)
        → IsLawful commit (database_of (whole stored)) → AllByRecursion IsKeyed commit.operations
        → IsOrdered first stored → IsOrdered first (with_commit commit stored) }
    ensures synced { (first : First) (stored : Stored) (synced : ℕ) → stored.synced ≤ synced
        → IsOrdered first stored → IsOrdered first (with_log_synced synced stored) }
    ensures rotated { (first : First) (stored : Stored) → IsOrdered first stored → IsOrdered first (rotated stored) }

    // The ops of a table that stands: a file of its cookie is begun where there is none, an op of PREVIOUS.LOG is
    // carried into it, whatever is in it already, and more of them are made durable.
    ensures begun { (first : First) (stored : Stored) (name : List ℕ) (definition : Definition)
        → IsDefined first stored name (Some definition)
        → ops_at definition.cookie (stored.tables name).changes ≡ [] → IsOrdered first stored
        → IsOrdered first
        (with_table name (with_changes (Some (no_ops definition.cookie)) (stored.tables name)) stored) }
    ensures carried { (first : First) (stored : Stored) (name : List ℕ) (definition : Definition) (changes : StoredOps)
        (op : Operation) → IsDefined first stored name (Some definition)
        → (stored.tables name).changes ≡ Some changes → changes.cookie ≡ definition.cookie
        → IsAmong op (of_table name definition.cookie stored.before) → IsKeyed op → IsOrdered first stored
        → IsOrdered first (with_table name (with_changes (Some (with_op op changes)) (stored.tables name)) stored) }
    ensures ops_synced { (first : First) (stored : Stored) (name : List ℕ) (changes : StoredOps) (synced : ℕ)
        → (stored.tables name).changes ≡ Some changes → changes.synced ≤ synced → IsOrdered first stored
        → IsOrdered first
        (with_table name (with_changes (Some (with_synced synced changes)) (stored.tables name)) stored) }

    // A draft of new records takes the place of the old ones, beside the ops and then without them, once the log and
    // the ops are durable.
    ensures swapped { (first : First) (stored : Stored) (name : List ℕ) (definition : Definition) (rows : Contents)
        → IsDefined first stored name (Some definition) → length stored.after ≤ stored.synced
        → AreOpsSynced (stored.tables name).changes
        → IsDraft definition.kind (has (contents_at definition.kind definition.cookie (stored.tables name)))
        (of_table name definition.cookie stored.before) (of_table name definition.cookie stored.after) (has rows)
        → AreOrdered rows → IsOrdered first stored
        → IsOrdered first (with_table name (with_rows definition.cookie rows (stored.tables name)) stored)
        × IsOrdered first (with_table name (rows_alone definition.cookie rows) stored) }

    // The files of a table that stands in no image are taken away.
    ensures removed { (first : First) (stored : Stored) (name : List ℕ) → IsDefined first stored name None
        → IsOrdered first stored
        → IsOrdered first (with_table name (without_rows (stored.tables name)) stored)
        × IsOrdered first (with_table name no_table stored) }

    // The schema file is written as the schema is behind commits that each image has.
    ensures schema { (first : First) (stored : Stored) (front rest : List CommitRecord)
        → commits_at stored.synced stored ≡ front ++ rest → IsOrdered first stored
        → IsOrdered first (with_schema_at front stored) }

    // PREVIOUS.LOG is dropped, once all its ops are in the files and the schema file has the version that it reaches.
    // The first database is then the one behind its commits, and each image stands for what it did.
    ensures dropped { (first : First) (stored : Stored) → ((name : List ℕ) → IsCarriedIn first stored name)
        → reached_after first.schema.version stored.before ≤ stored.version → IsOrdered first stored
        → (later : First) × IsOrdered later (without_previous stored)
        × ((n : ℕ) → schema_after (commits_at n stored) first.schema
        ≡ schema_after (take n stored.after) later.schema)
        × ((n : ℕ) → stored.synced ≤ n → over first (commits_at n stored) ≡ over later (take n stored.after)) }
{}
