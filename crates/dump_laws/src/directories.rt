//! A directory: its schema file, its table files and its two logs.

ghost use Rattle.std.specs.Prelude.{◌≡◌, ◌≤◌, ℕ, List, [], ◌∷◌, ◌++◌, Option, Some, option_map};
ghost use Rattle.db_model.specs.Commits.{CommitRecord};
ghost use Rattle.dump_laws.specs.Directory.{Files, DatabaseOf, Schema, reached_after, commit_taken, run, begin, schema_after, View, commits, under, of_table, filled, done_on, by_rule, commit_done};
ghost use Rattle.dump_laws.specs.Effects.{Rows, nothing, put, IsCarried, AreIdle};
ghost use Rattle.dump_laws.specs.Order.{IsInTurn, AreInTurn, AllUpTo, NoneAbove, IsStrict, IsNext, OfEach, AreBetween, with_commit, with_files, with_schema, with_logs, without_previous};

/// What a run of commits gives, said without a run: each table of the schema behind them as its files give it, with
/// those ops done that name it in commits whose version is at least its cookie.
#[tactic(none)]
pub fn closed_laws()
    ensures closed { (files : Files Rows) (commits : List CommitRecord) (schema : Schema)
        → AreInTurn schema.version commits
        → run put files commits (begin files schema)
        ≡ option_map (filled put files commits) (schema_after commits schema) }
    ensures rule { (commits : List CommitRecord) (schema : Schema) → AreInTurn schema.version commits
        → done_on commits schema ≡ option_map (by_rule commits) (schema_after commits schema) }
    ensures version { (view : View) (database : DatabaseOf Rows) → AreInTurn view.schema.version (commits view)
        → under view ≡ Some database
        → database.version ≡ reached_after view.schema.version (commits view) }
{}

/// What leaves the database that a directory stands for as it is, its version and its cookies included.
#[tactic(none)]
pub fn directory_laws()
    // Table files that are between what they were and what the commits make of them; those of tables that do not stand
    // behind the commits may be any.
    ensures files { (view : View) (files : Files Rows) → AreInTurn view.schema.version (commits view)
        → ((last : Schema) → schema_after (commits view) view.schema ≡ Some last
        → AreBetween last view.files (commits view) files)
        → under (with_files files view) ≡ under view }

    // The schema file, written as the schema behind a front of the commits.
    ensures schema { (view : View) (front rest : List CommitRecord) (schema : Schema)
        → AreInTurn view.schema.version (commits view)
        → commits view ≡ front ++ rest → schema_after front view.schema ≡ Some schema
        → under (with_schema schema view) ≡ under view }

    // PREVIOUS.LOG, dropped.
    ensures previous { (view : View) → AreInTurn view.schema.version (commits view)
        → AllUpTo view.schema.version view.previous
        → ((last : Schema) → schema_after (commits view) view.schema ≡ Some last → OfEach last (λ name d.
        AreIdle d.kind (of_table name d.cookie view.previous) (of_table name d.cookie view.latest)
        (view.files name d.kind d.cookie)))
        → under (without_previous view) ≡ under view }

    // The logs, cut elsewhere by a rotation.
    ensures rotated { (view : View) (previous latest : List CommitRecord) → previous ++ latest ≡ commits view
        → under (with_logs previous latest view) ≡ under view }

    // A whole dump.
    ensures dumped { (view : View) (files : Files Rows) (front rest : List CommitRecord) (schema : Schema)
        → AreInTurn view.schema.version (commits view)
        → ((last : Schema) → schema_after (commits view) view.schema ≡ Some last → OfEach last (λ name d.
        IsCarried d.kind (view.files name d.kind d.cookie) (of_table name d.cookie view.previous)
        (of_table name d.cookie view.latest) (files name d.kind d.cookie)))
        → commits view ≡ front ++ rest → schema_after front view.schema ≡ Some schema
        → reached_after view.schema.version view.previous ≤ schema.version
        → under (without_previous (with_schema schema (with_files files view))) ≡ under view }
{}

/// A commit that is appended does to what the directory stands for what it does to the live database, where a table
/// that is made is empty.
#[tactic(none)]
pub fn live_laws()
    ensures appended { (view : View) (commit : CommitRecord) (database : DatabaseOf Rows) → under view ≡ Some database
        → AreInTurn view.schema.version (commits view)
        → IsInTurn (reached_after view.schema.version (commits view)) commit
        → NoneAbove (reached_after view.schema.version (commits view)) view.files
        → under (with_commit commit view) ≡ commit_taken put (λ name kind cookie. nothing) commit database }

    // The same for a strict directory: the live database does the schema ops, then the ops, and takes the version.
    ensures live { (view : View) (commit : CommitRecord) (database : DatabaseOf Rows) → IsStrict view
        → under view ≡ Some database
        → IsNext database.version commit → under (with_commit commit view) ≡ commit_done put nothing commit database }
{}
