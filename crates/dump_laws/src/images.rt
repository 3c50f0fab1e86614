//! What a crash may leave: images that stand on one first database.

ghost use Rattle.std.specs.Prelude.{◌≡◌, ◌≤◌, ℕ, ◌+◌, length, List, [], ◌∷◌, ◌++◌, Option, Some, IsSome};
ghost use Rattle.db_model.specs.Commits.{CommitRecord};
ghost use Rattle.db_model.specs.declared.definition.Kind.{Kind};
ghost use Rattle.dump_laws.specs.Directory.{Files, DatabaseOf, TableOf, Schema, reached_after, run, begin, schema_after, View, commits, under, of_table};
ghost use Rattle.dump_laws.specs.Effects.{Rows, put, Between, IsCarried, AreIdle};
ghost use Rattle.dump_laws.specs.Order.{IsInTurn, AreInTurn, AllUpTo, NoneAbove, IsStrict, IsNext, StandsAt, entries_done, OfEach, AreBetween, First, IsOn, IsCutOf, with_commit, with_files, with_schema, with_logs, without_previous, set_rows, first_after};

/// An image stands for its commits done over the first database, where they are in turn over it.
#[tactic(none)]
pub fn image_laws()
    ensures image { (first : First) (view : View) → IsOn first view → AreInTurn first.schema.version (commits view)
        → under view ≡ run put first.rows (commits view) (begin first.rows first.schema) }
    ensures cut { (first : First) (now view : View) → IsOn first view → AreInTurn first.schema.version (commits now)
        → IsCutOf now view → under view ≡ run put first.rows (commits view) (begin first.rows first.schema) }
{}

/// An image stays on the first database.
#[tactic(none)]
pub fn stays_on_laws()
    ensures start { (view : View) → IsOn record { schema = view.schema; rows = view.files } view }
    ensures appended { (first : First) (view : View) (commit : CommitRecord)
        → AreInTurn first.schema.version (commits view)
        → IsInTurn (reached_after first.schema.version (commits view)) commit
        → NoneAbove (reached_after first.schema.version (commits view)) view.files
        → NoneAbove (reached_after first.schema.version (commits view)) first.rows
        → IsOn first view → IsOn first (with_commit commit view) }

    // The files of one table and cookie: an op carried, a draft swapped in, or, where no such table stands, anything.
    ensures files { (first : First) (view : View) (name : List ℕ) (cookie : ℕ) (rows : Kind → Rows)
        → ((last : Schema) (table : TableOf (Unit {0})) → schema_after (commits view) first.schema ≡ Some last
        → last.tables name ≡ Some table → table.definition.cookie ≡ cookie
        → Between table.definition.kind (first.rows name table.definition.kind cookie)
        (of_table name cookie (commits view))
        (rows table.definition.kind))
        → IsOn first view → IsOn first (with_files (set_rows name cookie rows view.files) view) }
    ensures schema { (first : First) (view : View) (front rest : List CommitRecord) (schema : Schema)
        → commits view ≡ front ++ rest
        → schema_after front first.schema ≡ Some schema → IsOn first view → IsOn first (with_schema schema view) }
    ensures rotated { (first : First) (view : View) (previous latest : List CommitRecord)
        → previous ++ latest ≡ commits view
        → IsOn first view → IsOn first (with_logs previous latest view) }

    // PREVIOUS.LOG, dropped: the image is on the first database with what PREVIOUS.LOG had.
    ensures previous { (first : First) (view : View) (schema : Schema) → AreInTurn first.schema.version (commits view)
        → schema_after view.previous first.schema ≡ Some schema → schema.version ≤ view.schema.version
        → ((last : Schema) → schema_after (commits view) first.schema ≡ Some last → OfEach last (λ name d.
        IsCarried d.kind (first.rows name d.kind d.cookie) (of_table name d.cookie view.previous)
        (of_table name d.cookie view.latest) (view.files name d.kind d.cookie)))
        → IsOn first view → IsOn (first_after view.previous schema first) (without_previous view) }

    // What the acts keep besides: the commits stay in turn over the first schema, and the first contents stay nothing
    // above the version that is reached.
    ensures in_turn_appended { (version : ℕ) (commits : List CommitRecord) (commit : CommitRecord)
        → AreInTurn version commits
        → IsInTurn (reached_after version commits) commit → AreInTurn version (commits ++ commit ∷ []) }
    ensures in_turn_previous { (first schema : Schema) (previous latest : List CommitRecord)
        → schema_after previous first ≡ Some schema → AreInTurn first.version (previous ++ latest)
        → AreInTurn schema.version latest }
    ensures previous_young { (first : First) (previous latest : List CommitRecord) (schema : Schema)
        → AreInTurn first.schema.version (previous ++ latest) → schema_after previous first.schema ≡ Some schema
        → NoneAbove (reached_after first.schema.version (previous ++ latest)) first.rows
        → NoneAbove (reached_after schema.version latest) (first_after previous schema first).rows }
{}

/// An image stays strict.
#[tactic(none)]
pub fn strict_laws()
    ensures appended { (view : View) (commit : CommitRecord)
        → IsInTurn (reached_after view.schema.version (commits view)) commit
        → IsSome (under (with_commit commit view)) → IsStrict view → IsStrict (with_commit commit view) }
    ensures files { (view : View) (files : Files Rows)
        → ((last : Schema) → schema_after (commits view) view.schema ≡ Some last
        → AreBetween last view.files (commits view) files)
        → NoneAbove (reached_after view.schema.version (commits view)) files → IsStrict view
        → IsStrict (with_files files view) }
    ensures young { (version : ℕ) (name : List ℕ) (cookie : ℕ) (rows : Kind → Rows) (files : Files Rows)
        → cookie ≤ version → NoneAbove version files → NoneAbove version (set_rows name cookie rows files) }
    ensures cookies { (view : View) (last : Schema) (name : List ℕ) (table : TableOf (Unit {0})) → IsStrict view
        → schema_after (commits view) view.schema ≡ Some last → last.tables name ≡ Some table
        → table.definition.cookie ≤ reached_after view.schema.version (commits view) }
    ensures schema { (view : View) (front rest : List CommitRecord) (schema : Schema) → commits view ≡ front ++ rest
        → schema_after front view.schema ≡ Some schema → IsStrict view → IsStrict (with_schema schema view) }
    ensures previous { (view : View) → AllUpTo view.schema.version view.previous
        → ((last : Schema) → schema_after (commits view) view.schema ≡ Some last → OfEach last (λ name d.
        AreIdle d.kind (of_table name d.cookie view.previous) (of_table name d.cookie view.latest)
        (view.files name d.kind d.cookie)))
        → IsStrict view → IsStrict (without_previous view) }
{}

/// An image stands for the base with a front of the entries done, in the order in which the live database did them.
#[tactic(none)]
pub fn standing_laws()
    ensures start { (view : View) (base : DatabaseOf Rows) → under view ≡ Some base → StandsAt base [] 0 view }

    // Whatever leaves what it stands for: a piece of upkeep.
    ensures same { (base : DatabaseOf Rows) (entries : List CommitRecord) (synced : ℕ) (view other : View)
        → under other ≡ under view
        → StandsAt base entries synced view → StandsAt base entries synced other }

    // A commit is appended: an image may lack it, or have it behind all the others.
    ensures lacking { (base : DatabaseOf Rows) (entries : List CommitRecord) (synced : ℕ) (commit : CommitRecord)
        (view : View)
        → StandsAt base entries synced view → StandsAt base (entries ++ commit ∷ []) synced view }
    ensures having { (base database : DatabaseOf Rows) (entries : List CommitRecord) (synced : ℕ)
        (commit : CommitRecord)
        (view : View)
        → IsStrict view → under view ≡ Some database → IsNext database.version commit
        → entries_done entries base ≡ Some database
        → synced ≤ length entries + 1 → StandsAt base (entries ++ commit ∷ []) synced (with_commit commit view) }
{}
