//! A dump step by step: which ops of PREVIOUS.LOG are left to carry, and that they alone are needed.

ghost use Rattle.std.specs.Prelude.{◌≡◌, ◌<◌, ◌≤◌, ℕ, List, [], ◌∷◌, ◌++◌, Option, Some};
ghost use Rattle.db_model.specs.Commits.{CommitRecord};
ghost use Rattle.db_model.specs.Ops.{Operation, table_of};
ghost use Rattle.db_model.specs.declared.definition.Kind.{Kind};
ghost use Rattle.dump_laws.specs.Directory.{TableOf, Schema, reached_after, schema_after, View, commits, under, of_table};
ghost use Rattle.dump_laws.specs.Effects.{Rows, put, AreIdle};
ghost use Rattle.dump_laws.specs.Left.{IsLeft, SameShape, with_ops_left};
ghost use Rattle.dump_laws.specs.Order.{IsInTurn, AreInTurn, OfEach, with_commit, with_files, with_schema, with_logs, set_rows};

/// The steps of a dump keep it that the ops left to carry are all that is needed of PREVIOUS.LOG.
#[tactic(none)]
pub fn step_laws()
    ensures begun { (view : View) → IsLeft view.previous view }

    // The next op is done on no table that stands.
    ensures passed { (view : View) (op : Operation) (ops : List Operation) (commit : CommitRecord)
        (behind : List CommitRecord)
        → ((last : Schema) (table : TableOf (Unit {0})) → schema_after (commits view) view.schema ≡ Some last
        → last.tables (table_of op) ≡ Some table → commit.version < table.definition.cookie)
        → IsLeft (with_ops_left (op ∷ ops) commit ∷ behind) view → IsLeft (with_ops_left ops commit ∷ behind) view }

    // The next op is done on a table that stands: it is done on the table's files.
    ensures carried { (view : View) (op : Operation) (ops : List Operation) (commit : CommitRecord)
        (behind : List CommitRecord)
        (cookie : ℕ) → cookie ≤ commit.version
        → ((last : Schema) (table : TableOf (Unit {0})) → schema_after (commits view) view.schema ≡ Some last
        → last.tables (table_of op) ≡ Some table → table.definition.cookie ≡ cookie)
        → IsLeft (with_ops_left (op ∷ ops) commit ∷ behind) view
        → IsLeft (with_ops_left ops commit ∷ behind)
        (with_files (set_rows (table_of op) cookie
        (λ kind. put kind op (view.files (table_of op) kind cookie)) view.files) view) }
    ensures next { (view : View) (commit : CommitRecord) (behind : List CommitRecord)
        → IsLeft (with_ops_left [] commit ∷ behind) view
        → IsLeft behind view }

    // None is left: PREVIOUS.LOG can be dropped, as far as ops go.
    ensures none { (view : View) → IsLeft [] view → (last : Schema)
        → schema_after (commits view) view.schema ≡ Some last
        → OfEach last (λ name d. AreIdle d.kind (of_table name d.cookie view.previous)
        (of_table name d.cookie view.latest)
        (view.files name d.kind d.cookie)) }

    // A commit is appended to LATEST.LOG meanwhile.
    ensures appended { (view : View) (left : List CommitRecord) (commit : CommitRecord)
        → AreInTurn view.schema.version (commits view)
        → IsInTurn (reached_after view.schema.version (commits view)) commit → IsLeft left view
        → IsLeft left (with_commit commit view) }

    // None is left, and the files of one table and cookie are swapped, or removed where no such table stands.
    ensures files { (view : View) (name : List ℕ) (cookie : ℕ) (rows : Kind → Rows)
        → ((last : Schema) (table : TableOf (Unit {0})) → schema_after (commits view) view.schema ≡ Some last
        → last.tables name ≡ Some table → table.definition.cookie ≡ cookie
        → AreIdle table.definition.kind (of_table name cookie view.previous) (of_table name cookie view.latest)
        (rows table.definition.kind))
        → IsLeft [] view → IsLeft [] (with_files (set_rows name cookie rows view.files) view) }
    ensures schema { (view : View) (left front rest : List CommitRecord) (schema : Schema)
        → AreInTurn view.schema.version (commits view)
        → commits view ≡ front ++ rest → schema_after front view.schema ≡ Some schema → IsLeft left view
        → IsLeft left (with_schema schema view) }

    // Leaving out the ops that were carried changes nothing in what the directory stands for.
    ensures left_out { (view : View) (left previous : List CommitRecord) → AreInTurn view.schema.version (commits view)
        → SameShape previous view.previous
        → ((name : List ℕ) (cookie : ℕ) → of_table name cookie previous ≡ of_table name cookie left) → IsLeft left view
        → under (with_logs previous view.latest view) ≡ under view }
{}
