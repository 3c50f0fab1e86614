//! What a start can load of the files of tables.

ghost use Rattle.std.specs.Prelude.{◌≡◌, ◌≤◌, ℕ, take, List, Some};
ghost use Rattle.db_model.specs.Commits.{CommitRecord};
ghost use Rattle.db_model.specs.Database.{Table};
ghost use Rattle.db_model.specs.Definitions.{Definition};
ghost use Rattle.db_model.specs.Lawful.{table_in, IsLawful};
ghost use Rattle.db_model.specs.Names.{IsTableName};
ghost use Rattle.dump_laws.specs.Directory.{schema_after};
ghost use Rattle.dump_laws.specs.Lists.{database_of};
ghost use Rattle.dump_laws.specs.Order.{First};
ghost use Rattle.store_files.specs.Names.{dcd_of, dcl_of};
ghost use Rattle.store_files.specs.Tables.{HaveContents};
ghost use Rattle.log_dumper.specs.Directory.{Files};
ghost use Rattle.log_dumper.specs.Loads.{FilesFit, IsLoadable};
ghost use Rattle.log_dumper.specs.Ordered.{IsOrdered, Recovers, standing};
ghost use Rattle.log_dumper.specs.Stored.{StoredTable, Stored, with_table, commits_at, whole, IsAllSynced, with_commit, with_log_synced, rotated, without_previous, with_schema_at};

/// The files of each table that an image stands for have a meaning, and give it what the directory says; and what each
/// step keeps of that.
#[tactic(none)]
pub fn loads_law()
    ensures loads { (first : First) (stored : Stored) (image : Files) (table : Table)
        → IsOrdered first stored → IsLoadable first stored → IsTableName table.definition.name
        → (r : Recovers first stored image)
        → table_in table.definition.name (database_of r.directory).tables ≡ Some table
        → HaveContents table.definition
        (r.directory.files table.definition.name table.definition.kind table.definition.cookie)
        (image (dcd_of table.definition.name)) (image (dcl_of table.definition.name)) }

    // A start has loaded them, a commit that is appended makes none that does not fit, and what is written to the files
    // of a table fits it.
    ensures start { (first : First) (stored : Stored) → IsOrdered first stored → IsAllSynced stored
        → ((table : Table) → table_in table.definition.name (database_of (whole stored)).tables ≡ Some table
        → FilesFit table.definition (stored.tables table.definition.name)) → IsLoadable first stored }
    ensures appended { (first : First) (stored : Stored) (commit : CommitRecord) → IsOrdered first stored
        → IsLawful commit (database_of (whole stored)) → IsLoadable first stored
        → IsLoadable first (with_commit commit stored) }
    ensures table { (first : First) (stored : Stored) (name : List ℕ) (table : StoredTable) → IsLoadable first stored
        → ((n : ℕ) → stored.synced ≤ n → (definition : Definition)
        → standing (commits_at n stored) first.schema name ≡ Some definition → FilesFit definition table)
        → IsLoadable first (with_table name table stored) }

    // The logs and the schema file change none of them.
    ensures synced { (first : First) (stored : Stored) (synced : ℕ) → IsLoadable first stored
        → stored.synced ≤ synced → IsLoadable first (with_log_synced synced stored) }
    ensures rotated { (first : First) (stored : Stored) → IsLoadable first stored → IsLoadable first (rotated stored) }
    ensures schema { (first : First) (stored : Stored) (front : List CommitRecord) → IsLoadable first stored
        → IsLoadable first (with_schema_at front stored) }
    ensures dropped { (first later : First) (stored : Stored) → IsLoadable first stored
        → ((n : ℕ) → schema_after (commits_at n stored) first.schema
        ≡ schema_after (take n stored.after) later.schema)
        → IsLoadable later (without_previous stored) }
{}
