//! What files say.

ghost use Rattle.std.specs.Prelude.{◌≡◌, ◌++◌, ℕ, Bool, List, Option, Some, codes};
ghost use Rattle.log_items.specs.Items.{log_bytes, AreContents};
ghost use Rattle.disk_logs.specs.Logs.{draft_name};
ghost use Rattle.db_model.specs.Database.{Contents};
ghost use Rattle.db_model.specs.Definitions.{Definition};
ghost use Rattle.db_model.specs.Names.{IsTableName};
ghost use Rattle.db_model.specs.Ops.{Operation};
ghost use Rattle.store_files.specs.Forms.{AreItemsOf, IsWrong};
ghost use Rattle.store_files.specs.Names.{schema_name, dcd_of, dcl_of};
ghost use Rattle.store_files.specs.Schema.{SchemaRecord, schema_form, HasSchema};
ghost use Rattle.store_files.specs.Tables.{dcd_form, dcl_form, HasRecords, HasOps, HaveContents, AreWrong};

/// The file of the schema says one schema or has one first wrong place, and never both. What is written as the items
/// of a schema says this schema.
#[tactic(none)]
pub fn schema_law()
    ensures one { (file : Option (List ℕ)) (schema other : SchemaRecord)
        → HasSchema schema file → HasSchema other file → schema ≡ other }
    ensures apart { (file : Option (List ℕ)) (schema : SchemaRecord) (at : ℕ)
        → HasSchema schema file → IsWrong schema_form at file → ⊥ }
    ensures place { (file : Option (List ℕ)) (at other : ℕ)
        → IsWrong schema_form at file → IsWrong schema_form other file → at ≡ other }
    ensures written { (schema : SchemaRecord) (closed : Bool) (items : List (List ℕ)) → AreContents items
        → AreItemsOf schema_form schema.version schema.tables items
        → HasSchema schema (Some (log_bytes closed items)) }
{}

/// The files of a table give one contents or have one first wrong place, and never both. What is written as the items
/// of records or of ops says these.
#[tactic(none)]
pub fn table_law()
    ensures one { (table : Definition) (dcd dcl : Option (List ℕ)) (contents other : Contents)
        → HaveContents table contents dcd dcl → HaveContents table other dcd dcl → contents ≡ other }
    ensures apart { (table : Definition) (dcd dcl : Option (List ℕ)) (contents : Contents) (name : List ℕ) (at : ℕ)
        → HaveContents table contents dcd dcl → AreWrong table name at dcd dcl → ⊥ }
    ensures place { (table : Definition) (dcd dcl : Option (List ℕ)) (name other : List ℕ) (at place : ℕ)
        → AreWrong table name at dcd dcl → AreWrong table other place dcd dcl → (name ≡ other) × (at ≡ place) }
    ensures records_written { (table : Definition) (rows : Contents) (closed : Bool) (items : List (List ℕ))
        → AreContents items → AreItemsOf (dcd_form table) table.cookie rows items
        → HasRecords table rows (Some (log_bytes closed items)) }
    ensures ops_written { (table : Definition) (ops : List Operation) (closed : Bool) (items : List (List ℕ))
        → AreContents items → AreItemsOf (dcl_form table) table.cookie ops items
        → HasOps table ops (Some (log_bytes closed items)) }
{}

/// The names of the files are told apart: those of two tables, those of one, that of the schema, those of the logs and
/// those of drafts.
#[tactic(none)]
pub fn names_law()
    ensures records { (table other : List ℕ) → dcd_of table ≡ dcd_of other → table ≡ other }
    ensures changes { (table other : List ℕ) → dcl_of table ≡ dcl_of other → table ≡ other }
    ensures both { (table other : List ℕ) → dcd_of table ≡ dcl_of other → ⊥ }
    ensures schema { (table : List ℕ) → IsTableName table → dcd_of table ≡ schema_name → ⊥ }
    ensures schema_changes { (table : List ℕ) → dcl_of table ≡ schema_name → ⊥ }
    ensures records_logs { (table log : List ℕ) → dcd_of table ≡ log ++ codes ".LOG" → ⊥ }
    ensures changes_logs { (table log : List ℕ) → dcl_of table ≡ log ++ codes ".LOG" → ⊥ }
    ensures schema_logs { (log : List ℕ) → schema_name ≡ log ++ codes ".LOG" → ⊥ }
    ensures records_drafts { (table file : List ℕ) → dcd_of table ≡ draft_name file → ⊥ }
    ensures changes_drafts { (table file : List ℕ) → dcl_of table ≡ draft_name file → ⊥ }
    ensures schema_drafts { (file : List ℕ) → schema_name ≡ draft_name file → ⊥ }
    ensures drafts { (file other : List ℕ) → draft_name file ≡ draft_name other → file ≡ other }
{}
