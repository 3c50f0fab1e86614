//! The laws of definitions, of the terms of ops and schema ops, and of commits.

ghost use Rattle.std.specs.Prelude.{◌≡◌, ◌≢◌, ◌↔◌, ◌⊎◌, ℕ, All, ◌<◌, ◌^◌, ◌++◌, List, Option, Some};
ghost use Rattle.term_core.specs.Tree.{Tree};
ghost use Rattle.db_model.specs.Commits.{SchemaOperation, CommitRecord};
ghost use Rattle.db_model.specs.Database.{Database, do_commit};
ghost use Rattle.db_model.specs.Definitions.{Definition, IsDefinition};
ghost use Rattle.db_model.specs.Histories.{CanTakeAll, all_taken, AreLawful, all_done};
ghost use Rattle.db_model.specs.Lawful.{IsLawful, IsSound};
ghost use Rattle.db_model.specs.Options.{IsDefinedBy, IsRefusal, create_tree};
ghost use Rattle.db_model.specs.Ops.{Operation, op_tree};
ghost use Rattle.db_model.specs.SchemaTerms.{IsSchemaOp, IsWellFormed, schema_op_tree};
ghost use Rattle.db_model.specs.Taken.{CanTake, Takes};
ghost use Rattle.db_model.specs.declared.error.DefErr.{DefErr};

/// No term is that of two ops.
#[tactic(none)]
pub fn op_law()
    ensures { (op other : Operation) → op_tree op ≡ op_tree other → op ≡ other }
{}

/// A list of options defines one table of a name, but for its cookie, and what is refused defines none. What is
/// defined is lawful, and the create list of a lawful definition defines it again, with any cookie.
#[tactic(none)]
pub fn definition_law()
    ensures one { (term : Tree) (one other : Definition) → one.name ≡ other.name → one.cookie ≡ other.cookie
        → IsDefinedBy term one → IsDefinedBy term other → one ≡ other }
    ensures not_refused { (term : Tree) (one : Definition) (error : DefErr) → IsRefusal one.name term error
        → error ≢ DefErr.Memory → IsDefinedBy term one → ⊥ }
    ensures lawful { (term : Tree) (one : Definition) → one.cookie < 2 ^ 64 → IsDefinedBy term one → IsDefinition one }
    ensures read_back { (one : Definition) (cookie : ℕ) → IsDefinition one
        → IsDefinedBy (create_tree one) (record one { cookie = cookie }) }
{}

/// No term is that of two schema ops, and the term of one that is well formed is read back.
#[tactic(none)]
pub fn schema_op_law()
    ensures one { (term : Tree) (op other : SchemaOperation) → IsSchemaOp term op → IsSchemaOp term other → op ≡ other }
    ensures read_back { (op : SchemaOperation) → IsWellFormed op → IsSchemaOp (schema_op_tree op) op }
{}

/// A lawful commit leaves a sound database sound, and a start takes it as it was done. A start takes a commit in one
/// way, and where its schema ops are well formed it can be told whether it does.
#[tactic(none)]
pub fn taken_law()
    ensures sound { (commit : CommitRecord) (database : Database) → IsSound database → IsLawful commit database
        → IsSound (do_commit commit database) }
    ensures taken { (commit : CommitRecord) (database : Database) → IsSound database → IsLawful commit database
        → Takes commit database (Some (do_commit commit database)) }
    ensures one { (commit : CommitRecord) (database : Database) (one other : Option Database)
        → Takes commit database one → Takes commit database other → one ≡ other }
    ensures told { (commit : CommitRecord) (database : Database) → All IsWellFormed commit.schema_operations
        → CanTake commit database ⊎ (CanTake commit database → ⊥) }
{}

/// What a start takes of a list of commits it takes of the first ones and then of the others. Commits that were lawful
/// when they were done leave a sound database sound, and a start takes them as they were done.
#[tactic(none)]
pub fn history_law()
    ensures parts { (some more : List CommitRecord) (database : Database)
        → CanTakeAll (some ++ more) database ↔ (CanTakeAll some database × CanTakeAll more (all_taken some database)) }
    ensures behind { (some more : List CommitRecord) (database : Database)
        → all_taken (some ++ more) database ≡ all_taken more (all_taken some database) }
    ensures lawful { (some more : List CommitRecord) (database : Database)
        → AreLawful (some ++ more) database → AreLawful some database }
    ensures can { (commits : List CommitRecord) (database : Database)
        → IsSound database → AreLawful commits database → CanTakeAll commits database }
    ensures same { (commits : List CommitRecord) (database : Database)
        → IsSound database → AreLawful commits database → all_taken commits database ≡ all_done commits database }
    ensures sound { (commits : List CommitRecord) (database : Database)
        → IsSound database → AreLawful commits database → IsSound (all_done commits database) }
{}
