//! A directory and a database over lists, and how they are told by look-ups.

ghost use Rattle.std.specs.Prelude.{◌≡◌, ◌↔◌, List, [], ◌∷◌, ◌++◌, Some};
ghost use Rattle.db_model.specs.Commits.{CommitRecord};
ghost use Rattle.db_model.specs.Database.{Contents, Database, do_commit};
ghost use Rattle.db_model.specs.Definitions.{Definition, IsDefinition};
ghost use Rattle.db_model.specs.Histories.{no_database, all_taken, CanTakeAll};
ghost use Rattle.db_model.specs.Lawful.{IsLawful};
ghost use Rattle.db_model.specs.Ops.{Operation};
ghost use Rattle.db_model.specs.Records.{Allows};
ghost use Rattle.dump_laws.specs.Contents.{IsKeyed};
ghost use Rattle.dump_laws.specs.Directory.{Files, schema_after, commit_done, under};
ghost use Rattle.dump_laws.specs.Effects.{nothing, put};
ghost use Rattle.dump_laws.specs.Lists.{Directory, HasMeaning, IsOrderly, AreSorted, behind, database_of, log_alone, schema_of, seen, view_of, with_schema_behind};
ghost use Rattle.dump_laws.specs.Order.{AreInTurn, AllUpTo, IsNext, with_schema};

/// What a start makes of a directory is the database that its view stands for, so what is proved of views holds of it.
#[tactic(none)]
pub fn lists_laws()
    ensures meaning { (directory : Directory) → HasMeaning directory
        → under (view_of directory) ≡ Some (seen (database_of directory)) }

    // A database over lists in order is told by look-ups.
    ensures same { (one other : Database) → AreSorted one.tables → AreSorted other.tables → seen one ≡ seen other
        → one ≡ other }
    ensures sorted { (directory : Directory) → IsOrderly directory → HasMeaning directory
        → AreSorted (database_of directory).tables }
    ensures alike { (one other : Directory) → IsOrderly one → IsOrderly other → HasMeaning one → HasMeaning other
        → under (view_of one) ≡ under (view_of other) → database_of one ≡ database_of other }
    ensures keyed { (definition : Definition) (op : Operation) → IsDefinition definition → Allows definition op
        → IsKeyed op }

    // A log alone is taken as a list of commits is.
    ensures log_meaning { (commits : List CommitRecord)
        → HasMeaning (log_alone commits) ↔ CanTakeAll commits no_database }
    ensures log_made { (commits : List CommitRecord)
        → database_of (log_alone commits) ≡ all_taken commits no_database }
    ensures log_seen { (commits : List CommitRecord) → CanTakeAll commits no_database
        → under (view_of (log_alone commits)) ≡ Some (seen (all_taken commits no_database)) }

    // A lawful commit is the next one, and is done as on the live database.
    ensures next { (commit : CommitRecord) (database : Database) → IsLawful commit database
        → IsNext database.version commit }
    ensures done { (commit : CommitRecord) (database : Database) → IsLawful commit database
        → commit_done put nothing commit (seen database) ≡ Some (seen (do_commit commit database)) }
{}

/// What keeps it that a start can take the logs of a directory: that their schema ops apply where they are done, and
/// that each op that is done is allowed.
#[tactic(none)]
pub fn meaning_laws()
    // Whatever the table files give: which ops are allowed is said by the definitions.
    ensures files { (directory : Directory) (files : Files Contents) → HasMeaning directory
        → HasMeaning (record directory { files = files }) }
    ensures rotated { (directory : Directory) (previous latest : List CommitRecord)
        → previous ++ latest ≡ directory.previous ++ directory.latest
        → HasMeaning directory → HasMeaning (record directory { previous = previous; latest = latest }) }

    // The schema file, written as the schema is behind the first commits.
    ensures schema { (directory : Directory) (front rest : List CommitRecord)
        → directory.previous ++ directory.latest ≡ front ++ rest
        → AreInTurn directory.version (front ++ rest) → HasMeaning directory
        → HasMeaning (with_schema_behind front directory) }
    ensures schema_is { (directory : Directory) (front rest : List CommitRecord)
        → directory.previous ++ directory.latest ≡ front ++ rest → HasMeaning directory
        → schema_after front (view_of directory).schema ≡ Some (schema_of (behind front directory)) }
    ensures schema_view { (directory : Directory) (front : List CommitRecord)
        → view_of (with_schema_behind front directory)
        ≡ with_schema (schema_of (behind front directory)) (view_of directory) }
    ensures previous { (directory : Directory) → AllUpTo directory.version directory.previous
        → HasMeaning directory → HasMeaning (record directory { previous = [] }) }

    // A commit is appended, and the last ones are lost in a crash.
    ensures appended { (directory : Directory) (commit : CommitRecord) → IsLawful commit (database_of directory)
        → HasMeaning directory → HasMeaning (record directory { latest = directory.latest ++ commit ∷ [] }) }
    ensures front { (directory : Directory) (lost : List CommitRecord)
        → HasMeaning (record directory { latest = directory.latest ++ lost })
        → HasMeaning directory }
{}
