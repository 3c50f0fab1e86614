//! The directory from call to call.

ghost use Rattle.std.specs.Prelude.{◌≡◌, ◌⊎◌, ℕ, List, [], ◌∷◌, Option, map};
ghost use Rattle.file_trait.specs.DiskModel.{Past, Crashes, reads};
ghost use Rattle.file_trait.specs.Moments.{Moments};
ghost use Rattle.file_trait.specs.Touched.{Touches};
ghost use Rattle.disk_logs.specs.Crash.{IsSound};
ghost use Rattle.disk_logs.specs.Logs.{draft_name};
ghost use Rattle.disk_logs.specs.Rests.{FileHas, Rests};
ghost use Rattle.db_model.specs.Names.{IsTableName};
ghost use Rattle.txn_log.specs.TwoLogs.{IsOfLogs, AreSound as LogsSound};
ghost use Rattle.store_files.specs.Names.{schema_name};
ghost use Rattle.store_files.specs.Pairs.{TableFiles, FilesStand, AreSound as FilesSound, IsFileOf, IsOfTable};
ghost use Rattle.log_dumper.specs.Directory.{Logs, State, with_logs, with_schema, with_files, now, LogsAre, DirectoryStands, DirectorySound, LogsHave, DirectoryHas, HasOne, FilesHaveOne};

/// What a crash leaves of a directory, and what it leaves while one of its parts is worked on.
#[tactic(none)]
pub fn directory_law()
    // A crash leaves all commits of PREVIOUS.LOG and the first ones of LATEST.LOG, the schema file as it is, and so the
    // files of each table, but for ops that are not synced. As it reads now all of it is there.
    ensures leaves { (past : Past) (s : State) → DirectoryStands past s → Crashes (DirectoryHas s) past }
    ensures reads { (past : Past) (s : State) → DirectoryStands past s → DirectoryHas (now s) (reads past) }
    ensures sound { (past : Past) (s : State) → DirectoryStands past s → DirectorySound past }

    // While the logs are worked on all else stays as it stood: an append, a sync or a close, a rotation,
    ensures logs { (logs : Logs) (old new : Past) (s : State) → DirectoryStands old s → Touches IsOfLogs old new
        → Moments (Crashes (LogsHave logs)) old new → Moments (Crashes (DirectoryHas (with_logs logs s))) old new }
    ensures logs_stand { (logs : Logs) (old new : Past) (s : State) → DirectoryStands old s
        → Touches IsOfLogs old new → LogsAre new logs → DirectoryStands new (with_logs logs s) }
    ensures logs_sound { (old new : Past) (s : State) → DirectoryStands old s → Touches IsOfLogs old new
        → Moments LogsSound old new → Moments DirectorySound old new }

    // and the drop of PREVIOUS.LOG, where they are as one or as the other.
    ensures drops { (one two : Logs) (old new : Past) (s : State) → DirectoryStands old s → Touches IsOfLogs old new
        → Moments (Crashes (λ image. LogsHave one image ⊎ LogsHave two image)) old new
        → Moments (Crashes (HasOne (with_logs one s ∷ with_logs two s ∷ []))) old new }

    // So it is while the files of a table are worked on, where they are as some of these: ops are appended, made
    // durable, or begun, new records take the place of both files, or both are removed.
    ensures table { (table : List ℕ) (some : List TableFiles) (old new : Past) (s : State) → IsTableName table
        → DirectoryStands old s → Touches (IsOfTable table) old new
        → Moments (Crashes (FilesHaveOne table some)) old new
        → Moments (Crashes (HasOne (map (λ files. with_files table files s) some))) old new }
    ensures table_stands { (table : List ℕ) (files : TableFiles) (old new : Past) (s : State) → IsTableName table
        → DirectoryStands old s → Touches (IsOfTable table) old new → FilesStand new table files
        → DirectoryStands new (with_files table files s) }
    ensures table_sound { (table : List ℕ) (old new : Past) (s : State) → IsTableName table → DirectoryStands old s
        → Touches (IsOfTable table) old new → Moments (FilesSound table) old new → Moments DirectorySound old new }

    // And while the schema file is, where it is as one of two.
    ensures schema { (one two : Option (List (List ℕ))) (old new : Past) (s : State) → DirectoryStands old s
        → Touches (IsFileOf schema_name) old new
        → Moments (Crashes (λ image. FileHas one (image schema_name) ⊎ FileHas two (image schema_name))) old new
        → Moments (Crashes (HasOne (with_schema one s ∷ with_schema two s ∷ []))) old new }
    ensures schema_stands { (schema : Option (List (List ℕ))) (old new : Past) (s : State) → DirectoryStands old s
        → Touches (IsFileOf schema_name) old new → Rests new schema_name schema
        → DirectoryStands new (with_schema schema s) }
    ensures schema_sound { (old new : Past) (s : State) → DirectoryStands old s
        → Touches (IsFileOf schema_name) old new → Moments (λ past. IsSound past schema_name) old new
        → Moments DirectorySound old new }

    // A draft is no part of it, and neither is a sync.
    ensures drafts { (name : List ℕ) (old new : Past) (s : State) → DirectoryStands old s
        → Touches (λ n. n ≡ draft_name name) old new → Moments (λ past. DirectoryStands past s) old new }
    ensures nothing { (old new : Past) (s : State) → DirectoryStands old s → Touches (λ n. ⊥) old new
        → Moments (λ past. DirectoryStands past s) old new }
{}
