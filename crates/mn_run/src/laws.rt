//! What holds of every run's transactions.

ghost use Rattle.std.specs.Prelude.{◌≡◌, ℕ, List, [], ◌∷◌, ◌++◌};
ghost use Rattle.file_trait.specs.DiskModel.{Past};
ghost use Rattle.txn_core.specs.Machine as txns;
ghost use Rattle.txn_core.specs.Serial.{told, IsSerial, serial};
ghost use Rattle.mn_node.specs.Effects.{commit_txn, done};
ghost use Rattle.mn_node.specs.Machine.{command, unstarted_machine};
ghost use Rattle.mn_node.specs.Meaning.{Files, Meaning, Means};
ghost use Rattle.mn_node.specs.Serial.{tables_of};
ghost use Rattle.mn_run.specs.Runs.{Act, IsTrusted, IsRun, unbegun, last_of};
ghost use Rattle.mn_run.specs.Transactions.{seen_of};

/// What `run` says of its acts makes its transactions serial.
///
/// A transaction whose commit was answered `done` got, with each of its calls since it began, what these calls get in
/// their order and alone on the tables just before that commit, and the tables after it are what they make of those.
/// The whole run is, for the tables and for what was told to the transactions that committed and to single calls, one
/// in which transactions stand one after another, in the order of their commits.
#[tactic(none)]
pub fn transactions_law()
    ensures serial { (files : Files) (meaning : Meaning) (past : Past) (faults : ℕ) (acts : List Act) (act : Act)
        (name : List ℕ) → Means files meaning → IsTrusted meaning past
        → IsRun past (unbegun meaning past faults) (acts ++ act ∷ [])
        → act.event ≡ command (commit_txn name) → act.answer ≡ done
        → IsSerial (told name [] (seen_of meaning acts))
        (tables_of (last_of (unbegun meaning past faults) acts).machine) (tables_of act.after.machine) }
    ensures in_order { (files : Files) (meaning : Meaning) (past : Past) (faults : ℕ) (acts : List Act)
        → Means files meaning → IsTrusted meaning past → IsRun past (unbegun meaning past faults) acts
        → txns.Run (txns.idle (tables_of (unstarted_machine meaning))) (serial [] (seen_of meaning acts))
        (txns.idle (tables_of (last_of (unbegun meaning past faults) acts).machine)) }
{}
