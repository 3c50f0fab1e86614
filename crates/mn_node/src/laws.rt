//! What holds of every directory, and of every run.

ghost use Rattle.std.specs.Prelude.{◌≡◌, ◌⊎◌, ℕ, List, []};
ghost use Rattle.txn_core.specs.Machine as txns;
ghost use Rattle.txn_core.specs.Serial.{told, IsSerial, serial};
ghost use Rattle.mn_node.specs.Durable.{Durable};
ghost use Rattle.mn_node.specs.Effects.{commit_txn, done};
ghost use Rattle.mn_node.specs.Machine.{Machine, command, Step, IsLawfulMachine, unstarted_machine};
ghost use Rattle.mn_node.specs.Meaning.{Files, Meaning, Means, Stands, IsBroken};
ghost use Rattle.mn_node.specs.Serial.{Act, Run, tables_of, state_of, all_seen};

/// A directory stands for one durable state, or has no meaning from one place of one file on, and never both.
#[tactic(none)]
pub fn directory_law()
    ensures either { (files : Files)
        → ((w : Durable) × Stands files w) ⊎ ((name : List ℕ) × (at : ℕ) × IsBroken files name at) }
    ensures never_both { (files : Files) (w : Durable) (name : List ℕ) (at : ℕ)
        → Stands files w → IsBroken files name at → ⊥ }
    ensures one { (files : Files) (w other : Durable) → Stands files w → Stands files other → w ≡ other }
    ensures one_place { (files : Files) (name other : List ℕ) (at place : ℕ)
        → IsBroken files name at → IsBroken files other place → (name ≡ other) × (at ≡ place) }
{}

/// Every run is one of the machine of transactions, over the same tables and pending transactions.
///
/// A transaction that commits got, with each of its calls since it began, what these calls get in their order and alone
/// on the tables just before the commit, and the tables after it are what they make of those. So the whole run is, for
/// the tables and for what was told to the transactions that committed and to single calls, one in which transactions
/// stand one after another, in the order of their commits.
#[tactic(none)]
pub fn transactions_law()
    ensures run { (files : Files) (meaning : Meaning) (acts : List Act) (now : Machine) → Means files meaning
        → IsLawfulMachine (unstarted_machine meaning) → Run (unstarted_machine meaning) acts now
        → txns.Run (txns.idle (tables_of (unstarted_machine meaning))) (all_seen (unstarted_machine meaning) acts)
        (state_of now) }
    ensures serial { (files : Files) (meaning : Meaning) (acts : List Act) (old new : Machine) (name : List ℕ)
        → Means files meaning → IsLawfulMachine (unstarted_machine meaning) → Run (unstarted_machine meaning) acts old
        → Step old (command (commit_txn name)) done new → IsLawfulMachine new
        → IsSerial (told name [] (all_seen (unstarted_machine meaning) acts)) (tables_of old) (tables_of new) }
    ensures in_order { (files : Files) (meaning : Meaning) (acts : List Act) (now : Machine) → Means files meaning
        → IsLawfulMachine (unstarted_machine meaning) → Run (unstarted_machine meaning) acts now
        → txns.Run (txns.idle (tables_of (unstarted_machine meaning)))
        (serial [] (all_seen (unstarted_machine meaning) acts)) (txns.idle (tables_of now)) }
{}
