//! What holds of pending transactions over every run of the machine.

ghost use Rattle.std.specs.Prelude.{◌≡◌, ◌≤◌, ℕ, List, [], filter, length, All, Some};
ghost use Rattle.std.specs.List.{AllByRecursion};
ghost use Rattle.db_model.specs.Database.{Table, do_ops};
ghost use Rattle.db_model.specs.Lawful.{IsAllowedIn};
ghost use Rattle.txn_core.specs.Calls.{Call, reply, view, alone, ops_of};
ghost use Rattle.txn_core.specs.Locks.{lock_of, conflict};
ghost use Rattle.txn_core.specs.Machine.{State, Event, commit, committed, AreOrderly, Run, Step, idle};
ghost use Rattle.txn_core.specs.Pending.{Txn, calls_of, named};
ghost use Rattle.txn_core.specs.Serial.{told, IsSerial, IsTold, whole, serial};
ghost use Rattle.txn_core.specs.Sound.{Sound};

/// A transaction that commits got, with each of its calls since it began, what these calls get in their order and alone
/// on the tables just before the commit, and the tables after it are what they make of those.
pub fn transactions_law()
    ensures serial { (tables : List Table) (events : List Event) (old new : State) (name : List ℕ) → AreOrderly tables
        → Run (idle tables) events old → Step old record { order = commit name; answer = committed } new
        → IsSerial (told name [] events) old.tables new.tables }
    ensures alone { (tables : List Table) (events : List Event) (old new : State) (name : List ℕ) → AreOrderly tables
        → Run (idle tables) events old → Step old record { order = commit name; answer = committed } new
        → Run (idle old.tables) (whole name (told name [] events)) (idle new.tables) }
    ensures pending { (tables : List Table) (events : List Event) (now : State) → AreOrderly tables
        → Run (idle tables) events now → AllByRecursion (IsTold events now.tables) now.pending }
{}

/// Each state that a run reaches is sound: so what a pending transaction writes may be written to the tables as they
/// are now, and it is the ops of its calls.
pub fn sound_law()
    ensures start { (tables : List Table) → AreOrderly tables → Sound (idle tables) }
    ensures step { (old new : State) (event : Event) → Sound old → Step old event new → Sound new }
    ensures reached { (tables : List Table) (events : List Event) (now : State) → AreOrderly tables
        → Run (idle tables) events now → Sound now }
    ensures orderly { (state : State) → Sound state → AreOrderly state.tables }
    ensures allowed { (state : State) (name : List ℕ) (txn : Txn) → Sound state → named name state.pending ≡ Some txn
        → All (IsAllowedIn state.tables) (ops_of (calls_of txn.kept)) }
    ensures few { (state : State) (name : List ℕ) (txn : Txn) → Sound state → named name state.pending ≡ Some txn
        → length txn.kept ≤ 100000 }
    ensures few_pending { (state : State) → Sound state → length state.pending ≤ 64 }
    ensures view_is_ops { (calls : List Call) (tables : List Table) → view calls tables ≡ do_ops (ops_of calls) tables }
{}

/// Every run is, for the tables and for what was told to the transactions that committed and to single calls, a run in
/// which transactions stand one after another, in the order of their commits.
pub fn serial_law()
    ensures { (tables : List Table) (events : List Event) (new : State) → AreOrderly tables
        → Run (idle tables) events new → Run (idle tables) (serial [] events) (idle new.tables) }
{}

/// What a call gets after some calls is what it gets after those of them whose locks conflict with its own. So a read
/// of a key has to look at the changes of that key alone.
pub fn own_calls_law()
    ensures { (call : Call) (calls : List Call) (tables : List Table) → AreOrderly tables
        → reply call (view calls tables)
        ≡ reply call (view (filter (λ own. conflict (lock_of call) (lock_of own)) calls) tables) }
{}
