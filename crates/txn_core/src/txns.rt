//! The pending transactions, in the order of their beginning.

ghost use Rattle.std.specs.Prelude.{◌≡◌, [], List, Option, None, Some, MatchOption, IsSomeAnd, IfOk, IfErr, OnOk, OnErr, map};
ghost use Rattle.std.specs.Option.{option_map, option_copied};
ghost use Rattle.term_core.specs.View.{tree_of};
ghost use Rattle.db_model.specs.Database.{Table};
ghost use Rattle.db_model.specs.Lawful.{table_in};
ghost use Rattle.db_model.specs.Ops.{write, delete, delete_object};
ghost use Rattle.db_model.specs.View.{operation};
ghost use Rattle.db_state.specs.Live.{database};
ghost use Rattle.txn_core.specs.Calls.{change, read, match_object, all_keys, Reply, done, found, reply, view, ops_of};
ghost use Rattle.txn_core.specs.Locks.{lock_of, whole_table};
ghost use Rattle.txn_core.specs.Machine as machine;
ghost use Rattle.txn_core.specs.Pending.{Txn, calls_of, named, others, keeping, holder};
ghost use Rattle.txn_core.specs.Refusals.{call_refusal, lock_refusal};
ghost use Rattle.txn_core.specs.Requests.{call_of, IsChange, IsRead, IsKeyed, fit_refusal};
ghost use Rattle.txn_core.specs.Entries.{pending_at, HasFew, is_excepted, is_holder, first_holder};
ghost use Rattle.txn_core.specs.Shown.{Shows, Answers, told_unit, told_rows, IsRefusal};
ghost use Rattle.txn_core.specs.declared.error.TxnErr.TheVariants.{NoTxn, Memory};

use crate::error::TxnErr;
use crate::pending::Pending;
use crate::request::Request;
use db_model::Ops;
use db_state::Live;
use indexmap::IndexMap;
use sqlite_items::Items;
use std::alloc::{AllocError, Global};
use term_core::{Atom, Term};

/// How many transactions may be pending.
const MOST_PENDING: usize = 64;

/// How many calls a transaction may have.
const MOST_CALLS: u32 = 100_000;

/// The pending transactions.
#[derive(Drop)]
pub struct Txns {
    pending: IndexMap<Atom, Pending>,
}

impl Txns {
    /// No transactions.
    pub fn new(alloc: Global) -> Txns
        ensures { Shows result [] }
    {
        Txns {
            pending: IndexMap::new(alloc),
        }
    }

    /// Begins a transaction, as the last of those that are pending.
    pub fn begin(&mut self, alloc: Global, name: &Atom) -> Result<(), TxnErr>
        ensures { (tables : List Table)
            → Answers (machine.begin name.now) tables self.old self.new (told_unit machine.ok result) }
    {
        if self.pending.contains_key(name) {
            return Err(TxnErr::TxnExists);
        }
        if self.pending.len() >= MOST_PENDING {
            return Err(TxnErr::TooMany);
        }
        self.pending
            .insert(name.try_clone(alloc)?, Pending::new(alloc))?;
        Ok(())
    }

    /// Writes a record.
    pub fn write(
        &mut self,
        alloc: Global,
        live: &Live,
        name: &Atom,
        table: &Atom,
        rec: &Term,
    ) -> Result<(), TxnErr>
        ensures { Answers (machine.ask name.now (change (write table.now (tree_of rec.now))))
            (database live.now).tables self.old self.new (told_unit (machine.replied done) result) }
    {
        self.change(alloc, live, name, table, Request::Write(rec))
    }

    /// Deletes the records with a key.
    pub fn delete(
        &mut self,
        alloc: Global,
        live: &Live,
        name: &Atom,
        table: &Atom,
        key: &Term,
    ) -> Result<(), TxnErr>
        ensures { Answers (machine.ask name.now (change (delete table.now (tree_of key.now))))
            (database live.now).tables self.old self.new (told_unit (machine.replied done) result) }
    {
        self.change(alloc, live, name, table, Request::Delete(key))
    }

    /// Deletes a record.
    pub fn delete_object(
        &mut self,
        alloc: Global,
        live: &Live,
        name: &Atom,
        table: &Atom,
        rec: &Term,
    ) -> Result<(), TxnErr>
        ensures { Answers (machine.ask name.now (change (delete_object table.now (tree_of rec.now))))
            (database live.now).tables self.old self.new (told_unit (machine.replied done) result) }
    {
        self.change(alloc, live, name, table, Request::DeleteObject(rec))
    }

    /// Reads the records with a key.
    pub fn read(
        &mut self,
        alloc: Global,
        live: &Live,
        name: &Atom,
        table: &Atom,
        key: &Term,
    ) -> Result<Items<Term>, TxnErr>
        ensures { Answers (machine.ask name.now (read table.now (tree_of key.now))) (database live.now).tables
            self.old self.new (told_rows result) }
    {
        self.look(alloc, live, name, table, Request::Read(key))
    }

    /// Reads the records that match a pattern.
    pub fn match_object(
        &mut self,
        alloc: Global,
        live: &Live,
        name: &Atom,
        table: &Atom,
        pattern: &Term,
    ) -> Result<Items<Term>, TxnErr>
        ensures { Answers (machine.ask name.now (match_object table.now (tree_of pattern.now)))
            (database live.now).tables self.old self.new (told_rows result) }
    {
        self.look(alloc, live, name, table, Request::MatchObject(pattern))
    }

    /// Reads the keys.
    pub fn all_keys(
        &mut self,
        alloc: Global,
        live: &Live,
        name: &Atom,
        table: &Atom,
    ) -> Result<Items<Term>, TxnErr>
        ensures { Answers (machine.ask name.now (all_keys table.now)) (database live.now).tables
            self.old self.new (told_rows result) }
    {
        self.look(alloc, live, name, table, Request::AllKeys)
    }

    /// Takes a transaction out, with its locks and what it writes. Takes no memory.
    pub fn abort(&mut self, name: &Atom) -> Result<(), TxnErr>
        ensures answers { (tables : List Table)
            → Answers (machine.abort name.now) tables self.old self.new (told_unit machine.ok result) }
        ensures none { IfErr result (λ error. error ≡ NoTxn) }
    {
        if self.pending.get_index_of(name).is_none() {
            return Err(TxnErr::NoTxn);
        }
        self.pending.shift_remove(name);
        Ok(())
    }

    /// What a pending transaction writes, in order.
    pub fn ops(&self, name: &Atom) -> Option<&Ops>
        ensures { (pending : List Txn) → Shows self.now pending → MatchOption result
            (named name.now pending ≡ None)
            (λ ops. (txn : Txn) × (named name.now pending ≡ Some txn)
            × (map operation ops.now ≡ ops_of (calls_of txn.kept))) }
    {
        match self.pending.get(name) {
            Some(txn) => Some(txn.writes().ops()),
            None => None,
        }
    }

    /// The first transaction with a lock that conflicts with one on the key. Takes no memory.
    pub fn key_holder(&self, table: &Atom, key: &Term, writes: bool) -> Option<&Atom>
        ensures { (pending : List Txn) → Shows self.now pending → option_copied result ≡ holder record {
          table = table.now;
          key = Some (tree_of key.now);
          writes = writes;
        } pending }
    {
        self.first_holder(None, table, Some(key), writes)
    }

    /// The first transaction with any lock on the table. Takes no memory.
    pub fn holder(&self, table: &Atom) -> Option<&Atom>
        ensures { (pending : List Txn) → Shows self.now pending
            → option_copied result ≡ holder (whole_table table.now) pending }
    {
        self.first_holder(None, table, None, true)
    }

    /// Keeps a call that changes records, unless it is refused.
    fn change(
        &mut self,
        alloc: Global,
        live: &Live,
        name: &Atom,
        table: &Atom,
        request: Request,
    ) -> Result<(), TxnErr>
        requires { IsChange (call_of table.now request) }
        ensures { Answers (machine.ask name.now (call_of table.now request.entry)) (database live.now).tables
            self.old self.new (told_unit (machine.replied done) result) }
    {
        self.check(alloc, live, name, table, request)?;
        self.keep(alloc, name, table, request)
    }

    /// Keeps a call that reads, unless it is refused. What it finds is made first, so that no lock is held where memory
    /// runs out.
    fn look(
        &mut self,
        alloc: Global,
        live: &Live,
        name: &Atom,
        table: &Atom,
        request: Request,
    ) -> Result<Items<Term>, TxnErr>
        requires { IsRead (call_of table.now request) }
        ensures { Answers (machine.ask name.now (call_of table.now request.entry)) (database live.now).tables
            self.old self.new (told_rows result) }
    {
        self.check(alloc, live, name, table, request)?;
        let terms = self.find(alloc, live, name, table, request)?;
        self.keep(alloc, name, table, request)?;
        Ok(terms)
    }

    /// What the call finds through what the transaction wrote.
    fn find(
        &self,
        alloc: Global,
        live: &Live,
        name: &Atom,
        table: &Atom,
        request: Request,
    ) -> Result<Items<Term>, AllocError>
        requires { IsRead (call_of table.now request) }
        ensures { IfOk result (λ terms. (pending : List Txn) (txn : Txn) (own : Table) → Shows self.now pending
            → named name.now pending ≡ Some txn → table_in table.now (database live.now).tables ≡ Some own
            → reply (call_of table.now request.entry) (view (calls_of txn.kept) (database live.now).tables)
            ≡ found (map tree_of terms)) }
    {
        match self.pending.get(name) {
            Some(txn) => match live.table(table) {
                Some(records) => txn.find(alloc, table, records, request),
                None => Ok(Items::new(alloc)),
            },
            None => Ok(Items::new(alloc)),
        }
    }

    /// Keeps the call, which is not refused. Where memory runs out nothing is kept.
    fn keep(
        &mut self,
        alloc: Global,
        name: &Atom,
        table: &Atom,
        request: Request,
    ) -> Result<(), TxnErr>
        requires few { IsSomeAnd (pending_at name.now self.old) HasFew }
        requires keyed { IsKeyed (call_of table.now request) }
        ensures ok { OnOk result ((pending : List Txn) (reply : Reply) → Shows self.old pending → Shows self.new
            (keeping name.now record { call = call_of table.now request.entry; reply = reply } pending)) }
        ensures err { OnErr result ((pending : List Txn) → Shows self.old pending → Shows self.new pending) }
        ensures only_memory { IfErr result (λ error. error ≡ Memory) }
    {
        match self.pending.get_mut(name) {
            Some(txn) => txn.keep(alloc, table, request),
            None => Err(TxnErr::NoTxn),
        }
    }

    /// Whether the call is refused. Nothing is copied but the name of a transaction in its way.
    fn check(
        &self,
        alloc: Global,
        live: &Live,
        name: &Atom,
        table: &Atom,
        request: Request,
    ) -> Result<(), TxnErr>
        ensures refusal { (pending : List Txn) → Shows self.now pending → IsRefusal result
            (call_refusal name.now (call_of table.now request.entry) (database live.now).tables pending) }
        ensures few { OnOk result (IsSomeAnd (pending_at name.now self.now) HasFew) }
        ensures keyed { OnOk result (IsKeyed (call_of table.now request.entry)) }
    {
        match self.pending.get(name) {
            Some(txn) => {
                check_fit(live, table, request)?;
                if txn.calls() >= MOST_CALLS {
                    return Err(TxnErr::TooManyCalls);
                }
                self.check_locks(alloc, name, table, request)
            }
            None => Err(TxnErr::NoTxn),
        }
    }

    /// Whether the call is refused for a lock of another transaction.
    fn check_locks(
        &self,
        alloc: Global,
        name: &Atom,
        table: &Atom,
        request: Request,
    ) -> Result<(), TxnErr>
        ensures { (pending : List Txn) → Shows self.now pending → IsRefusal result
            (lock_refusal (holder (lock_of (call_of table.now request.entry)) (others name.now pending))) }
    {
        match self.first_holder(Some(name), table, request.key(), request.writes()) {
            Some(other) => Err(TxnErr::Locked(other.try_clone(alloc)?)),
            None => Ok(()),
        }
    }

    /// The first transaction, but the one that is excepted, with a lock that conflicts with this one.
    fn first_holder(
        &self,
        except: Option<&Atom>,
        table: &Atom,
        key: Option<&Term>,
        writes: bool,
    ) -> Option<&Atom>
        ensures { option_copied result ≡ first_holder (option_copied except.entry) record {
          table = table.now;
          key = option_map tree_of (option_copied key.entry);
          writes = writes;
        } self.now.pending.entries }
    {
        for i in 0..self.pending.len() {
            match self.pending.get_index(i) {
                Some((name, txn)) => {
                    if is_holder(except, name, txn, table, key, writes) {
                        return Some(name);
                    }
                }
                None => {}
            }
        }
        None
    }
}

/// Whether the call is refused for its table: that stands, and can have the record or the key.
fn check_fit(live: &Live, table: &Atom, request: Request) -> Result<(), TxnErr>
    ensures refusal { IsRefusal result
        (fit_refusal (call_of table.now request.entry) (table_in table.now (database live.now).tables)) }
    ensures keyed { OnOk result (IsKeyed (call_of table.now request.entry)) }
{
    live.key_law();
    match live.def(table) {
        Some(def) => {
            if request.is_fit(def) {
                Ok(())
            } else {
                Err(TxnErr::BadRecord)
            }
        }
        None => Err(TxnErr::NoTable),
    }
}

/// Whether the transaction is not the excepted one and holds a conflicting lock.
fn is_holder(
    except: Option<&Atom>,
    name: &Atom,
    txn: &Pending,
    table: &Atom,
    key: Option<&Term>,
    writes: bool,
) -> bool
    ensures { result ≡ is_holder (option_copied except.entry) record {
      table = table.now;
      key = option_map tree_of (option_copied key.entry);
      writes = writes;
    } (name.now, txn.now) }
{
    !is_excepted(except, name) && txn.blocks(table, key, writes)
}

/// Whether the name is the excepted one.
fn is_excepted(except: Option<&Atom>, name: &Atom) -> bool
    ensures { result ≡ is_excepted (option_copied except.entry) name.now }
{
    match except {
        Some(other) => *other == *name,
        None => false,
    }
}
