//! What a node that is up does with pending transactions.

ghost use Rattle.std.specs.Prelude.{◌≡◌, ◌<◌, ◌-◌, ◌^◌, ℕ, List, [], map, IsSome, IsTrue, IfOk};
ghost use Rattle.term_core.specs.View.{tree_of};
ghost use Rattle.disk_logs.specs.Logs.{IsLog};
ghost use Rattle.db_model.specs.Commits.{CommitRecord};
ghost use Rattle.db_model.specs.Ops as ops;
ghost use Rattle.db_model.specs.View.{operation, commit_record};
ghost use Rattle.txn_core.specs.Calls as calls;
ghost use Rattle.txn_core.specs.Pending.{Txn, named, others};
ghost use Rattle.txn_core.specs.Shown.{Shows as ShowsTxns};
ghost use Rattle.txn_log.specs.Logs.{handle};
ghost use Rattle.mn_node.specs.Durable.{made};
ghost use Rattle.mn_node.specs.Effects.{effect, pending_after};
ghost use Rattle.mn_node.specs.Effects as machine;
ghost use Rattle.mn_node.specs.Inside.Transacts.{Transacts, IsBarOf};
ghost use Rattle.mn_node.specs.Inside.Tries.{Tries, Attempts, PendsOut, durable};
ghost use Rattle.mn_node.specs.Shown.{OpenShows, Pends, HasPending};

use crate::open::{Done, Open, Trouble, told};
use crate::reply::Reply;
use db_model::{Commit, Ops, SchemaOps};
use file_trait::Disk;
use sqlite_items::Items;
use std::alloc::{AllocError, Global};
use term_core::{Atom, Term};
use txn_core::{TxnErr, Txns};

/// What is answered where a call of the transaction was refused. A call without a table has its transaction's name for
/// one, and one without an item the empty list.
fn barred(error: TxnErr, name: Atom, table: Option<Atom>, item: Term) -> Result<Done, Trouble>
    ensures { IsBarOf error name table item result }
{
    let reply = match error {
        TxnErr::NoTxn => Reply::NoTransaction(name),
        TxnErr::TxnExists => Reply::Exists(name),
        TxnErr::TooMany => Reply::TooManyTransactions,
        TxnErr::NoTable => Reply::NoTable(table.unwrap_or(name)),
        TxnErr::BadRecord => Reply::BadRecord(item),
        TxnErr::TooManyCalls => Reply::TooManyCalls,
        TxnErr::Locked(by) => Reply::Locked(by),
        TxnErr::Memory => return Err(Trouble::Memory),
    };
    Ok(told(reply))
}

/// The empty list, which takes no memory.
fn no_item(alloc: Global) -> Term
    ensures { tree_of result ≡ machine.no_item }
{
    Term::List(Items::new(alloc))
}

/// The commit of these ops, which are copied.
fn ops_commit(alloc: Global, version: u64, ops: &Ops) -> Result<Commit, AllocError>
    ensures { IfOk result (λ commit. commit_record commit
        ≡ record { version = version; schema_operations = []; operations = map operation ops.now }) }
{
    let mut copies = Ops::new(alloc);
    for op in ops.as_slice() {
        copies.push(op.try_clone(alloc)?)?;
    }
    Ok(Commit {
        version,
        schema_ops: SchemaOps::new(alloc),
        ops: copies,
    })
}

/// Drops a transaction that is pending.
fn drop_txn(txns: &mut Txns, name: &Atom)
    ensures { (pending : List Txn) → ShowsTxns txns.old pending → IsSome (named name.now pending)
        → ShowsTxns txns.new (others name.now pending) }
{
    let _ = txns.abort(name);
}

impl Open {
    /// Begins a transaction.
    pub fn begin(&mut self, alloc: Global, name: Atom) -> Result<Done, Trouble>
        ensures { Transacts self.old self.new (machine.begin name) result }
    {
        match self.txns.begin(alloc, &name) {
            Ok(()) => Ok(told(Reply::Ok)),
            Err(error) => barred(error, name, None, no_item(alloc)),
        }
    }

    /// Writes a record in a transaction.
    pub fn write(
        &mut self,
        alloc: Global,
        name: Atom,
        table: Atom,
        row: Term,
    ) -> Result<Done, Trouble>
        ensures { Transacts self.old self.new (machine.ask name (calls.change (ops.write table (tree_of row)))) result }
    {
        match self.txns.write(alloc, &self.tables, &name, &table, &row) {
            Ok(()) => Ok(told(Reply::Ok)),
            Err(error) => barred(error, name, Some(table), row),
        }
    }

    /// Deletes the records with a key in a transaction.
    pub fn delete_key(
        &mut self,
        alloc: Global,
        name: Atom,
        table: Atom,
        key: Term,
    ) -> Result<Done, Trouble>
        ensures { Transacts self.old self.new
            (machine.ask name (calls.change (ops.delete table (tree_of key)))) result }
    {
        match self.txns.delete(alloc, &self.tables, &name, &table, &key) {
            Ok(()) => Ok(told(Reply::Ok)),
            Err(error) => barred(error, name, Some(table), key),
        }
    }

    /// Deletes a record in a transaction.
    pub fn delete_object(
        &mut self,
        alloc: Global,
        name: Atom,
        table: Atom,
        row: Term,
    ) -> Result<Done, Trouble>
        ensures { Transacts self.old self.new
            (machine.ask name (calls.change (ops.delete_object table (tree_of row)))) result }
    {
        match self
            .txns
            .delete_object(alloc, &self.tables, &name, &table, &row)
        {
            Ok(()) => Ok(told(Reply::Ok)),
            Err(error) => barred(error, name, Some(table), row),
        }
    }

    /// The records with a key, as a transaction sees them.
    pub fn read(
        &mut self,
        alloc: Global,
        name: Atom,
        table: Atom,
        key: Term,
    ) -> Result<Done, Trouble>
        ensures { Transacts self.old self.new (machine.ask name (calls.read table (tree_of key))) result }
    {
        match self.txns.read(alloc, &self.tables, &name, &table, &key) {
            Ok(rows) => Ok(told(Reply::Found(rows))),
            Err(error) => barred(error, name, Some(table), key),
        }
    }

    /// The records that match a pattern, as a transaction sees them.
    pub fn match_object(
        &mut self,
        alloc: Global,
        name: Atom,
        table: Atom,
        pattern: Term,
    ) -> Result<Done, Trouble>
        ensures { Transacts self.old self.new (machine.ask name (calls.match_object table (tree_of pattern))) result }
    {
        match self
            .txns
            .match_object(alloc, &self.tables, &name, &table, &pattern)
        {
            Ok(rows) => Ok(told(Reply::Found(rows))),
            Err(error) => barred(error, name, Some(table), pattern),
        }
    }

    /// The keys of a table, as a transaction sees them.
    pub fn all_keys(&mut self, alloc: Global, name: Atom, table: Atom) -> Result<Done, Trouble>
        ensures { Transacts self.old self.new (machine.ask name (calls.all_keys table)) result }
    {
        match self.txns.all_keys(alloc, &self.tables, &name, &table) {
            Ok(keys) => Ok(told(Reply::Found(keys))),
            Err(error) => barred(error, name, Some(table), no_item(alloc)),
        }
    }

    /// Commits what a transaction wrote. One that wrote nothing appends nothing, and one that is refused for its length
    /// stays pending.
    pub fn commit_txn<D: Disk>(
        &mut self,
        alloc: Global,
        disk: &mut D,
        name: Atom,
    ) -> Result<Done, Trouble>
        requires log { IsTrue D.tells → IsLog (D.past disk.old) (handle self.old.log) }
        requires few { self.old.log.commits < 2 ^ 64 - 1 }
        requires pending { HasPending self.old }
        ensures tries { IsTrue D.tells → (commits : List CommitRecord) (synced : ℕ) (pending : List Txn)
            → OpenShows self.old (D.past disk.old) commits synced → Pends self.old pending
            → Tries (effect (made commits) pending (machine.commit_txn name)) commits synced result self.new
            (D.past disk.old) (D.past disk.new) }
        ensures pends { (pending : List Txn) → Pends self.old pending
            → PendsOut result self.new pending (pending_after (durable self.old) pending (machine.commit_txn name)) }
        ensures owes { Attempts D.Disk disk.old disk.new self.old.log self.new.log result }
    {
        let Some(ops) = self.txns.ops(&name) else {
            return Ok(told(Reply::NoTransaction(name)));
        };
        if ops.is_empty() {
            drop_txn(&mut self.txns, &name);
            return Ok(told(Reply::Done));
        }
        let commit = ops_commit(alloc, self.tables.schema().version, ops)?;
        let done = self.commit(alloc, disk, &commit, false)?;
        if done.wrote {
            drop_txn(&mut self.txns, &name);
        }
        Ok(done)
    }

    /// Drops a transaction, with what it wrote. Takes no memory.
    pub fn abort(&mut self, name: Atom) -> Result<Done, Trouble>
        ensures { Transacts self.old self.new (machine.abort name) result }
    {
        match self.txns.abort(&name) {
            Ok(()) => Ok(told(Reply::Ok)),
            Err(_) => Ok(told(Reply::NoTransaction(name))),
        }
    }
}
