//! One pending transaction.

ghost use Rattle.std.specs.Prelude.{◌≡◌, map, Option, IfOk, IfErr, IsSome, OnOk, OnErr};
ghost use Rattle.std.specs.Option.{option_map, option_copied};
ghost use Rattle.term_core.specs.View.{tree_of};
ghost use Rattle.db_model.specs.View.{operation};
ghost use Rattle.txn_writes.specs.Seen.{seen, key_changed};
ghost use Rattle.txn_core.specs.Calls.{change};
ghost use Rattle.txn_core.specs.Requests.{call_of, IsRead, Finds, IsKeyed};
ghost use Rattle.txn_core.specs.Entries.{holds_lock, IsFresh, Takes, Keeps, Locks, IsAlike, HasFew};
ghost use Rattle.txn_core.specs.declared.error.TxnErr.TheVariants.{Memory};

use crate::error::TxnErr;
use crate::read_locks::ReadLocks;
use crate::request::Request;
use db_model::Op;
use ram_table::RamTable;
use sqlite_items::Items;
use std::alloc::{AllocError, Global};
use term_core::{Atom, Term, TermErr};
use txn_writes::Writes;

/// One pending transaction.
#[derive(Drop)]
pub struct Pending {
    /// The locks for reading, but those on keys that were changed before.
    reads: ReadLocks,
    /// How many calls it kept.
    calls: u32,
    /// What it writes. The keys that this changes are locked for writing.
    writes: Writes,
}

impl Pending {
    /// A transaction that kept no call.
    pub fn new(alloc: Global) -> Pending
        ensures { IsFresh result }
    {
        Pending {
            reads: ReadLocks::new(alloc),
            calls: 0,
            writes: Writes::new(alloc),
        }
    }

    /// How many calls it kept.
    pub fn calls(&self) -> u32
        ensures { result ≡ self.now.calls }
    {
        self.calls
    }

    /// What it writes.
    pub fn writes(&self) -> &Writes
        ensures { result.now ≡ self.now.writes }
    {
        &self.writes
    }

    /// Whether a lock, on a key or on all of a table, conflicts with one of its own.
    pub fn blocks(&self, table: &Atom, key: Option<&Term>, writes: bool) -> bool
        ensures { result ≡ holds_lock self.now record {
          table = table.now;
          key = option_map tree_of (option_copied key.entry);
          writes = writes;
        } }
    {
        self.writes.changes(table, key) || writes && self.reads.bars(table, key)
    }

    /// What a call that reads finds in the table, through what the transaction wrote.
    pub fn find(
        &self,
        alloc: Global,
        table: &Atom,
        records: &RamTable,
        request: Request,
    ) -> Result<Items<Term>, AllocError>
        requires { IsRead (call_of table.now request) }
        ensures { IfOk result (λ terms. Finds (call_of table.now request.entry)
            (seen table.now self.now.writes records.now) (map tree_of terms)) }
    {
        match request {
            Request::Read(key) => self.writes.read(alloc, table, records, key),
            Request::MatchObject(pattern) => {
                self.writes.match_object(alloc, table, records, pattern)
            }
            Request::AllKeys => self.writes.all_keys(alloc, table, records),
            Request::Write(_) => Ok(Items::new(alloc)),
            Request::Delete(_) => Ok(Items::new(alloc)),
            Request::DeleteObject(_) => Ok(Items::new(alloc)),
        }
    }

    /// Keeps the call: its op and its lock.
    pub fn keep(&mut self, alloc: Global, table: &Atom, request: Request) -> Result<(), TxnErr>
        requires few { HasFew self.old }
        requires keyed { IsKeyed (call_of table.now request) }
        ensures ok { OnOk result (Keeps self.old self.new (call_of table.now request.entry)) }
        ensures err { OnErr result (IsAlike self.old self.new) }
        ensures only_memory { IfErr result (λ error. error ≡ Memory) }
    {
        self.take(alloc, table, request)?;
        self.calls += 1;
        Ok(())
    }

    /// Takes the call's op, or where it has none its lock.
    fn take(&mut self, alloc: Global, table: &Atom, request: Request) -> Result<(), TxnErr>
        requires keyed { IsKeyed (call_of table.now request) }
        ensures ok { OnOk result (Takes self.old self.new (call_of table.now request.entry)) }
        ensures err { OnErr result (IsAlike self.old self.new) }
        ensures only_memory { IfErr result (λ error. error ≡ Memory) }
    {
        match request.op(alloc, table)? {
            Some(op) => self.write(alloc, op)?,
            None => self.lock(alloc, table, request.key())?,
        }
        Ok(())
    }

    /// Writes the op behind the others. Its key is locked for writing by that.
    fn write(&mut self, alloc: Global, op: Op) -> Result<(), AllocError>
        requires keyed { IsSome (key_changed (operation op)) }
        ensures ok { OnOk result (Takes self.old self.new (change (operation op))) }
        ensures err { OnErr result (IsAlike self.old self.new) }
    {
        self.writes.push(alloc, op)
    }

    /// Locks a key, or all of a table, for reading. A key that is locked for writing is locked enough.
    fn lock(&mut self, alloc: Global, table: &Atom, key: Option<&Term>) -> Result<(), TermErr>
        ensures ok { OnOk result
            (Locks self.old self.new table.now (option_map tree_of (option_copied key.entry))) }
        ensures err { OnErr result (IsAlike self.old self.new) }
    {
        if key.is_some() && self.writes.changes(table, key) {
            return Ok(());
        }
        self.reads.take(alloc, table, key)
    }
}
