//! What a transaction asks of a table.

ghost use Rattle.std.specs.Prelude.{◌≡◌, ◌↔◌, ℕ, List, IfOk, IsTrue};
ghost use Rattle.std.specs.Option.{option_map, option_copied};
ghost use Rattle.term_core.specs.View.{tree_of};
ghost use Rattle.db_model.specs.Records.{IsStorable};
ghost use Rattle.db_model.specs.View.{definition, operation};
ghost use Rattle.txn_core.specs.Locks.{lock_of};
ghost use Rattle.txn_core.specs.Refusals.{fits, may_call, is_storable};
ghost use Rattle.txn_core.specs.Requests.{call_of, change_of};

use db_model::{Op, TableDef, fits};
use std::alloc::Global;
use term_core::{Atom, Term, TermErr, wire_len};

/// The levels of the deepest key.
const MOST_LEVELS: u32 = 100;

/// The bytes of the longest key's text.
const MOST_BYTES: u64 = 1 << 26;

/// A call on a table, whose term is lent.
#[derive(Clone, Copy)]
pub enum Request<'a> {
    /// Writes a record.
    Write(&'a Term),
    /// Deletes the records with a key.
    Delete(&'a Term),
    /// Deletes a record.
    DeleteObject(&'a Term),
    /// Reads the records with a key.
    Read(&'a Term),
    /// Reads the records that match a pattern.
    MatchObject(&'a Term),
    /// Reads the keys.
    AllKeys,
}

impl<'a> Request<'a> {
    /// The key that is locked. All of the table is where there is none.
    pub fn key(self) -> Option<&'a Term>
        ensures { (table : List ℕ)
            → option_map tree_of (option_copied result) ≡ (lock_of (call_of table self.entry)).key }
    {
        match self {
            Request::Write(row) => row.key(),
            Request::Delete(key) => Some(key),
            Request::DeleteObject(row) => row.key(),
            Request::Read(key) => Some(key),
            Request::MatchObject(_) => None,
            Request::AllKeys => None,
        }
    }

    /// Whether the lock is one for writing.
    pub fn writes(self) -> bool
        ensures { (table : List ℕ) → result ≡ (lock_of (call_of table self.entry)).writes }
    {
        match self {
            Request::Write(_) => true,
            Request::Delete(_) => true,
            Request::DeleteObject(_) => true,
            Request::Read(_) => false,
            Request::MatchObject(_) => false,
            Request::AllKeys => false,
        }
    }

    /// Whether a table of this definition can have the record or the key.
    pub fn is_fit(self, def: &TableDef) -> bool
        ensures { (table : List ℕ) → result ≡ may_call (definition def.now) (call_of table self.entry) }
    {
        match self {
            Request::Write(row) => is_record(def, row),
            Request::Delete(key) => is_storable(key),
            Request::DeleteObject(row) => is_record(def, row),
            Request::Read(_) => true,
            Request::MatchObject(_) => true,
            Request::AllKeys => true,
        }
    }

    /// The op that it does to the table.
    pub fn op(self, alloc: Global, table: &Atom) -> Result<Option<Op>, TermErr>
        ensures { IfOk result (λ op. option_map operation op ≡ change_of (call_of table.now self.entry)) }
    {
        match self {
            Request::Write(row) => Ok(Some(Op::Write(
                table.try_clone(alloc)?,
                row.try_clone(alloc)?,
            ))),
            Request::Delete(key) => Ok(Some(Op::Delete(
                table.try_clone(alloc)?,
                key.try_clone(alloc)?,
            ))),
            Request::DeleteObject(row) => Ok(Some(Op::DeleteObject(
                table.try_clone(alloc)?,
                row.try_clone(alloc)?,
            ))),
            Request::Read(_) => Ok(None),
            Request::MatchObject(_) => Ok(None),
            Request::AllKeys => Ok(None),
        }
    }
}

fn is_record(def: &TableDef, row: &Term) -> bool
    ensures { result ≡ fits (definition def.now) (tree_of row.now) }
{
    fits(def, row)
}

/// Whether a key is small enough to be stored.
fn is_storable(key: &Term) -> bool
    ensures { result ≡ is_storable (tree_of key.now) }
{
    is_small(key)
}

fn is_small(key: &Term) -> bool
    ensures { IsTrue result ↔ IsStorable (tree_of key.now) }
{
    key.depth_within(MOST_LEVELS) && wire_len(key) <= MOST_BYTES
}
