//! What a commit does to the records of a table.

ghost use Rattle.std.specs.Prelude.{◌≡◌, IfOk};

use crate::copies::{TryCopy, copied_atom, copied_term};
use std::alloc::{AllocError, Global};
use term_core::{Atom, Term};

/// What is done to the records of the table that is named.
#[derive(Drop)]
pub enum Op {
    /// A record is written.
    Write(Atom, Term),
    /// The records with a key are deleted.
    Delete(Atom, Term),
    /// A record is deleted.
    DeleteObject(Atom, Term),
    /// All records are deleted.
    Clear(Atom),
}

impl Op {
    /// An op that equals this one.
    pub fn try_clone(&self, alloc: Global) -> Result<Op, AllocError>
        ensures { IfOk result (λ copy. copy ≡ self.now) }
    {
        match self {
            Op::Write(table, record) => Ok(Op::Write(
                copied_atom(alloc, table)?,
                copied_term(alloc, record)?,
            )),
            Op::Delete(table, key) => Ok(Op::Delete(
                copied_atom(alloc, table)?,
                copied_term(alloc, key)?,
            )),
            Op::DeleteObject(table, record) => Ok(Op::DeleteObject(
                copied_atom(alloc, table)?,
                copied_term(alloc, record)?,
            )),
            Op::Clear(table) => Ok(Op::Clear(copied_atom(alloc, table)?)),
        }
    }
}

impl TryCopy for Op {
    fn try_copy(&self, alloc: Global) -> Result<Op, AllocError> {
        self.try_clone(alloc)
    }
}
