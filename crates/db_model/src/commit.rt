//! What a transaction changes.

ghost use Rattle.std.specs.Prelude.{◌≡◌, IfOk};

use crate::copies::{TryCopy, copied, copied_atom};
use crate::definition::TableDef;
use crate::lists::{Ops, SchemaOps};
use std::alloc::{AllocError, Global};
use term_core::Atom;

/// What is done to a table as a whole.
#[derive(Drop)]
pub enum SchemaOp {
    /// The table is made, without records.
    Create(TableDef),
    /// The table goes, with its records.
    DropTable(Atom),
    /// The attribute at this position is indexed from now on.
    AddIndex(Atom, u32),
    /// The attribute at this position is no longer indexed.
    DelIndex(Atom, u32),
    /// The table has this definition from now on, and loses its records.
    Remake(TableDef),
}

/// What a transaction changes. The schema ops are done before the ops, and the version is that of the database behind them.
#[derive(Drop)]
pub struct Commit {
    pub version: u64,
    pub schema_ops: SchemaOps,
    pub ops: Ops,
}

impl SchemaOp {
    /// A schema op that equals this one.
    pub fn try_clone(&self, alloc: Global) -> Result<SchemaOp, AllocError>
        ensures { IfOk result (λ copy. copy ≡ self.now) }
    {
        match self {
            SchemaOp::Create(table) => Ok(SchemaOp::Create(table.try_clone(alloc)?)),
            SchemaOp::DropTable(name) => Ok(SchemaOp::DropTable(copied_atom(alloc, name)?)),
            SchemaOp::AddIndex(name, position) => {
                Ok(SchemaOp::AddIndex(copied_atom(alloc, name)?, *position))
            }
            SchemaOp::DelIndex(name, position) => {
                Ok(SchemaOp::DelIndex(copied_atom(alloc, name)?, *position))
            }
            SchemaOp::Remake(table) => Ok(SchemaOp::Remake(table.try_clone(alloc)?)),
        }
    }
}

impl TryCopy for SchemaOp {
    fn try_copy(&self, alloc: Global) -> Result<SchemaOp, AllocError> {
        self.try_clone(alloc)
    }
}

impl Commit {
    /// A commit that equals this one.
    pub fn try_clone(&self, alloc: Global) -> Result<Commit, AllocError>
        ensures { IfOk result (λ copy. copy ≡ self.now) }
    {
        Ok(Commit {
            version: self.version,
            schema_ops: copied(alloc, &self.schema_ops)?,
            ops: copied(alloc, &self.ops)?,
        })
    }
}
