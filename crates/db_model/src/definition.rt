//! Tables and their definitions.

ghost use Rattle.std.specs.Prelude.{◌≡◌, IfOk};

use crate::copies::{TryCopy, copied, copied_atom};
use crate::lists::{Defs, Positions, Rows};
use sqlite_items::Items;
use std::alloc::{AllocError, Global};
use term_core::Atom;

/// How many records a key can have, and in which order keys are given.
#[derive(Clone, Copy, Debug, PartialEq, Eq)]
pub enum Kind {
    /// One record a key.
    Set,
    /// One record a key, and keys are in the order of terms.
    OrderedSet,
    /// Any number of different records a key.
    Bag,
}

/// What a table is called and which records it can have.
#[derive(Drop)]
pub struct TableDef {
    pub name: Atom,
    pub kind: Kind,
    /// The first element of each record.
    pub record_name: Atom,
    /// What the other elements are called, by atoms. The first of them is the key.
    pub attributes: Rows,
    /// The positions of the attributes that are indexed.
    pub index: Positions,
    /// The version of the commit that made or remade the table.
    pub cookie: u64,
}

/// The tables of a database, and the version of the last commit to change their definitions.
#[derive(Drop)]
pub struct Schema {
    pub version: u64,
    pub tables: Defs,
}

impl TableDef {
    /// A definition that equals this one.
    pub fn try_clone(&self, alloc: Global) -> Result<TableDef, AllocError>
        ensures { IfOk result (λ copy. copy ≡ self.now) }
    {
        Ok(TableDef {
            name: copied_atom(alloc, &self.name)?,
            kind: self.kind,
            record_name: copied_atom(alloc, &self.record_name)?,
            attributes: copied(alloc, &self.attributes)?,
            index: Items::from_slice(alloc, self.index.as_slice())?,
            cookie: self.cookie,
        })
    }
}

impl TryCopy for TableDef {
    fn try_copy(&self, alloc: Global) -> Result<TableDef, AllocError> {
        self.try_clone(alloc)
    }
}

impl Schema {
    /// A schema that equals this one.
    pub fn try_clone(&self, alloc: Global) -> Result<Schema, AllocError>
        ensures { IfOk result (λ copy. copy ≡ self.now) }
    {
        Ok(Schema {
            version: self.version,
            tables: copied(alloc, &self.tables)?,
        })
    }
}
