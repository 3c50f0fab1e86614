//! Lists, which contracts see as plain lists.
//!
//! Each has the calls of `Items`: an empty list comes from `new`, `push` adds an element at the end or leaves the list as it was,
//! `len` counts the elements, and `get` gives the one at a place, from 0.

use crate::commit::SchemaOp;
use crate::definition::TableDef;
use crate::op::Op;
use sqlite_items::Items;
use term_core::Term;

/// Terms: records, or the attributes of a table.
pub type Rows = Items<Term>;

/// Ops, the first to be done first.
pub type Ops = Items<Op>;

/// Schema ops, the first to be done first.
pub type SchemaOps = Items<SchemaOp>;

/// Definitions of tables.
pub type Defs = Items<TableDef>;

/// Positions of attributes in a record. That of the first attribute, the key, is 2.
pub type Positions = Items<u32>;
