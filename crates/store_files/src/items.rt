//! What is written of a definition, of a record and of an op: an item of their file.

ghost use Rattle.std.specs.Prelude.{◌≡◌, ◌⊎◌, ◌<◌, ◌≤◌, ◌^◌, length, IfOk, IfErr, OnOk, IsErrOf};
ghost use Rattle.term_core.specs.Tree.{Tree, depth};
ghost use Rattle.term_core.specs.View.{tree_of};
ghost use Rattle.term_core.specs.Written.{canon};
ghost use Rattle.term_wire.specs.Spelling.{IsText};
ghost use Rattle.log_items.specs.Items.{item_bytes, IsContent};
ghost use Rattle.db_model.specs.Definitions.{Definition, IsDefinition};
ghost use Rattle.db_model.specs.Names.{IsTableName};
ghost use Rattle.db_model.specs.Ops.{table_of, op_tree};
ghost use Rattle.db_model.specs.Records.{IsStorable};
ghost use Rattle.db_model.specs.View.{definition, operation};
ghost use Rattle.store_files.specs.Forms.{IsItemOf};
ghost use Rattle.store_files.specs.Schema.{table_tree, schema_form};
ghost use Rattle.store_files.specs.Tables.{dcd_form, dcl_form};

use crate::heads::atom_term;
use db_model::{Op, TableDef, create_list, op_term};
use disk_logs::LogErr;
use log_items::{ItemErr, put_item};
use sqlite_items::Items;
use std::alloc::{AllocError, Global};
use term_core::Term;
use term_wire::{EncodeErr, encode};

/// What stands in front of an item's content.
const HEADER_BYTES: usize = 16;

/// The item of a table: `{table,Table,Cookie,CreateList}`. It is `TooLong` exactly where its text has more than 2^28
/// bytes, and its only other refusal is want of memory.
pub fn table_item(alloc: Global, def: &TableDef) -> Result<Vec<u8>, LogErr>
    requires { IsDefinition (definition def.now) }
    ensures item { IfOk result (λ item. IsItemOf schema_form (definition def.now) item.items) }
    ensures text { IfOk result (λ item. item.items ≡ item_bytes (canon (table_tree (definition def.now)))) }
    ensures long { IsErrOf result LogErr.TooLong → 2 ^ 28 < length (canon (table_tree (definition def.now))) }
    ensures only { IfErr result (λ error. (error ≡ LogErr.TooLong) ⊎ (error ≡ LogErr.Memory)) }
{
    term_item(alloc, &table_term(alloc, def)?)
}

/// The item of a record, which is small enough to be stored. It is refused only where memory is wanting.
pub fn record_item(alloc: Global, row: &Term) -> Result<Vec<u8>, AllocError>
    requires { IsStorable (tree_of row.now) }
    ensures item { (table : Definition) → IfOk result (λ item. IsItemOf (dcd_form table) (tree_of row.now) item.items) }
    ensures text { IfOk result (λ item. item.items ≡ item_bytes (canon (tree_of row.now))) }
{
    match term_item(alloc, row) {
        Ok(item) => Ok(item),
        Err(_) => Err(AllocError),
    }
}

/// The item of an op: `{write,Table,Row}`, `{delete,Table,Key}`, `{delete_object,Table,Row}` or `{clear,Table}`. It is
/// `TooLong` exactly where its text has more than 2^28 bytes, and its only other refusal is want of memory.
pub fn change_item(alloc: Global, op: &Op) -> Result<Vec<u8>, LogErr>
    requires named { IsTableName (table_of (operation op.now)) }
    requires levels { depth (op_tree (operation op.now)) ≤ 128 }
    ensures item { (table : Definition)
        → IfOk result (λ item. IsItemOf (dcl_form table) (operation op.now) item.items) }
    ensures text { IfOk result (λ item. item.items ≡ item_bytes (canon (op_tree (operation op.now)))) }
    ensures long { IsErrOf result LogErr.TooLong → 2 ^ 28 < length (canon (op_tree (operation op.now))) }
    ensures only { IfErr result (λ error. (error ≡ LogErr.TooLong) ⊎ (error ≡ LogErr.Memory)) }
{
    term_item(alloc, &op_term(alloc, op)?)
}

/// `{table,Table,Cookie,CreateList}`
fn table_term(alloc: Global, def: &TableDef) -> Result<Term, AllocError>
    ensures { IfOk result (λ term. tree_of term ≡ table_tree (definition def.now)) }
{
    let mut parts = Items::new(alloc);
    parts.push(atom_term(alloc, "table")?)?;
    parts.push(Term::Atom(def.name.try_clone(alloc).map_err(|_| AllocError)?))?;
    parts.push(Term::Int(i128::from(def.cookie)))?;
    parts.push(create_list(alloc, def)?)?;
    Ok(Term::Tuple(parts))
}

/// The item whose content is the text that is written of a term.
fn term_item(alloc: Global, term: &Term) -> Result<Vec<u8>, LogErr>
    requires { depth (tree_of term.now) ≤ 128 }
    ensures bytes { IfOk result (λ item. item.items ≡ item_bytes (canon (tree_of term.now))) }
    ensures text { OnOk result (IsText (canon (tree_of term.now)) (tree_of term.now)) }
    ensures fits { OnOk result (IsContent (canon (tree_of term.now))) }
    ensures long { IsErrOf result LogErr.TooLong → 2 ^ 28 < length (canon (tree_of term.now)) }
    ensures only { IfErr result (λ error. (error ≡ LogErr.TooLong) ⊎ (error ≡ LogErr.Memory)) }
{
    let text = term_text(alloc, term)?;
    let mut bytes = Vec::with_capacity(alloc, HEADER_BYTES + text.len())?;
    match put_item(&text, &mut bytes) {
        Ok(()) => Ok(bytes),
        Err(ItemErr::Memory) => Err(LogErr::Memory),
        Err(ItemErr::TooLong) | Err(ItemErr::Bad(_)) => unreachable!(),
    }
}

/// The text that is written of a term.
fn term_text(alloc: Global, term: &Term) -> Result<Vec<u8>, LogErr>
    requires { depth (tree_of term.now) ≤ 128 }
    ensures bytes { IfOk result (λ text. text.items ≡ canon (tree_of term.now)) }
    ensures text { OnOk result (IsText (canon (tree_of term.now)) (tree_of term.now)) }
    ensures fits { OnOk result (IsContent (canon (tree_of term.now))) }
    ensures long { IsErrOf result LogErr.TooLong → 2 ^ 28 < length (canon (tree_of term.now)) }
    ensures only { IfErr result (λ error. (error ≡ LogErr.TooLong) ⊎ (error ≡ LogErr.Memory)) }
{
    let mut text = Vec::new(alloc);
    match encode(term, &mut text) {
        Ok(()) => Ok(text),
        Err(EncodeErr::TooLong) => Err(LogErr::TooLong),
        Err(EncodeErr::Memory) => Err(LogErr::Memory),
        Err(EncodeErr::TooDeep) => unreachable!(),
    }
}
