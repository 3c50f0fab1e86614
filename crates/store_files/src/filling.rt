//! A table is filled from its files.

ghost use Rattle.std.specs.Prelude.{◌≡◌, ◌↔◌, ◌++◌, [], ◌∷◌, ℕ, codes, IfOk, OnOk, MatchOption, IsSome, IsTrue};
ghost use Rattle.std.specs.Option.{option_copied};
ghost use Rattle.term_core.specs.Tree.{Tree, key_of};
ghost use Rattle.term_core.specs.View.{tree_of};
ghost use Rattle.term_wire.specs.Spelling.{IsText};
ghost use Rattle.db_model.specs.Database.{Contents, put_record, put_op};
ghost use Rattle.db_model.specs.Definitions.{IsDefinition};
ghost use Rattle.db_model.specs.Ops as ops;
ghost use Rattle.db_model.specs.Ops.{Operation};
ghost use Rattle.db_model.specs.View.{definition, operation};
ghost use Rattle.ram_table.specs.Contents.{contents, IsKeyed};
ghost use Rattle.store_files.specs.Forms.{IsOther};
ghost use Rattle.store_files.specs.Names as names;
ghost use Rattle.store_files.specs.Tables.{AreRecords, dcd_form, IsChange, MayChange, dcl_form};
ghost use Rattle.store_files.specs.Inside.Found.{IsHeaded};
ghost use Rattle.store_files.specs.Inside.Reading.{HasItemsRead, HasOpsDone, IsLast};

use crate::names::{dcd_name, dcl_name};
use crate::order::follows;
use crate::texts::term_of;
use db_model::{Op, TableDef, allows, fits, op_of_term};
use disk_logs::{LogErr, LogFile};
use ram_table::RamTable;
use std::alloc::{AllocError, Global};
use term_core::{Atom, Term};

/// Puts the records of `T.DCD` into a table that has none.
pub(crate) fn put_records(
    alloc: Global,
    def: &TableDef,
    file: &LogFile,
    table: &mut RamTable,
) -> Result<(), LogErr>
    requires defined { IsDefinition (definition def.now) }
    requires headed { IsHeaded (codes "dcd") def.now.cookie file.now }
    requires kind { table.old.kind ≡ def.now.kind }
    requires empty { contents table.old ≡ [] }
    ensures kind { table.new.kind ≡ def.now.kind }
    ensures read { HasItemsRead (dcd_form (definition def.now)) def.now.cookie (names.dcd_of def.now.name)
        (λ _. contents table.new) result file.now.items }
{
    let mut last = None;
    for number in 1..file.len() {
        match next_record(alloc, def, file.content(number), last.as_ref())? {
            Some(row) => last = Some(put_row(alloc, def, table, row)?),
            None => return Err(LogErr::Bad(dcd_name(&def.name), file.place(number))),
        }
    }
    Ok(())
}

/// Does the ops of `T.DCL` on the table, one after another.
pub(crate) fn do_changes(
    alloc: Global,
    def: &TableDef,
    file: &LogFile,
    table: &mut RamTable,
) -> Result<(), LogErr>
    requires defined { IsDefinition (definition def.now) }
    requires headed { IsHeaded (codes "dcl") def.now.cookie file.now }
    requires kind { table.old.kind ≡ def.now.kind }
    ensures kind { table.new.kind ≡ def.now.kind }
    ensures read { HasOpsDone (definition def.now) (names.dcl_of def.now.name) (contents table.old) (contents table.new)
        result file.now.items }
{
    for number in 1..file.len() {
        match next_change(alloc, def, file.content(number))? {
            Some(op) => do_op(alloc, table, &op)?,
            None => return Err(LogErr::Bad(dcl_name(&def.name), file.place(number))),
        }
    }
    Ok(())
}

/// The record that a content says, where it fits the table and may stand behind the last one.
fn next_record(
    alloc: Global,
    def: &TableDef,
    content: &[u8],
    last: Option<&Term>,
) -> Result<Option<Term>, AllocError>
    ensures { (rows : Contents) → AreRecords (definition def.now) rows → IsLast rows (option_copied last.entry)
        → IfOk result (λ found. MatchOption found (IsOther (dcd_form (definition def.now)) rows content.now)
        (λ row. IsText content.now (tree_of row) × AreRecords (definition def.now) (rows ++ tree_of row ∷ []))) }
{
    let Some(row) = term_of(alloc, content)? else {
        return Ok(None);
    };
    if may_stand(def, last, &row) {
        Ok(Some(row))
    } else {
        Ok(None)
    }
}

/// Whether a record fits the table, and may stand behind the last one.
fn may_stand(def: &TableDef, last: Option<&Term>, row: &Term) -> bool
    ensures { (rows : Contents) → AreRecords (definition def.now) rows → IsLast rows (option_copied last.entry)
        → IsTrue result ↔ AreRecords (definition def.now) (rows ++ tree_of row.now ∷ []) }
{
    fits(def, row) && follows(def.kind, last, row)
}

/// The op that a content says, where it may be done on the table.
fn next_change(alloc: Global, def: &TableDef, content: &[u8]) -> Result<Option<Op>, AllocError>
    ensures { IfOk result (λ found. MatchOption found
        ((op : Operation) → MayChange (definition def.now) op → IsChange content.now op → ⊥)
        (λ op. IsChange content.now (operation op) × MayChange (definition def.now) (operation op))) }
{
    let Some(op) = change_of(alloc, content)? else {
        return Ok(None);
    };
    if may_change(def, &op) {
        Ok(Some(op))
    } else {
        Ok(None)
    }
}

/// Whether the op names the table, and may be done on it.
fn may_change(def: &TableDef, op: &Op) -> bool
    ensures { IsTrue result ↔ MayChange (definition def.now) (operation op.now) }
{
    *table_of(op) == def.name && allows(def, op)
}

/// The name of the op's table.
fn table_of(op: &Op) -> &Atom
    ensures { result.now ≡ ops.table_of (operation op.now) }
{
    match op {
        Op::Write(table, _)
        | Op::Delete(table, _)
        | Op::DeleteObject(table, _)
        | Op::Clear(table) => table,
    }
}

/// The op that a content says.
fn change_of(alloc: Global, content: &[u8]) -> Result<Option<Op>, AllocError>
    ensures { IfOk result (λ found. MatchOption found ((op : Operation) → IsChange content.now op → ⊥)
        (λ op. IsChange content.now (operation op))) }
{
    match term_of(alloc, content)? {
        Some(term) => op_of_term(alloc, &term),
        None => Ok(None),
    }
}

/// Writes a record, and gives it back.
fn put_row(
    alloc: Global,
    def: &TableDef,
    table: &mut RamTable,
    row: Term,
) -> Result<Term, AllocError>
    requires { IsSome (key_of (tree_of row)) }
    ensures kind { table.new.kind ≡ table.old.kind }
    ensures done { OnOk result (contents table.new ≡ put_record table.old.kind (tree_of row) (contents table.old)) }
    ensures same { IfOk result (λ back. tree_of back ≡ tree_of row) }
{
    let name = def.name.try_clone(alloc).map_err(|_| AllocError)?;
    let op = Op::Write(name, row);
    do_op(alloc, table, &op)?;
    Ok(row_of(op))
}

/// The record that an op writes.
fn row_of(op: Op) -> Term
    requires { (row : Tree) × (operation op ≡ ops.write (ops.table_of (operation op)) row) }
    ensures { operation op ≡ ops.write (ops.table_of (operation op)) (tree_of result) }
{
    match op {
        Op::Write(_table, row) => row,
        Op::Delete(_table, _key) => unreachable!(),
        Op::DeleteObject(_table, _row) => unreachable!(),
        Op::Clear(_table) => unreachable!(),
    }
}

/// Does an op on a table.
fn do_op(alloc: Global, table: &mut RamTable, op: &Op) -> Result<(), AllocError>
    requires { IsKeyed (operation op.now) }
    ensures kind { table.new.kind ≡ table.old.kind }
    ensures done { OnOk result (contents table.new ≡ put_op table.old.kind (operation op.now) (contents table.old)) }
{
    let mut plan = table.no_plan(alloc);
    table.plan_op(alloc, &mut plan, op)?;
    table.apply(plan);
    Ok(())
}
