//! What a start takes of the ops of a commit.

ghost use Rattle.std.specs.Prelude.{◌≡◌, ◌↔◌, ◌+◌, ◌==◌, List, map, IsTrue, All, IfOk};
ghost use Rattle.std.specs.List.{AllByRecursion};
ghost use Rattle.std.specs.Option.{option_copied};
ghost use Rattle.db_model.specs.Ops.{table_of};
ghost use Rattle.db_model.specs.Taken.{take_ops, MayTakeOp};
ghost use Rattle.db_model.specs.View.{operation};
ghost use Rattle.ram_table.specs.Contents.{TableRecords, IsKeyed, contents};
ghost use Rattle.db_state.specs.Live.{with_contents, AreTables};
ghost use Rattle.db_state.specs.Inside.Parts.{contents_after, AreFor};
ghost use Rattle.db_state.specs.Inside.Sources.{tables_in, IsArranged};
ghost use Rattle.db_state.specs.Inside.Taking.{first_def, is_due_by, MayTakeBy};

use crate::arrangement::Arrangement;
use crate::ops::{name_of, plan_op};
use crate::parts::Part;
use db_model::{Op, Ops, TableDef, allows};
use ram_table::RamTable;
use std::alloc::{AllocError, Global};
use term_core::Atom;

/// Whether the commit is of the version behind this one.
pub fn is_next(version: u64, commit: u64) -> bool
    ensures { result ≡ (commit == version + 1) }
{
    match version.checked_add(1) {
        Some(next) => commit == next,
        None => false,
    }
}

/// Whether each op is skipped, or its table allows it.
pub fn may_take_all(defs: &[TableDef], version: u64, ops: &Ops) -> bool
    ensures { IsTrue result ↔ AllByRecursion (MayTakeBy version defs.now) (map operation ops.now) }
{
    for op in ops.as_slice() {
        if !may_take(defs, version, op) {
            return false;
        }
    }
    true
}

/// Whether the op is skipped, or its table allows it.
fn may_take(defs: &[TableDef], version: u64, op: &Op) -> bool
    ensures { IsTrue result ↔ MayTakeBy version defs.now (operation op.now) }
{
    match def_named(defs, name_of(op)) {
        Some(def) => def.cookie > version || allows(def, op),
        None => true,
    }
}

/// Whether a table of this name stands that was made no later.
fn is_due(defs: &[TableDef], version: u64, name: &Atom) -> bool
    ensures { result ≡ is_due_by version (first_def name.now defs.now) }
{
    match def_named(defs, name) {
        Some(def) => def.cookie <= version,
        None => false,
    }
}

/// The first definition of this name.
fn def_named<'a>(defs: &'a [TableDef], name: &Atom) -> Option<&'a TableDef>
    ensures { option_copied result ≡ first_def name.now defs.now }
{
    for def in defs {
        if *name == def.name {
            return Some(def);
        }
    }
    None
}

/// Plans those of the ops whose table stands and was made no later, the first of which is done first.
pub fn plan_due_ops(
    alloc: Global,
    defs: &[TableDef],
    tables: &[RamTable],
    new: &Option<Arrangement>,
    version: u64,
    ops: &Ops,
) -> Result<Vec<Part>, AllocError>
    requires may_take { AllByRecursion (MayTakeBy version defs.now) (map operation ops.now) }
    requires arranged { IsArranged tables.now new.now }
    requires fit { AreTables defs.now (tables_in tables.now new.now) }
    ensures planned { IfOk result (λ parts.
        with_contents defs.now (contents_after 0 parts.items (tables_in tables.now new.now))
        ≡ take_ops version (map operation ops.now)
        (with_contents defs.now (map contents (tables_in tables.now new.now)))) }
    ensures made_for { IfOk result (λ parts. AreFor (tables_in tables.now new.now) parts.items) }
{
    let mut parts = Vec::new(alloc);
    for op in ops.as_slice() {
        if is_due(defs, version, name_of(op)) {
            plan_op(alloc, defs, tables, new, &mut parts, op)?;
        }
    }
    Ok(parts)
}
