//! Plans of ops.

ghost use Rattle.std.specs.Prelude.{◌≡◌, map, IfOk, OnOk};
ghost use Rattle.std.specs.List.{AllByRecursion};
ghost use Rattle.db_model.specs.Database.{do_op, do_ops};
ghost use Rattle.db_model.specs.Ops.{table_of};
ghost use Rattle.db_model.specs.View.{operation};
ghost use Rattle.ram_table.specs.Contents.{IsKeyed, contents};
ghost use Rattle.db_state.specs.Live.{with_contents, AreTables};
ghost use Rattle.db_state.specs.Inside.Parts.{contents_after, AreFor};
ghost use Rattle.db_state.specs.Inside.Sources.{tables_in, IsArranged};

use crate::arrangement::{Arrangement, table_at};
use crate::parts::{Part, plan_part};
use db_model::{Op, Ops, TableDef};
use ram_table::RamTable;
use std::alloc::{AllocError, Global};
use term_core::Atom;

/// Plans the ops, the first of which is done first.
pub fn plan_ops(
    alloc: Global,
    defs: &[TableDef],
    tables: &[RamTable],
    new: &Option<Arrangement>,
    ops: &Ops,
) -> Result<Vec<Part>, AllocError>
    requires keyed { AllByRecursion IsKeyed (map operation ops.now) }
    requires arranged { IsArranged tables.now new.now }
    requires fit { AreTables defs.now (tables_in tables.now new.now) }
    ensures planned { IfOk result (λ parts.
        with_contents defs.now (contents_after 0 parts.items (tables_in tables.now new.now))
        ≡ do_ops (map operation ops.now) (with_contents defs.now (map contents (tables_in tables.now new.now)))) }
    ensures made_for { IfOk result (λ parts. AreFor (tables_in tables.now new.now) parts.items) }
{
    let mut parts = Vec::new(alloc);
    for op in ops.as_slice() {
        plan_op(alloc, defs, tables, new, &mut parts, op)?;
    }
    Ok(parts)
}

/// Plans the op for each table of its name.
pub fn plan_op(
    alloc: Global,
    defs: &[TableDef],
    tables: &[RamTable],
    new: &Option<Arrangement>,
    parts: &mut Vec<Part>,
    op: &Op,
) -> Result<(), AllocError>
    requires keyed { IsKeyed (operation op.now) }
    requires arranged { IsArranged tables.now new.now }
    requires fit { AreTables defs.now (tables_in tables.now new.now) }
    requires made_for { AreFor (tables_in tables.now new.now) parts.old.items }
    ensures planned { OnOk result (with_contents defs.now
        (contents_after 0 parts.new.items (tables_in tables.now new.now))
        ≡ do_op (operation op.now) (with_contents defs.now
        (contents_after 0 parts.old.items (tables_in tables.now new.now)))) }
    ensures made_for { OnOk result (AreFor (tables_in tables.now new.now) parts.new.items) }
{
    let name = name_of(op);
    for (i, def) in defs.iter().enumerate() {
        if *name == def.name {
            plan_part(alloc, parts, i, table_at(tables, new, i), op)?;
        }
    }
    Ok(())
}

/// What the op's table is called.
pub fn name_of(op: &Op) -> &Atom
    ensures { result.now ≡ table_of (operation op.now) }
{
    match op {
        Op::Write(table, _) => table,
        Op::Delete(table, _) => table,
        Op::DeleteObject(table, _) => table,
        Op::Clear(table) => table,
    }
}
