//! What is planned for tables one by one.

ghost use Rattle.std.specs.Prelude.{◌≡◌, ◌<◌, [], map, length, IfSome, OnOk};
ghost use Rattle.std.specs.List.{position_from};
ghost use Rattle.db_model.specs.View.{operation};
ghost use Rattle.ram_table.specs.Contents.{IsKeyed};
ghost use Rattle.ram_table.specs.Plans.{IsMadeFor};
ghost use Rattle.db_state.specs.Inside.Parts.{is_for, kind_of, plan_for, contents_after, AreApart, AreFor, IsPlannedAt};

use db_model::Op;
use ram_table::{RamTable, TablePlan};
use std::alloc::{AllocError, Global};

/// What is planned for the table at a place.
#[derive(Drop)]
pub struct Part {
    pub table: usize,
    pub plan: TablePlan,
}

/// Plans the op for the table at a place, behind what is planned for it.
pub fn plan_part(
    alloc: Global,
    parts: &mut Vec<Part>,
    place: usize,
    table: &RamTable,
    op: &Op,
) -> Result<(), AllocError>
    requires keyed { IsKeyed (operation op.now) }
    requires made_for { IfSome (plan_for place parts.old.items) (IsMadeFor table.now) }
    requires apart { AreApart parts.old.items }
    ensures { OnOk result (IsPlannedAt (operation op.now) place table.now parts.old.items parts.new.items) }
{
    match part_for(parts, place) {
        Some(i) => {
            let part = &mut parts[i];
            table.plan_op(alloc, &mut part.plan, op)
        }
        None => {
            let mut plan = table.no_plan(alloc);
            table.plan_op(alloc, &mut plan, op)?;
            parts.push(Part { table: place, plan })?;
            Ok(())
        }
    }
}

/// Which part is for the table at a place.
fn part_for(parts: &[Part], place: usize) -> Option<usize>
    ensures place { result ≡ position_from (is_for place) 0 parts.now }
    ensures within { IfSome result (λ i. i < length parts.now) }
{
    for (i, part) in parts.iter().enumerate() {
        if part.table == place {
            return Some(i);
        }
    }
    None
}

/// Does what is planned to each table. Takes no memory.
pub fn apply_parts(tables: &mut Vec<RamTable>, mut parts: Vec<Part>)
    requires { AreFor tables.old.items parts.items }
    ensures done { contents_after 0 [] tables.new.items ≡ contents_after 0 parts.items tables.old.items }
    ensures kinds { map kind_of tables.new.items ≡ map kind_of tables.old.items }
{
    parts.reverse();
    while let Some(part) = parts.pop() {
        let Part { table, plan } = part;
        let table = &mut tables[table];
        table.apply(plan);
    }
}
