//! Schema ops on slots: definitions, each with where its table comes from.

ghost use Rattle.std.specs.Prelude.{◌≡◌, ◌≤◌, true, ◌++◌, [], List, length, map, vec_len, vec_capacity, IfOk, OnOk};
ghost use Rattle.std.specs.Cmp.Lexicographic.{slice_cmp};
ghost use Rattle.std.specs.List.{position_or_len, AllByRecursion};
ghost use Rattle.std.specs.Option.{option_to_list};
ghost use Rattle.std.specs.Ordering.{nat_cmp, is_lt};
ghost use Rattle.db_model.specs.Commits.{create};
ghost use Rattle.db_model.specs.View.{definition, schema_operation};
ghost use Rattle.ram_table.specs.Contents.{TableRecords};
ghost use Rattle.db_state.specs.declared.arrangement.Source.TheVariants as source;
ghost use Rattle.db_state.specs.Live.{HasKey, AreTables, is_named};
ghost use Rattle.db_state.specs.Inside.Slots.{def_of, source_of, slots_from, op_name, IsChange, HasKeys, IsLeft, AreLeft, IsArrangedBy};

use crate::arrangement::{Arrangement, Source};
use crate::positions::{with_position, without_position};
use db_model::{Defs, SchemaOp, SchemaOps, TableDef};
use ram_table::RamTable;
use std::alloc::{AllocError, Global};
use term_core::Atom;

/// A table of a new arrangement: its definition, and where it comes from.
#[derive(Drop)]
pub struct Slot {
    pub def: TableDef,
    pub source: Source,
}

/// The arrangement that the schema ops leave of the tables of these definitions. There is no new one where there are no
/// ops.
pub fn arrange(
    alloc: Global,
    defs: &[TableDef],
    ops: &SchemaOps,
) -> Result<Option<Arrangement>, AllocError>
    requires { AllByRecursion HasKeys (map schema_operation ops.now) }
    ensures { IfOk result (λ new. (tables : List TableRecords) → AreTables defs.now tables
        → IsArrangedBy (map schema_operation ops.now) defs.now tables new) }
{
    if ops.is_empty() {
        return Ok(None);
    }
    let mut slots = kept_slots(alloc, defs)?;
    for op in ops.as_slice() {
        slots = do_schema_op(alloc, slots, op)?;
    }
    Ok(Some(arrangement_of(alloc, slots)?))
}

/// A slot for each definition, with the table that stands at its place.
pub fn kept_slots(alloc: Global, defs: &[TableDef]) -> Result<Vec<Slot>, AllocError>
    ensures { IfOk result (λ slots. slots.items ≡ slots_from 0 defs.now) }
{
    let mut slots = Vec::new(alloc);
    for (i, def) in defs.iter().enumerate() {
        slots.push(Slot {
            def: def.try_clone(alloc)?,
            source: Source::Kept(i),
        })?;
    }
    Ok(slots)
}

/// The arrangement of these slots, with room for all.
pub fn arrangement_of(alloc: Global, mut slots: Vec<Slot>) -> Result<Arrangement, AllocError>
    ensures defs { IfOk result (λ new. new.defs ≡ map def_of slots.items) }
    ensures sources { IfOk result (λ new. new.sources.items ≡ map source_of slots.items) }
    ensures empty { IfOk result (λ new. new.room.items ≡ []) }
    ensures roomy { IfOk result (λ new. vec_len new.sources ≤ vec_capacity new.room) }
{
    let mut defs = Defs::new(alloc);
    let mut sources = Vec::new(alloc);
    slots.reverse();
    while let Some(slot) = slots.pop() {
        let Slot { def, source } = slot;
        defs.push(def)?;
        sources.push(source)?;
    }
    let room = Vec::with_capacity(alloc, sources.len())?;
    Ok(Arrangement {
        defs,
        sources,
        room,
        alloc,
    })
}

/// The slots as the op leaves them.
pub fn do_schema_op(alloc: Global, slots: Vec<Slot>, op: &SchemaOp) -> Result<Vec<Slot>, AllocError>
    requires { HasKeys (schema_operation op.now) }
    ensures { IfOk result (λ now. (old : List TableRecords)
        → AreLeft (schema_operation op.now) old slots.items now.items) }
{
    match op {
        SchemaOp::Create(def) => with_slot(alloc, slots, def),
        SchemaOp::DropTable(_) => changed(alloc, slots, op),
        SchemaOp::AddIndex(_, _) => changed(alloc, slots, op),
        SchemaOp::DelIndex(_, _) => changed(alloc, slots, op),
        SchemaOp::Remake(_) => changed(alloc, slots, op),
    }
}

/// The slots with one for a new table at its place.
fn with_slot(alloc: Global, mut slots: Vec<Slot>, def: &TableDef) -> Result<Vec<Slot>, AllocError>
    requires { HasKey def.now }
    ensures { IfOk result (λ now. (old : List TableRecords)
        → AreLeft (create (definition def.now)) old slots.items now.items) }
{
    let place = place_for(&slots, &def.name);
    slots.insert(place, made(alloc, def)?)?;
    Ok(slots)
}

/// How many of the slots stand before one of this name.
fn place_for(slots: &[Slot], name: &Atom) -> usize
    ensures place { result ≡ position_or_len (λ slot. is_lt (slice_cmp nat_cmp name.now slot.def.name)) slots.now }
    ensures within { result ≤ length slots.now }
{
    for (i, slot) in slots.iter().enumerate() {
        if name.cmp(&slot.def.name).is_lt() {
            return i;
        }
    }
    slots.len()
}

/// A slot for a new table of this definition.
fn made(alloc: Global, def: &TableDef) -> Result<Slot, AllocError>
    ensures { IfOk result (λ slot. slot ≡ record {
      def = def.now;
      source = source.Made (record { kind = def.now.kind; records = [] });
    }) }
{
    Ok(Slot {
        def: def.try_clone(alloc)?,
        source: Source::Made(RamTable::new(alloc, def.kind)),
    })
}

/// The slots as an op on tables that stand leaves them.
fn changed(alloc: Global, mut slots: Vec<Slot>, op: &SchemaOp) -> Result<Vec<Slot>, AllocError>
    requires change { IsChange (schema_operation op.now) }
    requires keyed { HasKeys (schema_operation op.now) }
    ensures { IfOk result (λ now. (old : List TableRecords)
        → AreLeft (schema_operation op.now) old slots.items now.items) }
{
    let mut now = Vec::new(alloc);
    slots.reverse();
    while let Some(slot) = slots.pop() {
        let left = left_of(alloc, slot, op)?;
        push_left(&mut now, left)?;
    }
    Ok(now)
}

fn push_left(slots: &mut Vec<Slot>, left: Option<Slot>) -> Result<(), AllocError>
    ensures { OnOk result (slots.new.items ≡ slots.old.items ++ option_to_list left) }
{
    match left {
        Some(slot) => {
            slots.push(slot)?;
            Ok(())
        }
        None => Ok(()),
    }
}

/// What the op leaves of the slot.
fn left_of(alloc: Global, slot: Slot, op: &SchemaOp) -> Result<Option<Slot>, AllocError>
    requires change { IsChange (schema_operation op.now) }
    requires keyed { HasKeys (schema_operation op.now) }
    ensures { IfOk result (λ left. (old : List TableRecords) → IsLeft (schema_operation op.now) old slot left) }
{
    if *name_of(op) == slot.def.name {
        left_of_own(alloc, slot, op)
    } else {
        Ok(Some(slot))
    }
}

/// What an op on the slot's table leaves of it.
fn left_of_own(alloc: Global, mut slot: Slot, op: &SchemaOp) -> Result<Option<Slot>, AllocError>
    requires own { is_named (op_name (schema_operation op.now)) slot.def ≡ true }
    requires change { IsChange (schema_operation op.now) }
    requires keyed { HasKeys (schema_operation op.now) }
    ensures { IfOk result (λ left. (old : List TableRecords) → IsLeft (schema_operation op.now) old slot left) }
{
    match op {
        SchemaOp::Create(_) => Ok(Some(slot)),
        SchemaOp::DropTable(_) => Ok(None),
        SchemaOp::AddIndex(_, position) => {
            slot.def.index = with_position(alloc, &slot.def.index, *position)?;
            Ok(Some(slot))
        }
        SchemaOp::DelIndex(_, position) => {
            slot.def.index = without_position(alloc, &slot.def.index, *position)?;
            Ok(Some(slot))
        }
        SchemaOp::Remake(def) => Ok(Some(made(alloc, def)?)),
    }
}

/// What the op's table is called.
pub fn name_of(op: &SchemaOp) -> &Atom
    ensures { result.now ≡ op_name (schema_operation op.now) }
{
    match op {
        SchemaOp::Create(def) => &def.name,
        SchemaOp::DropTable(name) => name,
        SchemaOp::AddIndex(name, _) => name,
        SchemaOp::DelIndex(name, _) => name,
        SchemaOp::Remake(def) => &def.name,
    }
}
