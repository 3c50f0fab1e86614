//! Which schema ops apply to the tables in slots.

ghost use Rattle.std.specs.Prelude.{◌≡◌, ◌↔◌, List, length, map, IsTrue, IsSome, IsSomeAnd, IfOk, Contains};
ghost use Rattle.std.specs.Option.{option_copied};
ghost use Rattle.db_model.specs.Commits.{create, remake};
ghost use Rattle.db_model.specs.Definitions.{IsDefinition, IsPosition};
ghost use Rattle.db_model.specs.Lawful.{Applies, AllApply, LacksIndex, HasIndex, table_in};
ghost use Rattle.db_model.specs.View.{definition, schema_operation};
ghost use Rattle.ram_table.specs.Contents.{TableRecords, contents};
ghost use Rattle.db_state.specs.Live.{AreTables, with_contents};
ghost use Rattle.db_state.specs.Inside.Slots.{def_of, slot_tables};
ghost use Rattle.db_state.specs.Inside.Taking.{first_def};

use crate::slots::{Slot, do_schema_op, kept_slots};
use db_model::{DefErr, SchemaOp, SchemaOps, TableDef, create_list, definition_law, parse_options};
use std::alloc::{AllocError, Global};
use term_core::Atom;

/// The most tables of a database.
const MOST_TABLES: usize = 1000;

/// The position of the first attribute that is no key.
const FIRST_POSITION: u32 = 3;

/// Whether each op applies to what those before it leave of the tables of these definitions.
pub fn all_apply(alloc: Global, defs: &[TableDef], ops: &SchemaOps) -> Result<bool, AllocError>
    ensures { IfOk result (λ good. (tables : List TableRecords) → AreTables defs.now tables
        → IsTrue good ↔ AllApply (map schema_operation ops.now) (with_contents defs.now (map contents tables))) }
{
    let mut slots = kept_slots(alloc, defs)?;
    for op in ops.as_slice() {
        if !applies(alloc, &slots, op)? {
            return Ok(false);
        }
        slots = do_schema_op(alloc, slots, op)?;
    }
    Ok(true)
}

/// Whether the op applies to the tables in the slots.
fn applies(alloc: Global, slots: &[Slot], op: &SchemaOp) -> Result<bool, AllocError>
    ensures { IfOk result (λ good. (old : List TableRecords)
        → IsTrue good ↔ Applies (schema_operation op.now) (slot_tables old slots.now)) }
{
    match op {
        SchemaOp::Create(def) => may_create(alloc, slots, def),
        SchemaOp::DropTable(name) => Ok(stands(slots, name)),
        SchemaOp::AddIndex(name, position) => Ok(lacks_index(slots, name, *position)),
        SchemaOp::DelIndex(name, position) => Ok(has_index(slots, name, *position)),
        SchemaOp::Remake(def) => may_remake(alloc, slots, def),
    }
}

fn may_create(alloc: Global, slots: &[Slot], def: &TableDef) -> Result<bool, AllocError>
    ensures { IfOk result (λ good. (old : List TableRecords)
        → IsTrue good ↔ Applies (create (definition def.now)) (slot_tables old slots.now)) }
{
    if stands(slots, &def.name) || slots.len() >= MOST_TABLES {
        return Ok(false);
    }
    is_definition(alloc, def)
}

fn may_remake(alloc: Global, slots: &[Slot], def: &TableDef) -> Result<bool, AllocError>
    ensures { IfOk result (λ good. (old : List TableRecords)
        → IsTrue good ↔ Applies (remake (definition def.now)) (slot_tables old slots.now)) }
{
    if !stands(slots, &def.name) {
        return Ok(false);
    }
    is_definition(alloc, def)
}

/// Whether a table of this name stands.
fn stands(slots: &[Slot], name: &Atom) -> bool
    ensures { (old : List TableRecords) → IsTrue result ↔ IsSome (table_in name.now (slot_tables old slots.now)) }
{
    match def_named(slots, name) {
        Some(_) => true,
        None => false,
    }
}

/// Whether the attribute at the position is no key, and is not indexed.
fn lacks_index(slots: &[Slot], name: &Atom, position: u32) -> bool
    ensures { (old : List TableRecords)
        → IsTrue result ↔ IsSomeAnd (table_in name.now (slot_tables old slots.now)) (LacksIndex position) }
{
    match def_named(slots, name) {
        Some(def) => is_position(def.attributes.len(), position)
            && !contains(def.index.as_slice(), position),
        None => false,
    }
}

/// Whether the attribute at the position is indexed.
fn has_index(slots: &[Slot], name: &Atom, position: u32) -> bool
    ensures { (old : List TableRecords)
        → IsTrue result ↔ IsSomeAnd (table_in name.now (slot_tables old slots.now)) (HasIndex position) }
{
    match def_named(slots, name) {
        Some(def) => contains(def.index.as_slice(), position),
        None => false,
    }
}

/// Whether the position is that of one of so many attributes, behind the key.
fn is_position(attributes: usize, position: u32) -> bool
    ensures { IsTrue result ↔ IsPosition attributes position }
{
    position >= FIRST_POSITION && (position - 1) as usize <= attributes
}

fn contains(positions: &[u32], position: u32) -> bool
    ensures { IsTrue result ↔ Contains positions.now position }
{
    positions.contains(&position)
}

/// The first definition of this name.
fn def_named<'a>(slots: &'a [Slot], name: &Atom) -> Option<&'a TableDef>
    ensures { option_copied result ≡ first_def name.now (map def_of slots.now) }
{
    for slot in slots {
        if *name == slot.def.name {
            return Some(&slot.def);
        }
    }
    None
}

/// Whether a table can be defined so: the list of its options defines it again.
fn is_definition(alloc: Global, def: &TableDef) -> Result<bool, AllocError>
    ensures { IfOk result (λ good. IsTrue good ↔ IsDefinition (definition def.now)) }
{
    definition_law();
    let _cookie = def.cookie;
    if !def.index.is_empty() {
        return Ok(false);
    }
    let list = create_list(alloc, def)?;
    match parse_options(alloc, &def.name, &list) {
        Ok(read) => Ok(create_list(alloc, &read)? == list),
        Err(DefErr::Memory) => Err(AllocError),
        Err(DefErr::BadName) => Ok(false),
        Err(DefErr::BadOption(_)) => Ok(false),
    }
}
