//! New arrangements of the tables.

ghost use Rattle.std.specs.Prelude.{◌≡◌, ◌<◌, ◌≤◌, [], map, length, vec_len, vec_capacity, slice_get, Some};
ghost use Rattle.db_state.specs.Inside.Sources.{table_from, left_by, IsThere, AreFrom, defs_in, tables_in, IsArranged};

use db_model::{Defs, Kind, TableDef};
use ram_table::RamTable;
use std::alloc::Global;
use std::mem;

/// Where a table comes from.
#[derive(Drop)]
pub enum Source {
    /// It stood at this place.
    Kept(usize),
    /// It is new, or stands anew without records.
    Made(RamTable),
}

/// The tables as schema ops leave them: each definition with where its table comes from, and room for all.
#[derive(Drop)]
pub struct Arrangement {
    pub defs: Defs,
    pub sources: Vec<Source>,
    pub room: Vec<RamTable>,
    pub alloc: Global,
}

/// The definitions in the new arrangement, and as they stood where there is none.
pub fn defs_of<'a>(defs: &'a Defs, new: &'a Option<Arrangement>) -> &'a [TableDef]
    ensures { result.now ≡ defs_in defs.now new.now }
{
    match new {
        None => defs.as_slice(),
        Some(new) => new.defs.as_slice(),
    }
}

/// The table at a place of the new arrangement.
pub fn table_at<'a>(
    tables: &'a [RamTable],
    new: &'a Option<Arrangement>,
    place: usize,
) -> &'a RamTable
    requires arranged { IsArranged tables.now new.now }
    requires within { place < length (tables_in tables.now new.now) }
    ensures { slice_get (tables_in tables.now new.now) place ≡ Some result.now }
{
    match new {
        None => &tables[place],
        Some(new) => table_from(tables, &new.sources[place]),
    }
}

/// The table that comes from there.
fn table_from<'a>(tables: &'a [RamTable], source: &'a Source) -> &'a RamTable
    requires { IsThere (length tables.now) source.now }
    ensures { result.now ≡ table_from tables.now source.now }
{
    match source {
        Source::Kept(place) => &tables[*place],
        Source::Made(table) => table,
    }
}

/// Puts the tables into the new arrangement. Takes no memory.
pub fn rearrange(defs: &mut Defs, tables: &mut Vec<RamTable>, new: Option<Arrangement>)
    requires { IsArranged tables.old.items new }
    ensures defs { defs.new ≡ defs_in defs.old new }
    ensures tables { tables.new.items ≡ tables_in tables.old.items new }
{
    match new {
        None => {}
        Some(new) => {
            let Arrangement {
                defs: new_defs,
                sources,
                room,
                alloc,
            } = new;
            *defs = new_defs;
            *tables = moved(alloc, tables, sources, room);
        }
    }
}

/// The tables that come from there, in the list that has room for them.
fn moved(
    alloc: Global,
    tables: &mut Vec<RamTable>,
    mut sources: Vec<Source>,
    mut room: Vec<RamTable>,
) -> Vec<RamTable>
    requires once { AreFrom (length tables.old.items) 0 sources.items }
    requires empty { room.items ≡ [] }
    requires roomy { vec_len sources ≤ vec_capacity room }
    ensures { result.items ≡ map (table_from tables.old.items) sources.items }
{
    sources.reverse();
    while let Some(source) = sources.pop() {
        let table = taken(alloc, tables, source);
        room.push_reserved(table);
    }
    room
}

/// The table that comes from there. One that stood there leaves an empty one.
fn taken(alloc: Global, tables: &mut Vec<RamTable>, source: Source) -> RamTable
    requires { IsThere (length tables.old.items) source }
    ensures taken { result ≡ table_from tables.old.items source }
    ensures left { tables.new.items ≡ left_by tables.old.items source }
{
    match source {
        Source::Kept(place) => mem::replace(&mut tables[place], RamTable::new(alloc, Kind::Set)),
        Source::Made(table) => table,
    }
}
