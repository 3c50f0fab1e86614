//! The file of the schema is read.

ghost use Rattle.std.specs.Prelude.{◌≡◌, ◌↔◌, ◌++◌, [], ◌∷◌, ℕ, List, codes, map, IsTrue, IfOk, IsErrOf, MatchOption};
ghost use Rattle.file_trait.specs.DiskModel.{reads};
ghost use Rattle.disk_logs.specs.Errors.{LogCause};
ghost use Rattle.db_model.specs.View.{definition};
ghost use Rattle.store_files.specs.Forms.{IsOther};
ghost use Rattle.store_files.specs.Names as names;
ghost use Rattle.store_files.specs.Schema.{IsTable, AreTables, schema_form, HasSchemaRead};
ghost use Rattle.store_files.specs.Inside.Found.{IsHeaded};
ghost use Rattle.store_files.specs.Inside.Reading.{HasItemsRead};

use crate::defining::table_of;
use crate::headed::Headed;
use crate::names::schema_name;
use db_model::{Defs, Schema, TableDef};
use disk_logs::LogErr;
use file_trait::Disk;
use sqlite_items::Items;
use std::alloc::{AllocError, Global};

/// The most tables of a database.
const MOST_TABLES: usize = 1000;

/// Reads `schema.DCD`. Where it is not there, the version is 0 and there are no tables. It is `Bad` exactly where the
/// file has no meaning, at its first wrong place. Nothing is done to the disk.
pub fn read_schema<D: Disk>(alloc: Global, disk: &mut D) -> Result<Schema, LogErr>
    ensures read { IsTrue D.tells → HasSchemaRead result (reads (D.past disk.old) names.schema_name) }
    ensures bad { (name : List ℕ) (at : ℕ) → IsErrOf result (LogErr.Bad name at) → name ≡ names.schema_name }
    ensures never { IsErrOf result LogErr.TooLong → ⊥ }
    ensures same { IsTrue D.tells → D.past disk.new ≡ D.past disk.old }
    ensures time { D.moment disk.new ≡ D.moment disk.old }
    ensures cause { LogCause (D.faults disk.old) (D.faults disk.new) (D.blamed disk.new) result }
    ensures named { (name : List ℕ) → IsErrOf result (LogErr.File name) → name ≡ names.schema_name }
{
    match Headed::read(alloc, disk, schema_name(), "schema") {
        Ok(Some(found)) => schema_in(alloc, &found),
        Ok(None) => Ok(Schema {
            version: 0,
            tables: Items::new(alloc),
        }),
        Err(error) => Err(error),
    }
}

/// The schema that a file's items say.
fn schema_in(alloc: Global, found: &Headed) -> Result<Schema, LogErr>
    requires { IsHeaded (codes "schema") found.now.number found.now.file }
    ensures version { IfOk result (λ schema. schema.version ≡ found.now.number) }
    ensures tables { HasItemsRead schema_form found.now.number names.schema_name
        (λ schema. map definition schema.tables) result found.now.file.items }
{
    let mut tables = Items::new(alloc);
    for number in 1..found.file.len() {
        match next_table(alloc, found.file.content(number), &tables)? {
            Some(table) => tables.push(table)?,
            None => return Err(LogErr::Bad(schema_name(), found.file.place(number))),
        }
    }
    Ok(Schema {
        version: found.number,
        tables,
    })
}

/// The table that a content says, where it may stand behind these.
fn next_table(alloc: Global, content: &[u8], tables: &Defs) -> Result<Option<TableDef>, AllocError>
    requires { AreTables (map definition tables.now) }
    ensures { IfOk result (λ found. MatchOption found (IsOther schema_form (map definition tables.now) content.now)
        (λ table. IsTable content.now (definition table)
        × AreTables (map definition tables.now ++ definition table ∷ []))) }
{
    let Some(table) = table_of(alloc, content)? else {
        return Ok(None);
    };
    if may_follow(&table, tables.as_slice()) {
        Ok(Some(table))
    } else {
        Ok(None)
    }
}

/// Whether the table may stand behind these: there are fewer than 1000, and its name comes behind the last one's.
fn may_follow(table: &TableDef, tables: &[TableDef]) -> bool
    requires { AreTables (map definition tables.now) }
    ensures { IsTrue result ↔ AreTables (map definition tables.now ++ definition table.now ∷ []) }
{
    if tables.len() >= MOST_TABLES {
        return false;
    }
    match tables.last() {
        Some(last) => last.name < table.name,
        None => true,
    }
}
