//! The files of a table are read.

ghost use Rattle.std.specs.Prelude.{◌≡◌, [], ℕ, List, IsTrue, IfOk, IsErrOf, codes, Some};
ghost use Rattle.file_trait.specs.DiskModel.{reads};
ghost use Rattle.disk_logs.specs.Errors.{LogCause};
ghost use Rattle.db_model.specs.Definitions.{IsDefinition};
ghost use Rattle.db_model.specs.View.{definition};
ghost use Rattle.ram_table.specs.Contents.{contents};
ghost use Rattle.store_files.specs.Names as names;
ghost use Rattle.store_files.specs.Tables.{dcd_form, HasLoaded};
ghost use Rattle.store_files.specs.Inside.Found.{IsHeaded};
ghost use Rattle.store_files.specs.Inside.Loading.{HasRecordsRead, HasOpsRead};
ghost use Rattle.store_files.specs.Inside.Reading.{HasItemsRead, HasOpsDone};

use crate::filling::{do_changes, put_records};
use crate::headed::own_file;
use crate::names::{dcd_name, dcl_name};
use db_model::TableDef;
use disk_logs::{LogErr, LogFile};
use file_trait::Disk;
use ram_table::RamTable;
use std::alloc::Global;

/// A table as its files give it, and these as they were read, each where it is there and has the table's cookie. One
/// whose mark says open can be renewed by `Log::resume` without being read again.
#[derive(Drop)]
pub struct TableFiles {
    pub table: RamTable,
    pub dcd: Option<LogFile>,
    pub dcl: Option<LogFile>,
}

/// Reads the files of a table: the records of `T.DCD`, with the ops of `T.DCL` done on them in their order. A file
/// that is not there, or has another cookie, has none. They are `Bad` exactly where one has no meaning, at its first
/// wrong place, and `T.DCD` is looked at first. Each file is read once, and nothing is done to the disk.
pub fn load_table<D: Disk>(
    alloc: Global,
    disk: &mut D,
    def: &TableDef,
) -> Result<TableFiles, LogErr>
    requires { IsDefinition (definition def.now) }
    ensures read { IsTrue D.tells → HasLoaded (definition def.now) result
        (reads (D.past disk.old) (names.dcd_of def.now.name)) (reads (D.past disk.old) (names.dcl_of def.now.name)) }
    ensures bad { (name : List ℕ) (at : ℕ) → IsErrOf result (LogErr.Bad name at) → names.IsOfTable def.now.name name }
    ensures never { IsErrOf result LogErr.TooLong → ⊥ }
    ensures same { IsTrue D.tells → D.past disk.new ≡ D.past disk.old }
    ensures time { D.moment disk.new ≡ D.moment disk.old }
    ensures cause { LogCause (D.faults disk.old) (D.faults disk.new) (D.blamed disk.new) result }
    ensures named { (name : List ℕ) → IsErrOf result (LogErr.File name) → names.IsOfTable def.now.name name }
{
    let (mut table, dcd) = match load_records(alloc, disk, def) {
        Ok(loaded) => loaded,
        Err(error) => return Err(error),
    };
    match load_changes(alloc, disk, def, &mut table) {
        Ok(dcl) => Ok(TableFiles { table, dcd, dcl }),
        Err(error) => Err(error),
    }
}

/// Reads the records of a table, and the file that they stand in.
fn load_records<D: Disk>(
    alloc: Global,
    disk: &mut D,
    def: &TableDef,
) -> Result<(RamTable, Option<LogFile>), LogErr>
    requires { IsDefinition (definition def.now) }
    ensures kind { IfOk result (λ loaded. loaded.0.kind ≡ def.now.kind) }
    ensures read { IsTrue D.tells → HasRecordsRead (definition def.now) result
        (reads (D.past disk.old) (names.dcd_of def.now.name)) }
    ensures bad { (name : List ℕ) (at : ℕ) → IsErrOf result (LogErr.Bad name at) → name ≡ names.dcd_of def.now.name }
    ensures never { IsErrOf result LogErr.TooLong → ⊥ }
    ensures same { IsTrue D.tells → D.past disk.new ≡ D.past disk.old }
    ensures time { D.moment disk.new ≡ D.moment disk.old }
    ensures cause { LogCause (D.faults disk.old) (D.faults disk.new) (D.blamed disk.new) result }
    ensures named { (name : List ℕ) → IsErrOf result (LogErr.File name) → name ≡ names.dcd_of def.now.name }
{
    match own_file(alloc, disk, dcd_name(&def.name), "dcd", def.cookie) {
        Ok(Some(file)) => with_records(alloc, def, file),
        Ok(None) => Ok((RamTable::new(alloc, def.kind), None)),
        Err(error) => Err(error),
    }
}

/// A table with the records of its file.
fn with_records(
    alloc: Global,
    def: &TableDef,
    file: LogFile,
) -> Result<(RamTable, Option<LogFile>), LogErr>
    requires defined { IsDefinition (definition def.now) }
    requires headed { IsHeaded (codes "dcd") def.now.cookie file }
    ensures kind { IfOk result (λ loaded. loaded.0.kind ≡ def.now.kind) }
    ensures file { IfOk result (λ loaded. loaded.1 ≡ Some file) }
    ensures read { HasItemsRead (dcd_form (definition def.now)) def.now.cookie (names.dcd_of def.now.name)
        (λ loaded. contents loaded.0) result file.items }
{
    let mut table = RamTable::new(alloc, def.kind);
    put_records(alloc, def, &file, &mut table)?;
    Ok((table, Some(file)))
}

/// Reads the ops of a table and does them, and answers the file that they stand in.
fn load_changes<D: Disk>(
    alloc: Global,
    disk: &mut D,
    def: &TableDef,
    table: &mut RamTable,
) -> Result<Option<LogFile>, LogErr>
    requires defined { IsDefinition (definition def.now) }
    requires kind { table.old.kind ≡ def.now.kind }
    ensures kind { table.new.kind ≡ def.now.kind }
    ensures read { IsTrue D.tells → HasOpsRead (definition def.now) (contents table.old) (contents table.new) result
        (reads (D.past disk.old) (names.dcl_of def.now.name)) }
    ensures bad { (name : List ℕ) (at : ℕ) → IsErrOf result (LogErr.Bad name at) → name ≡ names.dcl_of def.now.name }
    ensures never { IsErrOf result LogErr.TooLong → ⊥ }
    ensures same { IsTrue D.tells → D.past disk.new ≡ D.past disk.old }
    ensures time { D.moment disk.new ≡ D.moment disk.old }
    ensures cause { LogCause (D.faults disk.old) (D.faults disk.new) (D.blamed disk.new) result }
    ensures named { (name : List ℕ) → IsErrOf result (LogErr.File name) → name ≡ names.dcl_of def.now.name }
{
    match own_file(alloc, disk, dcl_name(&def.name), "dcl", def.cookie) {
        Ok(Some(file)) => with_changes(alloc, def, file, table),
        Ok(None) => Ok(None),
        Err(error) => Err(error),
    }
}

/// Does the ops of a table's file.
fn with_changes(
    alloc: Global,
    def: &TableDef,
    file: LogFile,
    table: &mut RamTable,
) -> Result<Option<LogFile>, LogErr>
    requires defined { IsDefinition (definition def.now) }
    requires headed { IsHeaded (codes "dcl") def.now.cookie file }
    requires kind { table.old.kind ≡ def.now.kind }
    ensures kind { table.new.kind ≡ def.now.kind }
    ensures file { IfOk result (λ found. found ≡ Some file) }
    ensures read { HasOpsDone (definition def.now) (names.dcl_of def.now.name) (contents table.old) (contents table.new)
        result file.items }
{
    do_changes(alloc, def, &file, table)?;
    Ok(Some(file))
}
