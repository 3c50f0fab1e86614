//! What a node that is up is asked.

use db_model::{DefErr, TableDef};
use sqlite_items::Boxed;
use term_core::{Atom, Term};

#[derive(Drop)]
pub enum Command {
    /// Write this record into the table of this name, as the table's kind says.
    Put(Atom, Term),
    /// Read the records of the table of this name with this key.
    Get(Atom, Term),
    /// Make a table of this name, as its options were read. The definition is boxed, since each command would be as large.
    CreateTable(Atom, Result<Boxed<TableDef>, DefErr>),
    /// Take the table of this name away, with its records.
    DeleteTable(Atom),
    /// The names of the tables.
    Tables,
    /// The options of the table of this name, and how many records it has.
    TableInfo(Atom),
    /// Make all commits durable.
    SyncLog,
    /// Close the log.
    Stop,
    /// Begin a transaction of this name.
    Begin(Atom),
    /// In the transaction, write this record into the table.
    Write(Atom, Atom, Term),
    /// In the transaction, delete the table's records with this key.
    Delete(Atom, Atom, Term),
    /// In the transaction, delete this record of the table.
    DeleteObject(Atom, Atom, Term),
    /// In the transaction, read the table's records with this key.
    Read(Atom, Atom, Term),
    /// In the transaction, read the table's records that match this pattern.
    MatchObject(Atom, Atom, Term),
    /// In the transaction, read the table's keys.
    AllKeys(Atom, Atom),
    /// Commit what the transaction wrote.
    Commit(Atom),
    /// Drop the transaction, with what it wrote.
    Abort(Atom),
}
