//! What is answered.

use file_trait::FileName;
use sqlite_items::Items;
use term_core::{Atom, Term};

#[derive(Drop)]
pub enum Reply {
    /// The node is up. Of the commits since the last good start so many were kept: none at the first start.
    Started(u64),
    /// The commit is done.
    Done,
    /// The transaction did what it was asked, and nothing is committed.
    Ok,
    /// Records, keys, the names of the tables, or what is told of one.
    Found(Items<Term>),
    /// All commits are durable.
    Synced,
    /// The node is down, and its log is closed.
    Stopped,
    /// There is no table of this name.
    NoTable(Atom),
    /// There is a table of this name, or a pending transaction.
    Exists(Atom),
    /// The table can have no such record or key.
    BadRecord(Term),
    /// No table can be called so.
    BadName(Atom),
    /// The option at this place is ill, from 1, or there is no list of options, at 0.
    BadOption(u64),
    /// No transaction of this name is pending.
    NoTransaction(Atom),
    /// The transaction of this name has a conflicting lock.
    Locked(Atom),
    /// There are as many tables as there may be.
    TooManyTables,
    /// There is no version behind that of the database.
    TooManyVersions,
    /// The commit's text is longer than one may be.
    TooLong,
    /// There are as many pending transactions as there may be.
    TooManyTransactions,
    /// The transaction has as many calls as it may.
    TooManyCalls,
    /// The line is no command, from this byte on.
    Badarg(u64),
    /// The node is down, and the command is no start.
    Down,
    /// The node is up, and the command is a start.
    Up,
    /// Memory ran out, and nothing changed.
    Memory,
    /// The disk failed at this file, and the node is down.
    Fault(FileName),
    /// A start found that this file has no meaning, from this place on.
    Damaged(FileName, u64),
}
