//! The tables where these changes were done, as plain lists, and the replies then.

use crate::refusals::Refusal;
use crate::steps::{Call, KEYS, Pattern, QUESTIONS, Row, Step, Table};
use std::alloc::{AllocError, Global};
use std::vec;

/// What was done to the tables.
#[derive(Clone, Copy)]
pub enum Change {
    Make(Table),
    Remove(Table),
    /// A record of this key and this value is written.
    Write(Table, u64, u64),
    /// All records of this key are deleted.
    Delete(Table, u64),
    /// The record of this key and this value is deleted.
    DeleteObject(Table, u64, u64),
}

impl Change {
    /// What a call does: nothing where it only reads.
    pub fn of_call(call: Call) -> Option<Change> {
        match call {
            Call::Write(table, Row::Pair(key, value)) => Some(Change::Write(table, key, value)),
            Call::Delete(table, key) => Some(Change::Delete(table, key)),
            Call::DeleteObject(table, Row::Pair(key, value)) => {
                Some(Change::DeleteObject(table, key, value))
            }
            _ => None,
        }
    }
}

/// Whether a disk failed.
pub fn is_fault(reply: &[u8]) -> bool {
    reply == b"{error,{file,'LATEST.LOG'}}".as_slice()
        || reply == b"{error,{file,'LATEST.LOGTMP'}}".as_slice()
}

pub fn started(alloc: Global, count: usize) -> Result<String, AllocError> {
    format!(in alloc; "{{started,{count}}}")
}

/// Whether the table stands.
pub fn stands(changes: &[Change], table: Table) -> bool {
    let mut stands = false;
    for change in changes {
        match change {
            Change::Make(other) if *other == table => stands = true,
            Change::Remove(other) if *other == table => stands = false,
            _ => {}
        }
    }
    stands
}

// The values of a key behind a write of this one: a bag has all in their order, each once, and a set the last one.
fn with_value(
    alloc: Global,
    table: Table,
    values: &[u64],
    value: u64,
) -> Result<Vec<u64>, AllocError> {
    if table != Table::Bag {
        return Ok(vec![in alloc; value]?);
    }
    let mut all = Vec::new(alloc);
    for other in values {
        if *other < value {
            all.push(*other)?;
        }
    }
    all.push(value)?;
    for other in values {
        if *other > value {
            all.push(*other)?;
        }
    }
    Ok(all)
}

// The values behind a change, for the records of this key.
fn changed(
    alloc: Global,
    mut values: Vec<u64>,
    change: Change,
    table: Table,
    key: u64,
) -> Result<Vec<u64>, AllocError> {
    match change {
        Change::Make(other) | Change::Remove(other) if other == table => values.clear(),
        Change::Delete(other, own) if other == table && own == key => values.clear(),
        Change::DeleteObject(other, own, value) if other == table && own == key => {
            values.retain(|kept| *kept != value);
        }
        Change::Write(other, own, value) if other == table && own == key => {
            return with_value(alloc, table, &values, value);
        }
        _ => {}
    }
    Ok(values)
}

// The values that the table has for this key. A table that is made or taken away has none.
fn values(
    alloc: Global,
    changes: &[Change],
    table: Table,
    key: u64,
) -> Result<Vec<u64>, AllocError> {
    let mut values = Vec::new(alloc);
    for change in changes {
        values = changed(alloc, values, *change, table, key)?;
    }
    Ok(values)
}

// Adds an element to the text of a list that is open.
fn add(list: &mut String, element: &str) -> Result<(), AllocError> {
    if list.len() > 1 {
        list.push_str(",")?;
    }
    list.push_str(element)
}

// Adds the records of a key that are looked for.
fn add_rows(
    alloc: Global,
    list: &mut String,
    changes: &[Change],
    table: Table,
    key: u64,
    pattern: Pattern,
) -> Result<(), AllocError> {
    let name = table.name();
    for value in &values(alloc, changes, table, key)? {
        if pattern.fits(key, *value) {
            add(list, &format!(in alloc; "{{{name},{key},{value}}}")?)?;
        }
    }
    Ok(())
}

// The list of the records that are looked for, in the order of their keys.
fn rows(
    alloc: Global,
    changes: &[Change],
    table: Table,
    pattern: Pattern,
) -> Result<String, AllocError> {
    let mut list = String::from_str(alloc, "[")?;
    for key in KEYS {
        add_rows(alloc, &mut list, changes, table, key, pattern)?;
    }
    list.push_str("]")?;
    Ok(list)
}

// The list of the keys of which there are records.
fn keys(alloc: Global, changes: &[Change], table: Table) -> Result<String, AllocError> {
    let mut list = String::from_str(alloc, "[")?;
    for key in KEYS {
        if !values(alloc, changes, table, key)?.is_empty() {
            add(&mut list, &format!(in alloc; "{key}")?)?;
        }
    }
    list.push_str("]")?;
    Ok(list)
}

// The names of the tables, in their order.
fn names(alloc: Global, changes: &[Change]) -> Result<String, AllocError> {
    let mut list = String::from_str(alloc, "[")?;
    for table in [Table::Bag, Table::Ordered, Table::Set] {
        if stands(changes, table) {
            add(&mut list, table.name())?;
        }
    }
    list.push_str("]")?;
    Ok(list)
}

// All options of the table, and how many records it has.
fn info(alloc: Global, changes: &[Change], table: Table) -> Result<String, AllocError> {
    let mut size = 0usize;
    for key in KEYS {
        size = size.saturating_add(values(alloc, changes, table, key)?.len());
    }
    let (name, kind) = (table.name(), table.kind());
    format!(in alloc;
        "[{{type,{kind}}},{{record_name,{name}}},{{attributes,[key,val]}},{{index,[]}},{{size,{size}}}]"
    )
}

/// What a call is told on these tables.
pub fn called(alloc: Global, changes: &[Change], call: Call) -> Result<String, AllocError> {
    match call {
        Call::Read(table, key) => rows(alloc, changes, table, Pattern::Key(key)),
        Call::Match(table, pattern) => rows(alloc, changes, table, pattern),
        Call::AllKeys(table) => keys(alloc, changes, table),
        _ => String::from_str(alloc, "ok"),
    }
}

/// What a command that only reads is told on these tables.
pub fn told(alloc: Global, changes: &[Change], step: Step) -> Result<String, AllocError> {
    match step {
        Step::Get(table, key) => called(alloc, changes, Call::Read(table, key)),
        Step::Info(table) => info(alloc, changes, table),
        _ => names(alloc, changes),
    }
}

// The same, also where there is no such table.
fn answered(alloc: Global, changes: &[Change], step: Step) -> Result<String, AllocError> {
    match step {
        Step::Get(table, _) if !stands(changes, table) => Refusal::NoTable(table).text(alloc),
        _ => told(alloc, changes, step),
    }
}

/// What a run of the questions prints.
pub fn shown(alloc: Global, changes: &[Change]) -> Result<String, AllocError> {
    let mut text = started(alloc, 0)?;
    for question in &QUESTIONS {
        text.push_str("\n")?;
        text.push_str(&answered(alloc, changes, *question)?)?;
    }
    text.push_str("\n")?;
    Ok(text)
}
