//! The lines of the commands.

use crate::steps::{Call, Pattern, Row, Step, Table};
use std::alloc::{AllocError, Global};

/// `{Table,Key,Value}`, or `{Table,Key}` where it has no value.
pub fn row_text(alloc: Global, table: Table, row: Row) -> Result<String, AllocError> {
    let name = table.name();
    match row {
        Row::Pair(key, value) => format!(in alloc; "{{{name},{key},{value}}}"),
        Row::Short(key) => format!(in alloc; "{{{name},{key}}}"),
    }
}

fn pattern_text(alloc: Global, table: Table, pattern: Pattern) -> Result<String, AllocError> {
    let name = table.name();
    match pattern {
        Pattern::Any => format!(in alloc; "{{{name},'_','_'}}"),
        Pattern::Key(key) => format!(in alloc; "{{{name},{key},'_'}}"),
        Pattern::Value(value) => format!(in alloc; "{{{name},'$1',{value}}}"),
        Pattern::Alike => format!(in alloc; "{{{name},'$1','$1'}}"),
    }
}

fn call_line(alloc: Global, txn: u64, call: Call) -> Result<String, AllocError> {
    let name = call.table().name();
    match call {
        Call::Write(table, row) => {
            let row = row_text(alloc, table, row)?;
            format!(in alloc; "write x{txn} {name} {row}\n")
        }
        Call::DeleteObject(table, row) => {
            let row = row_text(alloc, table, row)?;
            format!(in alloc; "delete_object x{txn} {name} {row}\n")
        }
        Call::Match(table, pattern) => {
            let pattern = pattern_text(alloc, table, pattern)?;
            format!(in alloc; "match_object x{txn} {name} {pattern}\n")
        }
        Call::Delete(_, key) => format!(in alloc; "delete x{txn} {name} {key}\n"),
        Call::Read(_, key) => format!(in alloc; "read x{txn} {name} {key}\n"),
        Call::AllKeys(_) => format!(in alloc; "all_keys x{txn} {name}\n"),
    }
}

// The line of a command on this table.
fn table_line(alloc: Global, step: Step, table: Table) -> Result<String, AllocError> {
    let name = table.name();
    match step {
        Step::Make(_) => {
            let kind = table.kind();
            format!(in alloc; "create_table {name} [{{type,{kind}}}]\n")
        }
        Step::MakeBadOption(_) => format!(in alloc; "create_table {name} [{{type,heap}}]\n"),
        Step::Remove(_) => format!(in alloc; "delete_table {name}\n"),
        Step::Put(_, row) => {
            let row = row_text(alloc, table, row)?;
            format!(in alloc; "put {name} {row}\n")
        }
        Step::Get(_, key) => format!(in alloc; "get {name} {key}\n"),
        _ => format!(in alloc; "table_info {name}\n"),
    }
}

// The line of a command that has no arguments, or always the same.
fn fixed_line(step: Step) -> &'static str {
    match step {
        Step::MakeBadName => "create_table schema []\n",
        Step::Tables => "tables\n",
        Step::SyncLog => "sync_log\n",
        Step::Stop => "stop\n",
        Step::Start => "start\n",
        _ => "get s\n",
    }
}

fn line_of(alloc: Global, step: Step) -> Result<String, AllocError> {
    match step {
        Step::Make(table)
        | Step::MakeBadOption(table)
        | Step::Remove(table)
        | Step::Put(table, _)
        | Step::Get(table, _)
        | Step::Info(table) => table_line(alloc, step, table),
        Step::Begin(txn) => format!(in alloc; "begin x{txn}\n"),
        Step::Call(txn, call) => call_line(alloc, txn, call),
        Step::Commit(txn) => format!(in alloc; "commit x{txn}\n"),
        Step::Abort(txn) => format!(in alloc; "abort x{txn}\n"),
        _ => String::from_str(alloc, fixed_line(step)),
    }
}

/// The lines of these commands.
pub fn script_of(alloc: Global, steps: &[Step]) -> Result<String, AllocError> {
    let mut script = String::new(alloc);
    for step in steps {
        script.push_str(&line_of(alloc, *step)?)?;
    }
    Ok(script)
}
