//! Why a command is refused, and the reply then.

use crate::lines::row_text;
use crate::steps::{Row, Table};
use std::alloc::{AllocError, Global};

/// Why a command is refused.
#[derive(Clone, Copy)]
pub enum Refusal {
    NoCommand,
    Down,
    Up,
    BadName,
    BadOption,
    TableExists(Table),
    NoTable(Table),
    /// The table can have no such record.
    Unfit(Table, Row),
    TransactionExists(u64),
    TooManyTransactions,
    NoTransaction(u64),
    /// This transaction has a lock that bars the command.
    Locked(u64),
}

// `{aborted,{Why,Table}}`
fn on_table(alloc: Global, why: &str, table: Table) -> Result<String, AllocError> {
    let name = table.name();
    format!(in alloc; "{{aborted,{{{why},{name}}}}}")
}

// `{aborted,{Why,Transaction}}`
fn on_transaction(alloc: Global, why: &str, txn: u64) -> Result<String, AllocError> {
    format!(in alloc; "{{aborted,{{{why},x{txn}}}}}")
}

// A reply that names nothing of the command, but for the line `get s`, which ends at 5.
fn fixed(refusal: Refusal) -> &'static str {
    match refusal {
        Refusal::Down => "{error,down}",
        Refusal::Up => "{error,up}",
        Refusal::BadName => "{aborted,{bad_name,schema}}",
        Refusal::BadOption => "{aborted,{bad_option,1}}",
        Refusal::TooManyTransactions => "{aborted,{limit,transactions}}",
        _ => "{badarg,5}",
    }
}

impl Refusal {
    /// The reply.
    pub fn text(self, alloc: Global) -> Result<String, AllocError> {
        match self {
            Refusal::TableExists(table) => on_table(alloc, "already_exists", table),
            Refusal::NoTable(table) => on_table(alloc, "no_exists", table),
            Refusal::TransactionExists(txn) => on_transaction(alloc, "already_exists", txn),
            Refusal::NoTransaction(txn) => on_transaction(alloc, "no_transaction", txn),
            Refusal::Locked(txn) => on_transaction(alloc, "locked", txn),
            Refusal::Unfit(table, row) => {
                let row = row_text(alloc, table, row)?;
                format!(in alloc; "{{aborted,{{bad_type,{row}}}}}")
            }
            _ => String::from_str(alloc, fixed(self)),
        }
    }
}
