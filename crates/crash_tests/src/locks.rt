//! The transactions that are pending, and who holds which lock.

use crate::steps::{Call, Table};
use std::alloc::{AllocError, Global};

/// A transaction that is pending, with its calls that were answered well.
#[derive(Drop)]
pub struct Pending {
    pub txn: u64,
    pub calls: Vec<Call>,
}

/// A lock on a key, or on the whole table where there is none.
#[derive(Clone, Copy)]
pub struct Lock {
    table: Table,
    key: Option<u64>,
    writes: bool,
}

impl Lock {
    /// The lock of what takes the table away: any other one on the table bars it.
    pub fn of_table(table: Table) -> Lock {
        Lock {
            table,
            key: None,
            writes: true,
        }
    }

    /// The lock of a call.
    pub fn of_call(call: Call) -> Lock {
        let (key, writes) = match call {
            Call::Write(_, row) | Call::DeleteObject(_, row) => (Some(row.key()), true),
            Call::Delete(_, key) => (Some(key), true),
            Call::Read(_, key) => (Some(key), false),
            Call::Match(_, _) | Call::AllKeys(_) => (None, false),
        };
        Lock {
            table: call.table(),
            key,
            writes,
        }
    }

    // At least one is for writing, and they are on the same key, or one is on the whole table.
    fn conflicts(self, other: Lock) -> bool {
        let meet = match (self.key, other.key) {
            (Some(key), Some(another)) => key == another,
            _ => true,
        };
        self.table == other.table && (self.writes || other.writes) && meet
    }
}

fn holds(calls: &[Call], lock: Lock) -> bool {
    for call in calls {
        if lock.conflicts(Lock::of_call(*call)) {
            return true;
        }
    }
    false
}

/// The first transaction, in the order of beginning and but this one, with a lock that conflicts.
pub fn holder(pending: &[Pending], own: Option<u64>, lock: Lock) -> Option<u64> {
    for other in pending {
        if Some(other.txn) != own && holds(&other.calls, lock) {
            return Some(other.txn);
        }
    }
    None
}

/// The calls of a transaction, where it is pending.
pub fn calls_of(pending: &[Pending], txn: u64) -> Option<&[Call]> {
    for other in pending {
        if other.txn == txn {
            return Some(&other.calls);
        }
    }
    None
}

/// Begins a transaction.
pub fn begin(alloc: Global, pending: &mut Vec<Pending>, txn: u64) -> Result<(), AllocError> {
    pending.push(Pending {
        txn,
        calls: Vec::new(alloc),
    })?;
    Ok(())
}

/// Keeps a call of a transaction.
pub fn keep(pending: &mut Vec<Pending>, txn: u64, call: Call) -> Result<(), AllocError> {
    for other in pending.iter_mut() {
        if other.txn == txn {
            other.calls.push(call)?;
        }
    }
    Ok(())
}

/// Drops a transaction.
pub fn forget(pending: &mut Vec<Pending>, txn: u64) {
    pending.retain(|other| other.txn != txn);
}
