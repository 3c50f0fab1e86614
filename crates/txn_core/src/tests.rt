//! Calls with ample memory, of two transactions that interleave: no contract says that memory is there, and no command
//! makes these calls yet.

ghost use Rattle.std.specs.Prelude.{IfOk};
ghost use Rattle.db_state.specs.Live.{HasKey};

use crate::{TxnErr, Txns};
use db_model::{Defs, Kind, Positions, Rows, Schema, TableDef};
use db_state::Live;
use std::alloc::Global;
use std::test::Fail;
use term_core::{Atom, Term, TermErr};

/// A call: the transaction, what it does, a key and a value; how many terms are found, and why it is refused.
type Call = (&'static str, &'static str, i128, i128, usize, &'static str);

const CALLS: [Call; 24] = [
    ("x", "begin", 0, 0, 0, ""),
    ("x", "begin", 0, 0, 0, "exists"),
    ("y", "begin", 0, 0, 0, ""),
    ("x", "write", 1, 1, 0, ""),
    ("y", "read", 1, 0, 0, "x"),
    ("y", "read", 2, 0, 0, ""),
    ("x", "write", 2, 1, 0, "y"),
    ("y", "match", 0, 0, 0, "x"),
    ("x", "read", 1, 0, 1, ""),
    ("x", "write", 1, 2, 0, ""),
    ("x", "write", 3, 7, 0, ""),
    ("x", "match", 3, 0, 1, ""),
    ("x", "match", 0, 0, 2, ""),
    ("x", "keys", 0, 0, 2, ""),
    ("x", "object", 3, 7, 0, ""),
    ("x", "read", 3, 0, 0, ""),
    ("x", "delete", 1, 0, 0, ""),
    ("x", "keys", 0, 0, 0, ""),
    ("x", "tuple", 0, 0, 0, "record"),
    ("z", "read", 1, 0, 0, "none"),
    ("x", "abort", 0, 0, 0, ""),
    ("x", "abort", 0, 0, 0, "none"),
    ("y", "match", 0, 0, 0, ""),
    ("y", "write", 2, 1, 0, ""),
];

fn atom(alloc: Global, text: &str) -> Result<Term, TermErr> {
    Ok(Term::Atom(Atom::new(alloc, text)?))
}

/// `{t,Key,Value}`, with an atom in the place of what is 0.
fn row(alloc: Global, key: i128, value: i128, atom_for_zero: &str) -> Result<Term, TermErr> {
    let mut parts = Rows::new(alloc);
    parts.push(atom(alloc, "t")?)?;
    for part in [key, value] {
        parts.push(match part {
            0 => atom(alloc, atom_for_zero)?,
            _ => Term::Int(part),
        })?;
    }
    Ok(Term::Tuple(parts))
}

/// The set `t` of records `{t,Key,Value}`.
fn definition(alloc: Global) -> Result<TableDef, TermErr>
    ensures { IfOk result HasKey }
{
    let mut attributes = Rows::new(alloc);
    attributes.push(atom(alloc, "key")?)?;
    attributes.push(atom(alloc, "val")?)?;
    Ok(TableDef {
        name: Atom::new(alloc, "t")?,
        kind: Kind::Set,
        record_name: Atom::new(alloc, "t")?,
        attributes,
        index: Positions::new(alloc),
        cookie: 1,
    })
}

/// A database of that set, without records.
fn database(alloc: Global) -> Result<Live, TermErr> {
    let mut tables = Defs::new(alloc);
    tables.push(definition(alloc)?)?;
    Ok(Live::with_schema(alloc, &Schema { version: 1, tables })?)
}

/// How many terms were found, or why the call is refused.
fn told(found: Result<usize, TxnErr>) -> (usize, &'static str) {
    match found {
        Ok(count) => (count, ""),
        Err(TxnErr::NoTxn) => (0, "none"),
        Err(TxnErr::TxnExists) => (0, "exists"),
        Err(TxnErr::TooMany) => (0, "many"),
        Err(TxnErr::NoTable) => (0, "table"),
        Err(TxnErr::BadRecord) => (0, "record"),
        Err(TxnErr::TooManyCalls) => (0, "calls"),
        Err(TxnErr::Locked(by)) => match by.as_bytes() {
            b"x" => (0, "x"),
            _ => (0, "y"),
        },
        Err(TxnErr::Memory) => (0, "memory"),
    }
}

fn call(
    alloc: Global,
    txns: &mut Txns,
    live: &Live,
    call: &Call,
) -> Result<(usize, &'static str), TermErr> {
    let (name, word, key, value, _, _) = *call;
    let name = Atom::new(alloc, name)?;
    let table = Atom::new(alloc, "t")?;
    let rec = row(alloc, key, value, "_")?;
    Ok(told(match word {
        "begin" => txns.begin(alloc, &name).map(|()| 0),
        "write" => txns.write(alloc, live, &name, &table, &rec).map(|()| 0),
        "tuple" => txns
            .write(alloc, live, &name, &table, &Term::Int(key))
            .map(|()| 0),
        "delete" => txns
            .delete(alloc, live, &name, &table, &Term::Int(key))
            .map(|()| 0),
        "object" => txns
            .delete_object(alloc, live, &name, &table, &rec)
            .map(|()| 0),
        "read" => txns
            .read(alloc, live, &name, &table, &Term::Int(key))
            .map(|rows| rows.len()),
        "match" => txns
            .match_object(alloc, live, &name, &table, &rec)
            .map(|rows| rows.len()),
        "keys" => txns
            .all_keys(alloc, live, &name, &table)
            .map(|keys| keys.len()),
        _ => txns.abort(&name).map(|()| 0),
    }))
}

#[test]
fn transactions_that_interleave(rt: HostRuntime) -> Result<(), Fail> {
    let alloc = rt.alloc();
    let live = database(alloc)?;
    let mut txns = Txns::new(alloc);
    for row in CALLS {
        let (count, why) = call(alloc, &mut txns, &live, &row)?;
        assert!(rt; count == row.4 && why == row.5);
    }
    Ok(())
}
