//! What ops make of the records of one key.

ghost use Rattle.std.specs.Prelude.{◌≡◌, [], ◌++◌, ◌∷◌, ◌≤◌, true, Some, map, take, drop, length, IfOk, OnOk};
ghost use Rattle.std.specs.Prelude.{MatchOption, ⊤, filter, not};
ghost use Rattle.std.specs.List.{list_any, slice_get};
ghost use Rattle.term_core.specs.Tree.{key_of};
ghost use Rattle.term_core.specs.Order.{same_tree};
ghost use Rattle.term_core.specs.View.{tree_of};
ghost use Rattle.db_model.specs.Database.{has_key, is_key_below, without_key, comes_before, with_record, put_record};
ghost use Rattle.db_model.specs.Database.{put_op};
ghost use Rattle.db_model.specs.View.{operation};
ghost use Rattle.ram_table.specs.Contents.{put_ops};
ghost use Rattle.txn_writes.specs.Replays.{with_found, ops_of, is_set, is_fresh, is_fresh_at, starts_fresh};
ghost use Rattle.txn_writes.specs.Replays.{HaveKey, ChangeKey};

use crate::copies::{copied_term, copies};
use db_model::{Kind, Op};
use std::alloc::{AllocError, Global};
use term_core::Term;

/// The live records of the key once the ops at the places are done, in order. It begins at the last op that makes them
/// anew.
pub fn rows_after(
    alloc: Global,
    kind: Kind,
    key: &Term,
    live: &[Term],
    ops: &[Op],
    places: &[usize],
) -> Result<Vec<Term>, AllocError>
    requires rows { HaveKey (tree_of key.now) (map tree_of live.now) }
    requires ops { ChangeKey (tree_of key.now) (ops_of ops.now places.now) }
    ensures { IfOk result (λ rows. map tree_of rows.items
        ≡ put_ops kind (ops_of ops.now places.now) (map tree_of live.now)) }
{
    match last_fresh(kind, ops, places) {
        Some(start) => replayed(alloc, kind, Vec::new(alloc), ops, places.split_at(start).1),
        None => replayed(alloc, kind, copies(alloc, live)?, ops, places),
    }
}

/// The last of the places whose op makes the records anew.
fn last_fresh(kind: Kind, ops: &[Op], places: &[usize]) -> Option<usize>
    ensures within { MatchOption result ⊤ (λ start. start ≤ length places.now) }
    ensures fresh { MatchOption result ⊤
        (λ start. starts_fresh kind (ops_of ops.now (drop start places.now)) ≡ true) }
{
    let mut left = places.len();
    while left > 0 {
        left -= 1;
        if starts_fresh(kind, ops, places.split_at(left).1) {
            return Some(left);
        }
    }
    None
}

/// Whether the op at the first of the places makes the records anew.
fn starts_fresh(kind: Kind, ops: &[Op], places: &[usize]) -> bool
    ensures { result ≡ true → starts_fresh kind (ops_of ops.now places.now) ≡ true }
{
    match places.first() {
        Some(place) => is_fresh_at(kind, ops, *place),
        None => false,
    }
}

fn is_fresh_at(kind: Kind, ops: &[Op], place: usize) -> bool
    ensures { result ≡ is_fresh_at kind (slice_get ops.now place) }
{
    match ops.get(place) {
        Some(op) => is_fresh(kind, op),
        None => false,
    }
}

/// Whether what the op makes of a key's records does not depend on them.
fn is_fresh(kind: Kind, op: &Op) -> bool
    ensures { result ≡ is_fresh kind (operation op.now) }
{
    match op {
        Op::Write(_, _) => is_set(kind),
        Op::Delete(_, _) => true,
        Op::DeleteObject(_, _) => false,
        Op::Clear(_) => true,
    }
}

fn is_set(kind: Kind) -> bool
    ensures { result ≡ is_set kind }
{
    match kind {
        Kind::Bag => false,
        Kind::Set | Kind::OrderedSet => true,
    }
}

/// The records once the ops at the places are done.
fn replayed(
    alloc: Global,
    kind: Kind,
    mut rows: Vec<Term>,
    ops: &[Op],
    places: &[usize],
) -> Result<Vec<Term>, AllocError>
    ensures { IfOk result (λ after. map tree_of after.items
        ≡ put_ops kind (ops_of ops.now places.now) (map tree_of rows.items)) }
{
    do_ops(alloc, kind, &mut rows, ops, places)?;
    Ok(rows)
}

/// Does the ops at the places to the records.
fn do_ops(
    alloc: Global,
    kind: Kind,
    rows: &mut Vec<Term>,
    ops: &[Op],
    places: &[usize],
) -> Result<(), AllocError>
    ensures { OnOk result (map tree_of rows.new.items
        ≡ put_ops kind (ops_of ops.now places.now) (map tree_of rows.old.items)) }
{
    for place in places {
        do_op_at(alloc, kind, rows, ops, *place)?;
    }
    Ok(())
}

/// Does the op at the place to the records.
fn do_op_at(
    alloc: Global,
    kind: Kind,
    rows: &mut Vec<Term>,
    ops: &[Op],
    place: usize,
) -> Result<(), AllocError>
    ensures { OnOk result (map tree_of rows.new.items
        ≡ put_ops kind (with_found (slice_get ops.now place) []) (map tree_of rows.old.items)) }
{
    match ops.get(place) {
        Some(op) => do_op(alloc, kind, rows, op),
        None => Ok(()),
    }
}

/// Does the op to the records.
fn do_op(alloc: Global, kind: Kind, rows: &mut Vec<Term>, op: &Op) -> Result<(), AllocError>
    ensures { OnOk result (map tree_of rows.new.items
        ≡ put_op kind (operation op.now) (map tree_of rows.old.items)) }
{
    match op {
        Op::Write(_, row) => put(alloc, kind, rows, row),
        Op::Delete(_, key) => {
            delete_key(rows, key);
            Ok(())
        }
        Op::DeleteObject(_, row) => {
            delete_row(rows, row);
            Ok(())
        }
        Op::Clear(_) => {
            rows.clear();
            Ok(())
        }
    }
}

/// Writes the record.
fn put(alloc: Global, kind: Kind, rows: &mut Vec<Term>, row: &Term) -> Result<(), AllocError>
    ensures { OnOk result (map tree_of rows.new.items
        ≡ put_record kind (tree_of row.now) (map tree_of rows.old.items)) }
{
    match kind {
        Kind::Bag => {
            if has_row(rows, row) {
                return Ok(());
            }
            insert(alloc, rows, row)
        }
        Kind::Set | Kind::OrderedSet => {
            delete_key_of(rows, row);
            insert(alloc, rows, row)
        }
    }
}

fn has_row(rows: &[Term], row: &Term) -> bool
    ensures { result ≡ list_any (same_tree (tree_of row.now)) (map tree_of rows.now) }
{
    for other in rows {
        if *row == *other {
            return true;
        }
    }
    false
}

/// Puts the record in its place.
fn insert(alloc: Global, rows: &mut Vec<Term>, row: &Term) -> Result<(), AllocError>
    ensures { OnOk result (map tree_of rows.new.items ≡ with_record (tree_of row.now) (map tree_of rows.old.items)) }
{
    let place = place_of(rows, row);
    rows.insert(place, copied_term(alloc, row)?)?;
    Ok(())
}

/// The place of the record among these.
fn place_of(rows: &[Term], row: &Term) -> usize
    ensures within { result ≤ length rows.now }
    ensures place { with_record (tree_of row.now) (map tree_of rows.now)
        ≡ map tree_of (take result rows.now) ++ tree_of row.now ∷ map tree_of (drop result rows.now) }
{
    for (i, other) in rows.iter().enumerate() {
        if comes_before(row, other) {
            return i;
        }
    }
    rows.len()
}

/// Whether the record comes before the other one in a table.
fn comes_before(row: &Term, other: &Term) -> bool
    ensures { result ≡ comes_before (tree_of row.now) (tree_of other.now) }
{
    match row.key() {
        Some(key) => {
            if has_key(other, key) {
                row.cmp(other).is_lt()
            } else {
                is_below(key, other)
            }
        }
        None => false,
    }
}

/// Whether the key is below the record's.
fn is_below(key: &Term, row: &Term) -> bool
    ensures { result ≡ is_key_below (Some (tree_of key.now)) (key_of (tree_of row.now)) }
{
    match row.key() {
        Some(own) => key.cmp(own).is_lt(),
        None => false,
    }
}

fn has_key(row: &Term, key: &Term) -> bool
    ensures { result ≡ has_key (tree_of key.now) (tree_of row.now) }
{
    match row.key() {
        Some(own) => *own == *key,
        None => false,
    }
}

/// Removes the records with the record's key.
fn delete_key_of(rows: &mut Vec<Term>, row: &Term)
    ensures { map tree_of rows.new.items ≡ without_key (key_of (tree_of row.now)) (map tree_of rows.old.items) }
{
    match row.key() {
        Some(key) => delete_key(rows, key),
        None => {}
    }
}

/// Removes the records with the key.
fn delete_key(rows: &mut Vec<Term>, key: &Term)
    ensures { map tree_of rows.new.items ≡ without_key (Some (tree_of key.now)) (map tree_of rows.old.items) }
{
    rows.retain(|row| !has_key(row, key));
}

/// Removes the record.
fn delete_row(rows: &mut Vec<Term>, row: &Term)
    ensures { map tree_of rows.new.items
        ≡ filter (λ other. not (same_tree (tree_of row.now) other)) (map tree_of rows.old.items) }
{
    rows.retain(|other| *row != *other);
}
