//! Where a key or a record is among records.

ghost use Rattle.std.specs.Prelude.{◌≡◌, ◌<◌, ◌≤◌, true, drop, length, slice_index_or, IfSome, IfNone};
ghost use Rattle.std.specs.Ordering.{is_gt};
ghost use Rattle.term_core.specs.View.{tree_of};
ghost use Rattle.term_core.specs.declared.term.Term.{Term};
ghost use Rattle.ram_table.specs.Inside.Rows.{key_cmp, row_key, row_cmp, IsOrdered};
ghost use Rattle.ram_table.specs.Inside.Pages.{IsLowerBound, IsUpperBound, starts_tied, starts_same, IsCut, IsOneKey};

use db_model::Kind;
use std::cmp::Ordering;
use term_core::Term;

/// The key of a record. What has no key is its own key.
pub fn key_of(row: &Term) -> &Term
    ensures { tree_of result.now ≡ row_key row.now }
{
    match row.key() {
        Some(key) => key,
        None => row,
    }
}

/// The record's key against another key.
pub fn key_cmp(row: &Term, key: &Term) -> Ordering
    ensures { result ≡ key_cmp (tree_of key.now) row.now }
{
    key_of(row).cmp(key)
}

/// Two records by their keys, and in a bag then by themselves.
pub fn row_cmp(kind: Kind, row: &Term, other: &Term) -> Ordering
    ensures { result ≡ row_cmp kind row.now other.now }
{
    let by_key = key_of(row).cmp(key_of(other));
    match kind {
        Kind::Bag => match by_key {
            Ordering::Less => Ordering::Less,
            Ordering::Equal => row.cmp(other),
            Ordering::Greater => Ordering::Greater,
        },
        Kind::Set | Kind::OrderedSet => by_key,
    }
}

/// How many of the records are below the key.
pub fn key_start(rows: &[Term], key: &Term) -> usize
    ensures { IsLowerBound (key_cmp (tree_of key.now)) rows.now result }
{
    let mut low = 0;
    let mut high = rows.len();
    while low < high {
        let middle = low + (high - low) / 2;
        if key_cmp(&rows[middle], key).is_lt() {
            low = middle + 1;
        } else {
            high = middle;
        }
    }
    low
}

/// A place at which the records are above the key, or all of them where none is found. It is the second one mostly,
/// as of records from a key on.
fn place_above(rows: &[Term], key: &Term) -> usize
    ensures within { result ≤ length rows.now }
    ensures above { (d : Term) → result < length rows.now
        → is_gt (key_cmp (tree_of key.now) (slice_index_or rows.now result d)) ≡ true }
{
    match rows.get(1) {
        Some(second) if key_cmp(second, key).is_gt() => 1,
        _ => rows.len(),
    }
}

/// How many of the records are not above the key.
pub fn key_end(rows: &[Term], key: &Term) -> usize
    ensures { IsUpperBound (key_cmp (tree_of key.now)) rows.now result }
{
    let mut low = 0;
    let mut high = place_above(rows, key);
    while low < high {
        let middle = low + (high - low) / 2;
        if key_cmp(&rows[middle], key).is_gt() {
            high = middle;
        } else {
            low = middle + 1;
        }
    }
    low
}

/// How many of the records are below the record.
pub fn row_start(kind: Kind, rows: &[Term], row: &Term) -> usize
    ensures { IsLowerBound (λ x. row_cmp kind x row.now) rows.now result }
{
    let mut low = 0;
    let mut high = rows.len();
    while low < high {
        let middle = low + (high - low) / 2;
        if row_cmp(kind, &rows[middle], row).is_lt() {
            low = middle + 1;
        } else {
            high = middle;
        }
    }
    low
}

/// Whether the record at a place ties with the record.
pub fn ties_at(kind: Kind, rows: &[Term], at: usize, row: &Term) -> bool
    ensures { result ≡ starts_tied (λ x. row_cmp kind x row.now) (drop at rows.now) }
{
    match rows.get(at) {
        Some(own) => row_cmp(kind, own, row).is_eq(),
        None => false,
    }
}

/// A place between two keys, by the key of a record. There is none where all have one key.
pub fn boundary(rows: &[Term], near: usize) -> Option<usize>
    requires ordered { IsOrdered rows.now }
    requires within { near < length rows.now }
    ensures some { IfSome result (IsCut rows.now) }
    ensures none { IfNone result (IsOneKey rows.now) }
{
    let row = &rows[near];
    let key = key_of(row);
    let start = key_start(rows, key);
    if start > 0 {
        return Some(start);
    }
    let end = key_end(rows, key);
    if end < rows.len() {
        return Some(end);
    }
    None
}

/// Whether the record stands at a place.
pub fn same_at(rows: &[Term], at: usize, row: &Term) -> bool
    ensures { result ≡ starts_same (tree_of row.now) (drop at rows.now) }
{
    match rows.get(at) {
        Some(own) => own == row,
        None => false,
    }
}
