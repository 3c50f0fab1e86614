//! Pages.

ghost use Rattle.std.specs.Prelude.{◌≡◌, ◌+◌, ◌≤◌, ◌<◌, [], ◌∷◌, ◌++◌, length, take, drop, reverse};
ghost use Rattle.std.specs.Prelude.{IfOk, if◌then◌else◌, slice_set, vec_capacity};
ghost use Rattle.std.specs.List.{insert, remove};
ghost use Rattle.term_core.specs.View.{tree_of};
ghost use Rattle.ram_table.specs.Inside.Rows.{IsIncreasing, IsOrdered, put, without, without_row, at, above};
ghost use Rattle.ram_table.specs.Inside.Pages.{starts_above, first_key_cmp};

use crate::rows::{key_cmp, key_end, key_start, row_start, same_at, ties_at};
use db_model::Kind;
use std::alloc::{AllocError, Global};
use std::cmp::Ordering;
use std::marker::Model;
use std::mem;
use term_core::Term;

/// The most records of a page.
pub const MOST: usize = 64;

/// Records that lie together. There is always room for 65.
#[derive(Drop)]
pub struct Page {
    rows: Vec<Term>,
}

impl Model for Page {
    ghost use Rattle.std.specs.Prelude.{List, ◌≤◌, vec_capacity};
    ghost use Rattle.std.specs.Coded.{coded_list};
    ghost use Rattle.term_core.specs.declared.term.Term.{Term};
    ghost use Rattle.term_core.specs.contracts.term.Term as term;

    ghost Value = { List Term };

    ghost coded = { coded_list term.the_row.coded };

    ghost view = { λ p. p.rows.items };

    ghost invariant = { λ p. 65 ≤ vec_capacity p.rows };
}

impl Page {
    /// A page without records.
    pub fn new(alloc: Global) -> Result<Page, AllocError>
        ensures { IfOk result (λ page. page ≡ []) }
    {
        Ok(Page {
            rows: Vec::with_capacity(alloc, MOST + 1)?,
        })
    }

    /// The records of a list with room for 65.
    pub fn over(rows: Vec<Term>) -> Page
        requires { 65 ≤ vec_capacity rows }
        ensures { result ≡ rows.items }
    {
        Page { rows }
    }

    pub fn rows(&self) -> &[Term]
        ensures { result.now ≡ self.now }
    {
        self.rows.as_slice()
    }

    pub fn len(&self) -> usize
        ensures { result ≡ length self.now }
    {
        self.rows.len()
    }

    /// The first record's key against another key.
    pub fn first_key_cmp(&self, key: &Term) -> Ordering
        requires { 0 < length self.now }
        ensures { result ≡ first_key_cmp (tree_of key.now) self.now }
    {
        match self.rows.first() {
            Some(row) => key_cmp(row, key),
            None => Ordering::Equal,
        }
    }

    /// Whether the first record is above the key.
    pub fn starts_above(&self, key: &Term) -> bool
        ensures { result ≡ starts_above (tree_of key.now) self.now }
    {
        match self.rows.first() {
            Some(row) => key_cmp(row, key).is_gt(),
            None => false,
        }
    }

    /// Puts the record between others. Where the page is full, the spare list takes its place.
    fn insert(&mut self, at: usize, row: Term, spare: &mut Vec<Term>)
        requires within { at ≤ length self.old }
        requires room { length self.old < vec_capacity spare.old }
        requires wide { 65 ≤ vec_capacity spare.old }
        requires empty { spare.old.items ≡ [] }
        ensures insert { self.new ≡ insert self.old at row }
        ensures still_wide { 65 ≤ vec_capacity spare.new }
        ensures still_empty { spare.new.items ≡ [] }
    {
        if self.rows.len() == self.rows.capacity() {
            let _ = spare.append(&mut self.rows);
            mem::swap(spare, &mut self.rows);
        }
        let _ = self.rows.insert(at, row);
    }

    /// Puts the record in the place of another.
    fn set(&mut self, at: usize, row: Term)
        requires { at < length self.old }
        ensures { self.new ≡ slice_set self.old at row }
    {
        self.rows[at] = row;
    }

    /// Puts the record in the place of the one that ties with it. The answer says whether there was none.
    pub fn put(&mut self, kind: Kind, row: Term, spare: &mut Vec<Term>) -> bool
        requires increasing { IsIncreasing kind self.old }
        requires room { length self.old < vec_capacity spare.old }
        requires wide { 65 ≤ vec_capacity spare.old }
        requires empty { spare.old.items ≡ [] }
        ensures put { self.new ≡ put kind self.old row }
        ensures counted { length self.new ≡ (if result then length self.old + 1 else length self.old) }
        ensures still_wide { 65 ≤ vec_capacity spare.new }
        ensures still_empty { spare.new.items ≡ [] }
    {
        let rows = self.rows();
        let at = row_start(kind, rows, &row);
        let found = ties_at(kind, rows, at, &row);
        if found {
            self.set(at, row);
            return false;
        }
        self.insert(at, row, spare);
        true
    }

    /// Removes the records with the key, and answers how many there were.
    pub fn delete_key(&mut self, key: &Term) -> usize
        requires ordered { IsOrdered self.old }
        ensures without { self.new ≡ without self.old (tree_of key.now) }
        ensures counted { length self.old ≡ length self.new + result }
    {
        let rows = self.rows();
        let start = key_start(rows, key);
        let rest = rows.split_at(start).1;
        let count = key_end(rest, key);
        drop(self.rows.drain(start..start + count));
        count
    }

    fn remove(&mut self, at: usize)
        requires { at < length self.old }
        ensures { self.new ≡ remove self.old at }
    {
        let _ = self.rows.remove(at);
    }

    /// Removes the record. The answer says whether it was there.
    pub fn delete_row(&mut self, kind: Kind, row: &Term) -> bool
        requires increasing { IsIncreasing kind self.old }
        ensures without { self.new ≡ without_row self.old row.now }
        ensures counted { length self.old ≡ length self.new + (if result then 1 else 0) }
    {
        let rows = self.rows();
        let at = row_start(kind, rows, row);
        let found = same_at(rows, at, row);
        if found {
            self.remove(at);
        }
        found
    }

    /// The records with the key.
    pub fn read(&self, key: &Term) -> &[Term]
        requires { IsOrdered self.now }
        ensures { result.now ≡ at (tree_of key.now) self.now }
    {
        let rows = self.rows();
        let start = key_start(rows, key);
        let rest = rows.split_at(start).1;
        let count = key_end(rest, key);
        rest.split_at(count).0
    }

    /// The records above the key.
    pub fn above(&self, key: &Term) -> &[Term]
        requires { IsOrdered self.now }
        ensures { result.now ≡ above (tree_of key.now) self.now }
    {
        let rows = self.rows();
        let start = key_start(rows, key);
        let rest = rows.split_at(start).1;
        let count = key_end(rest, key);
        rest.split_at(count).1
    }

    /// Moves the records from a place on to a page without records.
    pub fn cut(&mut self, at: usize, tail: &mut Page)
        requires within { at ≤ length self.old }
        requires empty { tail.old ≡ [] }
        requires room { length self.old ≤ at + 65 }
        ensures front { self.new ≡ take at self.old }
        ensures back { tail.new ≡ drop at self.old }
    {
        self.move_to(at, tail);
        tail.rows.reverse();
    }

    /// Moves them in the other order.
    fn move_to(&mut self, at: usize, tail: &mut Page)
        requires within { at ≤ length self.old }
        requires empty { tail.old ≡ [] }
        requires room { length self.old ≤ at + 65 }
        ensures front { self.new ≡ take at self.old }
        ensures back { reverse tail.new ≡ drop at self.old }
    {
        while self.rows.len() > at {
            if let Some(row) = self.rows.pop() {
                tail.rows.push_reserved(row);
            }
        }
    }
}
