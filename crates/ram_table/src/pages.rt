//! Where a key is among pages, and what ops do to the page that has it.

ghost use Rattle.std.specs.Prelude.{◌≡◌, ◌<◌, ◌≤◌, ◌-◌, ◌+◌, suc, [], length, take, drop, slice_index_or};
ghost use Rattle.std.specs.Prelude.{if◌then◌else◌, vec_len, vec_capacity};
ghost use Rattle.std.specs.List.{AllByRecursion};
ghost use Rattle.std.specs.Option.{option_map, option_copied};
ghost use Rattle.std.specs.declared.cmp.Ordering.TheVariants.{Less, Greater};
ghost use Rattle.term_core.specs.View.{tree_of};
ghost use Rattle.ram_table.specs.Inside.Rows.{row_key, key_cmp, IsOrdered, put, without, without_row, at, above};
ghost use Rattle.ram_table.specs.Inside.Rows.{first_row_key};
ghost use Rattle.ram_table.specs.Inside.Pages.{joined, IsPage, IsPaged, IsApart, IsSorted, IsPagePlace, IsAround};

use crate::page::{MOST, Page};
use crate::rows::{boundary, key_cmp, key_of};
use db_model::Kind;
use std::cmp::Ordering;
use term_core::Term;

/// How many of the pages do not start above the key.
fn page_place(pages: &[Page], key: &Term) -> usize
    ensures { IsPagePlace (tree_of key.now) pages.now result }
{
    let mut low = 0;
    let mut high = pages.len();
    while low < high {
        let middle = low + (high - low) / 2;
        if pages[middle].starts_above(key) {
            high = middle;
        } else {
            low = middle + 1;
        }
    }
    low
}

/// The page that has the key's records, or would have them.
pub fn page_for(pages: &[Page], key: &Term) -> usize
    requires paged { IsSorted pages.now }
    requires some { 0 < length pages.now }
    ensures { IsAround (tree_of key.now) pages.now result }
{
    let place = page_place(pages, key);
    if place == 0 { 0 } else { place - 1 }
}

/// The records with the key.
pub fn read_rows<'a>(pages: &'a [Page], key: &Term) -> &'a [Term]
    requires { IsSorted pages.now }
    ensures { result.now ≡ at (tree_of key.now) (joined pages.now) }
{
    if pages.is_empty() {
        return &[];
    }
    let page = &pages[page_for(pages, key)];
    page.read(key)
}

/// The first key of the pages from a place on.
pub fn key_from(pages: &[Page], at: usize) -> Option<&Term>
    requires { IsSorted pages.now }
    ensures { option_map tree_of (option_copied result) ≡ first_row_key (joined (drop at pages.now)) }
{
    let page = pages.get(at)?;
    let row = page.rows().first()?;
    Some(key_of(row))
}

/// The first key above this one.
pub fn key_above<'a>(pages: &'a [Page], key: &Term) -> Option<&'a Term>
    requires { IsSorted pages.now }
    ensures { option_map tree_of (option_copied result)
        ≡ first_row_key (above (tree_of key.now) (joined pages.now)) }
{
    if pages.is_empty() {
        return None;
    }
    let at = page_for(pages, key);
    let page = &pages[at];
    match page.above(key).first() {
        Some(row) => Some(key_of(row)),
        None => key_from(pages, at + 1),
    }
}

/// Gives a record between the keys of the others a page of its own.
fn new_page(pages: &mut Vec<Page>, kind: Kind, at: usize, row: Term, mut spare: Vec<Term>)
    requires paged { IsPaged kind pages.old.items }
    requires within { at ≤ vec_len pages.old }
    requires before { AllByRecursion (λ x. key_cmp (row_key row) x ≡ Less) (joined (take at pages.old.items)) }
    requires behind { AllByRecursion (λ y. key_cmp (row_key row) y ≡ Greater) (joined (drop at pages.old.items)) }
    requires room { vec_len pages.old < vec_capacity pages.old }
    requires empty { spare.items ≡ [] }
    requires wide { 65 ≤ vec_capacity spare }
    ensures paged { IsPaged kind pages.new.items }
    ensures put { joined pages.new.items ≡ put kind (joined pages.old.items) row }
    ensures counted { length (joined pages.new.items) ≡ length (joined pages.old.items) + 1 }
    ensures capacity { vec_capacity pages.new ≡ vec_capacity pages.old }
{
    spare.push_reserved(row);
    let _ = pages.insert(at, Page::over(spare));
}

/// Cuts a page of 65 records between two keys, and the last page so that most of its records stay.
fn cut_page(pages: &mut Vec<Page>, at: usize, spare: Vec<Term>)
    requires within { at < vec_len pages.old }
    requires long { length (slice_index_or pages.old.items at []) ≡ 65 }
    requires ordered { IsOrdered (slice_index_or pages.old.items at []) }
    requires room { vec_len pages.old < vec_capacity pages.old }
    requires empty { spare.items ≡ [] }
    requires wide { 65 ≤ vec_capacity spare }
    ensures joined { joined pages.new.items ≡ joined pages.old.items }
    ensures each { AllByRecursion IsPage (take at pages.old.items)
        → AllByRecursion IsPage (drop (suc at) pages.old.items) → AllByRecursion IsPage pages.new.items }
    ensures apart { IsApart pages.old.items → IsApart pages.new.items }
    ensures capacity { vec_capacity pages.new ≡ vec_capacity pages.old }
{
    let near = if at + 1 == pages.len() {
        MOST
    } else {
        MOST / 2
    };
    let page = &mut pages[at];
    match boundary(page.rows(), near) {
        Some(cut) => {
            let mut tail = Page::over(spare);
            page.cut(cut, &mut tail);
            let _ = pages.insert(at + 1, tail);
        }
        None => {}
    }
}

/// Puts a record where all have one key, or in a page of its own beside them.
fn put_big(pages: &mut Vec<Page>, place: usize, kind: Kind, row: Term, mut spare: Vec<Term>) -> bool
    requires paged { IsPaged kind pages.old.items }
    requires around { IsAround (row_key row) pages.old.items place }
    requires big { 64 < length (slice_index_or pages.old.items place []) }
    requires room { vec_len pages.old < vec_capacity pages.old }
    requires empty { spare.items ≡ [] }
    requires wide { 65 ≤ vec_capacity spare }
    requires enough { length (at (row_key row) (joined pages.old.items)) < vec_capacity spare }
    ensures paged { IsPaged kind pages.new.items }
    ensures put { joined pages.new.items ≡ put kind (joined pages.old.items) row }
    ensures counted { length (joined pages.new.items)
        ≡ (if result then length (joined pages.old.items) + 1 else length (joined pages.old.items)) }
    ensures capacity { vec_capacity pages.new ≡ vec_capacity pages.old }
{
    let page = &pages[place];
    match page.first_key_cmp(key_of(&row)) {
        Ordering::Less => {
            new_page(pages, kind, place + 1, row, spare);
            true
        }
        Ordering::Equal => {
            let page = &mut pages[place];
            page.put(kind, row, &mut spare)
        }
        Ordering::Greater => {
            new_page(pages, kind, place, row, spare);
            true
        }
    }
}

/// Puts the record in the place of the one that ties with it. The answer says whether there was none.
pub fn put_row(pages: &mut Vec<Page>, kind: Kind, row: Term, mut spare: Vec<Term>) -> bool
    requires paged { IsPaged kind pages.old.items }
    requires room { vec_len pages.old < vec_capacity pages.old }
    requires empty { spare.items ≡ [] }
    requires wide { 65 ≤ vec_capacity spare }
    requires enough { length (at (row_key row) (joined pages.old.items)) < vec_capacity spare }
    ensures paged { IsPaged kind pages.new.items }
    ensures put { joined pages.new.items ≡ put kind (joined pages.old.items) row }
    ensures counted { length (joined pages.new.items)
        ≡ (if result then length (joined pages.old.items) + 1 else length (joined pages.old.items)) }
    ensures capacity { vec_capacity pages.new ≡ vec_capacity pages.old }
{
    if pages.is_empty() {
        new_page(pages, kind, 0, row, spare);
        return true;
    }
    let at = page_for(pages, key_of(&row));
    let page = &mut pages[at];
    if page.len() > MOST {
        return put_big(pages, at, kind, row, spare);
    }
    let added = page.put(kind, row, &mut spare);
    if page.len() > MOST {
        cut_page(pages, at, spare);
    }
    added
}

/// Removes the records with the key, and answers how many there were.
pub fn delete_key(pages: &mut Vec<Page>, kind: Kind, key: &Term) -> usize
    requires paged { IsPaged kind pages.old.items }
    ensures paged { IsPaged kind pages.new.items }
    ensures without { joined pages.new.items ≡ without (joined pages.old.items) (tree_of key.now) }
    ensures counted { length (joined pages.old.items) ≡ length (joined pages.new.items) + result }
    ensures capacity { vec_capacity pages.new ≡ vec_capacity pages.old }
{
    if pages.is_empty() {
        return 0;
    }
    let at = page_for(pages, key);
    let page = &mut pages[at];
    let dropped = page.delete_key(key);
    if page.len() == 0 {
        let _ = pages.remove(at);
    }
    dropped
}

/// Removes the record. The answer says whether it was there.
pub fn delete_row(pages: &mut Vec<Page>, kind: Kind, row: &Term) -> bool
    requires paged { IsPaged kind pages.old.items }
    ensures paged { IsPaged kind pages.new.items }
    ensures without { joined pages.new.items ≡ without_row (joined pages.old.items) row.now }
    ensures counted { length (joined pages.old.items)
        ≡ length (joined pages.new.items) + (if result then 1 else 0) }
    ensures capacity { vec_capacity pages.new ≡ vec_capacity pages.old }
{
    if pages.is_empty() {
        return false;
    }
    let at = page_for(pages, key_of(row));
    let page = &mut pages[at];
    let dropped = page.delete_row(kind, row);
    if page.len() == 0 {
        let _ = pages.remove(at);
    }
    dropped
}
