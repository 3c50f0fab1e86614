//! The ops of a transaction.

ghost use Rattle.std.specs.Prelude.{◌≡◌, [], ◌∷◌, ◌++◌, IsSome, OnOk, OnErr};
ghost use Rattle.std.specs.List.{slice_get};
ghost use Rattle.std.specs.Prelude.{◌<◌, List, length, IfSome};
ghost use Rattle.db_model.specs.declared.op.Op.{Op};
ghost use Rattle.txn_writes.specs.Places.{HasKey, IsOpNoted, AreAlike};
ghost use Rattle.std.specs.Prelude.{map, filter, Some, None, IfOk};
ghost use Rattle.std.specs.Option.{option_map, option_copied};
ghost use Rattle.term_core.specs.View.{tree_of};
ghost use Rattle.db_model.specs.Database.{records_of};
ghost use Rattle.db_model.specs.View.{operation};
ghost use Rattle.table_query.specs.Values.{is_match};
ghost use Rattle.txn_writes.specs.Seen.{key_changed, is_changed, seen, keys};
ghost use Rattle.txn_writes.specs.Walks.{are_some};

use crate::copies::copied_term;
use crate::places::Places;
use crate::replay::rows_after;
use crate::walk::next_key;
use db_model::{Op, Ops};
use ram_table::RamTable;
use sqlite_items::Items;
use std::alloc::{AllocError, Global};
use std::marker::Model;
use table_query::{bound_key, bound_key_law, matches};
use term_core::{Atom, Term};

/// What a transaction writes, in order. Contracts see the list of the ops.
///
/// The places of the ops on a key are at hand, so that a read of the key looks at these alone.
#[derive(Drop)]
pub struct Writes {
    ops: Ops,
    places: Places,
}

impl Model for Writes {
    ghost use Rattle.std.specs.Prelude.{List};
    ghost use Rattle.std.specs.Coded.{coded_list};
    ghost use Rattle.db_model.specs.declared.op.Op.{Op};
    ghost use Rattle.db_model.specs.contracts.op.Op as op;

    ghost Value = { List Op };

    ghost coded = { coded_list op.the_row.coded };

    ghost use Rattle.txn_writes.specs.Places.{AreWrites};

    ghost view = { λ w. w.ops };

    ghost invariant = { λ w. AreWrites w.ops w.places };
}

impl Writes {
    /// Nothing is written.
    pub fn new(alloc: Global) -> Writes
        ensures { result ≡ [] }
    {
        Writes {
            ops: Ops::new(alloc),
            places: Places::new(alloc),
        }
    }

    /// Writes the op behind the others.
    pub fn push(&mut self, alloc: Global, op: Op) -> Result<(), AllocError>
        requires keyed { IsSome (key_changed (operation op)) }
        ensures ok { OnOk result (self.new ≡ self.old ++ op ∷ []) }
        ensures err { OnErr result (self.new ≡ self.old) }
    {
        let place = self.ops.len();
        self.ops.push(op)?;
        let noted = note_at(alloc, &mut self.places, self.ops.as_slice(), place);
        if noted.is_err() {
            remove_last(&mut self.ops);
        }
        noted
    }

    /// Whether an op changes records of the table of this name: those of the key, or any where none is given.
    pub fn changes(&self, name: &Atom, key: Option<&Term>) -> bool
        ensures { result ≡ is_changed name.now (option_map tree_of (option_copied key.entry)) self.now }
    {
        match key {
            Some(key) => self.changes_key(name, key),
            None => self.changes_table(name),
        }
    }

    /// Whether an op changes records of the key in the table of this name.
    fn changes_key(&self, name: &Atom, key: &Term) -> bool
        ensures { result ≡ is_changed name.now (Some (tree_of key.now)) self.now }
    {
        !self.places.at(name, key).is_empty()
    }

    /// Whether an op changes records of the table of this name.
    fn changes_table(&self, name: &Atom) -> bool
        ensures { result ≡ is_changed name.now None self.now }
    {
        self.places.of_table(name).is_some()
    }

    /// The records of the key in the table of this name, as the transaction sees them.
    pub fn read(
        &self,
        alloc: Global,
        name: &Atom,
        table: &RamTable,
        key: &Term,
    ) -> Result<Items<Term>, AllocError>
        ensures { IfOk result (λ rows. map tree_of rows
            ≡ records_of (tree_of key.now) (seen name.now self.now table.now)) }
    {
        table.order_law();
        let rows = rows_after(
            alloc,
            table.kind(),
            key,
            table.read(key),
            self.ops.as_slice(),
            self.places.at(name, key),
        )?;
        Ok(Items::from_vec(rows))
    }

    /// The keys of the records in the table of this name, as the transaction sees them, in order.
    pub fn all_keys(
        &self,
        alloc: Global,
        name: &Atom,
        table: &RamTable,
    ) -> Result<Items<Term>, AllocError>
        ensures { IfOk result (λ found. map tree_of found ≡ keys (seen name.now self.now table.now)) }
    {
        table.order_law();
        table.key_law();
        let own = self.places.of_table(name);
        let mut found = Items::new(alloc);
        let mut last = None;
        while let Some(key) = next_key(own, table, last) {
            self.add_key(alloc, name, table, key, &mut found)?;
            last = Some(key);
        }
        Ok(found)
    }

    /// Adds the key where the transaction sees a record with it.
    fn add_key(
        &self,
        alloc: Global,
        name: &Atom,
        table: &RamTable,
        key: &Term,
        found: &mut Items<Term>,
    ) -> Result<(), AllocError>
        ensures { OnOk result (map tree_of found.new ≡ map tree_of found.old
            ++ keys (records_of (tree_of key.now) (seen name.now self.now table.now))) }
    {
        if self.has_key(alloc, name, table, key)? {
            found.push(copied_term(alloc, key)?)?;
        }
        Ok(())
    }

    /// Whether the transaction sees a record with the key.
    fn has_key(
        &self,
        alloc: Global,
        name: &Atom,
        table: &RamTable,
        key: &Term,
    ) -> Result<bool, AllocError>
        ensures { IfOk result (λ found. found
            ≡ are_some (records_of (tree_of key.now) (seen name.now self.now table.now))) }
    {
        if self.places.at(name, key).is_empty() {
            table.order_law();
            return Ok(are_some(table.read(key)));
        }
        let rows = self.read(alloc, name, table, key)?;
        Ok(are_some(rows.as_slice()))
    }

    /// The records in the table of this name that match the pattern, as the transaction sees them, in order.
    pub fn match_object(
        &self,
        alloc: Global,
        name: &Atom,
        table: &RamTable,
        pattern: &Term,
    ) -> Result<Items<Term>, AllocError>
        ensures { IfOk result (λ rows. map tree_of rows
            ≡ filter (is_match (tree_of pattern.now)) (seen name.now self.now table.now)) }
    {
        bound_key_law();
        match bound_key(pattern) {
            Some(key) => self.match_of_key(alloc, name, table, key, pattern),
            None => self.match_all(alloc, name, table, pattern),
        }
    }

    /// The records of one key that match the pattern.
    fn match_of_key(
        &self,
        alloc: Global,
        name: &Atom,
        table: &RamTable,
        key: &Term,
        pattern: &Term,
    ) -> Result<Items<Term>, AllocError>
        ensures { IfOk result (λ rows. map tree_of rows ≡ filter (is_match (tree_of pattern.now))
            (records_of (tree_of key.now) (seen name.now self.now table.now))) }
    {
        let mut found = Items::new(alloc);
        self.add_matches(alloc, name, table, key, pattern, &mut found)?;
        Ok(found)
    }

    /// The records of all keys that match the pattern.
    fn match_all(
        &self,
        alloc: Global,
        name: &Atom,
        table: &RamTable,
        pattern: &Term,
    ) -> Result<Items<Term>, AllocError>
        ensures { IfOk result (λ rows. map tree_of rows
            ≡ filter (is_match (tree_of pattern.now)) (seen name.now self.now table.now)) }
    {
        table.order_law();
        table.key_law();
        let own = self.places.of_table(name);
        let mut found = Items::new(alloc);
        let mut last = None;
        while let Some(key) = next_key(own, table, last) {
            self.add_matches(alloc, name, table, key, pattern, &mut found)?;
            last = Some(key);
        }
        Ok(found)
    }

    /// Adds the records of the key that match the pattern.
    fn add_matches(
        &self,
        alloc: Global,
        name: &Atom,
        table: &RamTable,
        key: &Term,
        pattern: &Term,
        found: &mut Items<Term>,
    ) -> Result<(), AllocError>
        ensures { OnOk result (map tree_of found.new ≡ map tree_of found.old
            ++ filter (is_match (tree_of pattern.now))
            (records_of (tree_of key.now) (seen name.now self.now table.now))) }
    {
        if self.places.at(name, key).is_empty() {
            table.order_law();
            return add_matching(alloc, pattern, table.read(key), found);
        }
        let rows = self.read(alloc, name, table, key)?;
        add_matching(alloc, pattern, rows.as_slice(), found)
    }

    /// The ops, the first to be done first.
    pub fn ops(&self) -> &Ops
        ensures { result.now ≡ self.now }
    {
        &self.ops
    }
}

/// Notes where the op stands.
fn note_at(alloc: Global, places: &mut Places, ops: &[Op], place: usize) -> Result<(), AllocError>
    requires within { place < length ops.now }
    requires keyed { IfSome (slice_get ops.now place) HasKey }
    ensures ok { OnOk result (IfSome (slice_get ops.now place) (λ op. IsOpNoted places.old places.new op place)) }
    ensures err { OnErr result (AreAlike places.old places.new) }
{
    places.note(alloc, &ops[place], place)
}

/// Removes the last op.
fn remove_last(ops: &mut Ops)
    ensures { (others : List Op) (last : Op) → ops.old ≡ others ++ last ∷ [] → ops.new ≡ others }
{
    drop(ops.pop());
}

/// Whether there are any.
fn are_some(rows: &[Term]) -> bool
    ensures { result ≡ are_some (map tree_of rows.now) }
{
    match rows {
        [] => false,
        [_, ..] => true,
    }
}

/// Adds copies of the records that match the pattern.
fn add_matching(
    alloc: Global,
    pattern: &Term,
    rows: &[Term],
    found: &mut Items<Term>,
) -> Result<(), AllocError>
    ensures { OnOk result (map tree_of found.new
        ≡ map tree_of found.old ++ filter (is_match (tree_of pattern.now)) (map tree_of rows.now)) }
{
    for row in rows {
        add_match(alloc, pattern, row, found)?;
    }
    Ok(())
}

/// Adds a copy of the record where it matches the pattern.
fn add_match(
    alloc: Global,
    pattern: &Term,
    row: &Term,
    found: &mut Items<Term>,
) -> Result<(), AllocError>
    ensures { OnOk result (map tree_of found.new
        ≡ map tree_of found.old ++ filter (is_match (tree_of pattern.now)) (tree_of row.now ∷ [])) }
{
    if matches(alloc, pattern, row)? {
        found.push(copied_term(alloc, row)?)?;
    }
    Ok(())
}
