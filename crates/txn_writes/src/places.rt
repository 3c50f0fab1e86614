//! Places by table and key.

ghost use Rattle.std.specs.Prelude.{◌≡◌, ℕ, List, [], false, is_some, OnOk, OnErr};
ghost use Rattle.std.specs.Option.{option_map, option_copied};
ghost use Rattle.term_core.specs.Tree.{Tree};
ghost use Rattle.term_core.specs.View.{tree_of};
ghost use Rattle.db_model.specs.Ops.{table_of};
ghost use Rattle.db_model.specs.View.{operation};
ghost use Rattle.txn_writes.specs.Seen.{key_changed};
ghost use Rattle.txn_writes.specs.Places.{table_there, places_at, AreAlike, IsNoted, IsOpNoted, HasKey};

use crate::copies::copied_atom;
use crate::key_places::KeyPlaces;
use db_model::Op;
use std::alloc::{AllocError, Global};
use std::collections::BTreeMap;
use term_core::{Atom, Term};

/// Where the ops on each key of each table stand, in order.
#[derive(Drop)]
pub struct Places {
    tables: BTreeMap<Atom, KeyPlaces>,
}

impl Places {
    pub fn new(alloc: Global) -> Places
        ensures places { (name : List ℕ) (key : Tree) → places_at name key result ≡ [] }
        ensures tables { (name : List ℕ) → is_some (table_there name result) ≡ false }
    {
        Places {
            tables: BTreeMap::new(alloc),
        }
    }

    /// The places of a table's keys.
    pub fn of_table(&self, name: &Atom) -> Option<&KeyPlaces>
        ensures { option_copied result ≡ table_there name.now self.now }
    {
        self.tables.get(name)
    }

    /// Where the ops on the key of the table stand.
    pub fn at(&self, name: &Atom, key: &Term) -> &[usize]
        ensures { result.now ≡ places_at name.now (tree_of key.now) self.now }
    {
        match self.of_table(name) {
            Some(places) => places.at(key),
            None => &[],
        }
    }

    /// Adds a place of the table's key.
    fn push(
        &mut self,
        alloc: Global,
        name: &Atom,
        key: &Term,
        place: usize,
    ) -> Result<(), AllocError>
        ensures ok { OnOk result (IsNoted self.old self.new name.now (tree_of key.now) place) }
        ensures err { OnErr result (AreAlike self.old self.new) }
    {
        match self.tables.get_mut(name) {
            Some(places) => places.push(alloc, key, place),
            None => self.begin(alloc, name, key, place),
        }
    }

    /// Adds a table with the first place of the key.
    fn begin(
        &mut self,
        alloc: Global,
        name: &Atom,
        key: &Term,
        place: usize,
    ) -> Result<(), AllocError>
        requires absent { is_some (table_there name.now self.old) ≡ false }
        ensures ok { OnOk result (IsNoted self.old self.new name.now (tree_of key.now) place) }
        ensures err { OnErr result (AreAlike self.old self.new) }
    {
        let mut places = KeyPlaces::new(alloc);
        places.push(alloc, key, place)?;
        self.tables.insert(copied_atom(alloc, name)?, places)?;
        Ok(())
    }

    /// Adds the place of an op.
    pub fn note(&mut self, alloc: Global, op: &Op, place: usize) -> Result<(), AllocError>
        requires keyed { HasKey op.now }
        ensures ok { OnOk result (IsOpNoted self.old self.new op.now place) }
        ensures err { OnErr result (AreAlike self.old self.new) }
    {
        match key_changed(op) {
            Some(key) => self.push(alloc, name_of(op), key, place),
            None => Ok(()),
        }
    }
}

/// The name of the op's table.
fn name_of(op: &Op) -> &Atom
    ensures { result.now ≡ table_of (operation op.now) }
{
    match op {
        Op::Write(table, _) => table,
        Op::Delete(table, _) => table,
        Op::DeleteObject(table, _) => table,
        Op::Clear(table) => table,
    }
}

/// The one key whose records the op changes.
fn key_changed(op: &Op) -> Option<&Term>
    ensures { option_map tree_of (option_copied result) ≡ key_changed (operation op.now) }
{
    match op {
        Op::Write(_, row) => row.key(),
        Op::Delete(_, key) => Some(key),
        Op::DeleteObject(_, row) => row.key(),
        Op::Clear(_) => None,
    }
}
