//! Places by key.

ghost use Rattle.std.specs.Prelude.{◌≡◌, [], Some, None, OnOk, OnErr};
ghost use Rattle.std.specs.Option.{option_map, option_copied};
ghost use Rattle.term_core.specs.Tree.{Tree};
ghost use Rattle.term_core.specs.View.{tree_of};
ghost use Rattle.txn_writes.specs.Places.{key_places, AreKeysAlike, IsKeyNoted};
ghost use Rattle.txn_writes.specs.Walks.{IsNext, IsOneOf, own_keys};

use crate::copies::copied_term;
use sqlite_items::Items;
use std::alloc::{AllocError, Global};
use std::collections::BTreeMap;
use std::ops::Bound;
use term_core::Term;

/// Where the ops on each key of one table stand, in order.
#[derive(Drop)]
pub struct KeyPlaces {
    keys: BTreeMap<Term, Items<usize>>,
}

impl KeyPlaces {
    pub fn new(alloc: Global) -> KeyPlaces
        ensures { (key : Tree) → key_places key result ≡ [] }
    {
        KeyPlaces {
            keys: BTreeMap::new(alloc),
        }
    }

    /// Where the ops on the key stand.
    pub fn at(&self, key: &Term) -> &[usize]
        ensures { result.now ≡ key_places (tree_of key.now) self.now }
    {
        match self.keys.get(key) {
            Some(places) => places.as_slice(),
            None => &[],
        }
    }

    /// The least key above the last one, or the least of all.
    pub fn next_key(&self, last: Option<&Term>) -> Option<&Term>
        ensures next { IsNext (option_map tree_of (option_copied last.entry)) (own_keys (Some self.now))
            (option_map tree_of (option_copied result)) }
        ensures one_of { IsOneOf (own_keys (Some self.now)) (option_map tree_of (option_copied result)) }
    {
        match last {
            Some(key) => self.key_above(key),
            None => self.first_key(),
        }
    }

    fn first_key(&self) -> Option<&Term>
        ensures next { IsNext None (own_keys (Some self.now)) (option_map tree_of (option_copied result)) }
        ensures one_of { IsOneOf (own_keys (Some self.now)) (option_map tree_of (option_copied result)) }
    {
        match self.keys.iter().next() {
            Some((key, _)) => Some(key),
            None => None,
        }
    }

    fn key_above(&self, last: &Term) -> Option<&Term>
        ensures next { IsNext (Some (tree_of last.now)) (own_keys (Some self.now))
            (option_map tree_of (option_copied result)) }
        ensures one_of { IsOneOf (own_keys (Some self.now)) (option_map tree_of (option_copied result)) }
    {
        match self
            .keys
            .range((Bound::Excluded(last), Bound::Unbounded))
            .next()
        {
            Some((key, _)) => Some(key),
            None => None,
        }
    }

    /// Adds a place of the key, which is looked up once.
    pub fn push(&mut self, alloc: Global, key: &Term, place: usize) -> Result<(), AllocError>
        ensures ok { OnOk result (IsKeyNoted self.old self.new (tree_of key.now) place) }
        ensures err { OnErr result (AreKeysAlike self.old self.new) }
    {
        let entry = self.keys.entry(copied_term(alloc, key)?)?;
        entry.or_insert(Items::new(alloc)).push(place)
    }
}
