//! The locks for reading that one transaction holds on one table.

ghost use Rattle.std.specs.Prelude.{◌≡◌, ◌||◌, Some, Option, IfOk, OnOk, OnErr};
ghost use Rattle.std.specs.Option.{option_map, option_copied};
ghost use Rattle.term_core.specs.Tree.{Tree};
ghost use Rattle.term_core.specs.View.{tree_of};
ghost use Rattle.txn_core.specs.Locks.{meet};
ghost use Rattle.txn_core.specs.Held.{is_read, bars, Reads, BarAlike};

use std::alloc::Global;
use std::collections::BTreeSet;
use term_core::{Term, TermErr};

/// The locks for reading that one transaction holds on one table. It holds one at least.
#[derive(Drop)]
pub struct TableReads {
    /// All of the table is locked.
    whole: bool,
    /// The keys that are locked.
    keys: BTreeSet<Term>,
}

impl TableReads {
    /// One lock, of a key or of all of the table.
    pub fn new(alloc: Global, key: Option<&Term>) -> Result<TableReads, TermErr>
        ensures { IfOk result (λ reads. (asked : Option Tree)
            → bars reads asked ≡ meet asked (option_map tree_of (option_copied key.entry))) }
    {
        let mut reads = TableReads {
            whole: false,
            keys: BTreeSet::new(alloc),
        };
        reads.take(alloc, key)?;
        Ok(reads)
    }

    /// Whether a lock for writing, on a key or on all of the table, conflicts with one of these.
    pub fn bars(&self, key: Option<&Term>) -> bool
        ensures { result ≡ bars self.now (option_map tree_of (option_copied key.entry)) }
    {
        match key {
            Some(key) => self.whole || self.is_read(key),
            None => true,
        }
    }

    /// Locks a key, or all of the table.
    pub fn take(&mut self, alloc: Global, key: Option<&Term>) -> Result<(), TermErr>
        ensures ok { OnOk result (Reads self.old self.new (option_map tree_of (option_copied key.entry))) }
        ensures err { OnErr result (BarAlike self.old self.new) }
    {
        match key {
            Some(key) => self.take_key(alloc, key),
            None => {
                self.whole = true;
                Ok(())
            }
        }
    }

    /// Whether the key is locked by itself.
    fn is_read(&self, key: &Term) -> bool
        ensures { result ≡ is_read (tree_of key.now) self.now }
    {
        self.keys.contains(key)
    }

    /// Locks the key.
    fn take_key(&mut self, alloc: Global, key: &Term) -> Result<(), TermErr>
        ensures ok { OnOk result (Reads self.old self.new (Some (tree_of key.now))) }
        ensures err { OnErr result (BarAlike self.old self.new) }
    {
        if !self.is_read(key) {
            self.keys.insert(key.try_clone(alloc)?)?;
        }
        Ok(())
    }
}
