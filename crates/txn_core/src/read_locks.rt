//! The locks for reading that one transaction holds.

ghost use Rattle.std.specs.Prelude.{◌≡◌, ℕ, false, List, Option, is_some, OnOk, OnErr};
ghost use Rattle.std.specs.Option.{option_map, option_copied};
ghost use Rattle.term_core.specs.Tree.{Tree};
ghost use Rattle.term_core.specs.View.{tree_of};
ghost use Rattle.txn_core.specs.Held.{reads_of, bars_in, ReadsIn, BarAlikeIn};

use crate::table_reads::TableReads;
use std::alloc::Global;
use std::collections::BTreeMap;
use term_core::{Atom, Term, TermErr};

/// The locks for reading that one transaction holds, by table.
#[derive(Drop)]
pub struct ReadLocks {
    tables: BTreeMap<Atom, TableReads>,
}

impl ReadLocks {
    /// No locks.
    pub fn new(alloc: Global) -> ReadLocks
        ensures { (table : List ℕ) (key : Option Tree) → bars_in result table key ≡ false }
    {
        ReadLocks {
            tables: BTreeMap::new(alloc),
        }
    }

    /// Whether a lock for writing, on a key or on all of a table, conflicts with one of these.
    pub fn bars(&self, table: &Atom, key: Option<&Term>) -> bool
        ensures { result ≡ bars_in self.now table.now (option_map tree_of (option_copied key.entry)) }
    {
        match self.tables.get(table) {
            Some(reads) => reads.bars(key),
            None => false,
        }
    }

    /// Locks a key, or all of a table.
    pub fn take(&mut self, alloc: Global, table: &Atom, key: Option<&Term>) -> Result<(), TermErr>
        ensures ok { OnOk result
            (ReadsIn self.old self.new table.now (option_map tree_of (option_copied key.entry))) }
        ensures err { OnErr result (BarAlikeIn self.old self.new) }
    {
        match self.tables.get_mut(table) {
            Some(reads) => reads.take(alloc, key),
            None => self.take_first(alloc, table, key),
        }
    }

    /// Takes the first lock of a table.
    fn take_first(&mut self, alloc: Global, table: &Atom, key: Option<&Term>) -> Result<(), TermErr>
        requires absent { is_some (reads_of table.now self.old) ≡ false }
        ensures ok { OnOk result
            (ReadsIn self.old self.new table.now (option_map tree_of (option_copied key.entry))) }
        ensures err { OnErr result (BarAlikeIn self.old self.new) }
    {
        let reads = TableReads::new(alloc, key)?;
        self.tables.insert(table.try_clone(alloc)?, reads)?;
        Ok(())
    }
}
