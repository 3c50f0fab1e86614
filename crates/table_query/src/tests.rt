//! Patterns and records by a table, and each public function once.

use crate::{matches, pattern_law};
use sqlite_items::Items;
use std::alloc::Global;
use std::test::Fail;
use term_core::{Atom, Term, TermErr};

fn atoms(alloc: Global, texts: &[&str]) -> Result<Items<Term>, TermErr> {
    let mut items = Items::new(alloc);
    for text in texts {
        items.push(Term::Atom(Atom::new(alloc, text)?))?;
    }
    Ok(items)
}

/// A tuple of these atoms and, behind them, the list of the same.
fn row(alloc: Global, texts: &[&str]) -> Result<Term, TermErr> {
    let mut items = atoms(alloc, texts)?;
    items.push(Term::List(atoms(alloc, texts)?))?;
    Ok(Term::Tuple(items))
}

/// The atoms of a pattern, those of a record, and whether they match.
const CASES: [(&[&str], &[&str], bool); 16] = [
    (&[], &[], true),
    (&[], &["a"], false),
    (&["a", "b"], &["a", "b"], true),
    (&["a", "b"], &["a", "c"], false),
    (&["_", "b"], &["a", "b"], true),
    (&["_"], &["a", "b"], false),
    (&["_", "_"], &["a"], false),
    (&["__"], &["a"], false),
    (&["$1", "$1"], &["a", "a"], true),
    (&["$1", "$1"], &["a", "b"], false),
    (&["$1", "$01"], &["a", "b"], true),
    (&["$1", "$2", "$1"], &["a", "b", "a"], true),
    (&["$90", "_", "$90"], &["_", "a", "_"], true),
    (&["$"], &["a"], false),
    (&["$1a"], &["a"], false),
    (&["$", "1", "$1a"], &["$", "1", "$1a"], true),
];

#[test]
fn patterns_and_records(rt: HostRuntime) -> Result<(), Fail> {
    for (pattern, record, expected) in CASES {
        let found = matches(
            rt.alloc(),
            &row(rt.alloc(), pattern)?,
            &row(rt.alloc(), record)?,
        )?;
        assert!(rt; found == expected);
    }
    pattern_law();
    Ok(())
}
