//! Terms: what they are, their keys and their copies.

ghost use Rattle.std.specs.Prelude.{◌≡◌, IfOk, IfErr};
ghost use Rattle.std.specs.Option.{option_map, option_copied};
ghost use Rattle.term_core.specs.Tree.{key_of};
ghost use Rattle.term_core.specs.View.{tree_of};

use crate::atom::Atom;
use crate::error::TermErr;
use sqlite_items::Items;
use std::alloc::Global;

/// A term. Contracts see its atoms, elements and bytes as lists, and the whole by `tree_of` as a tree.
///
/// Terms are in the order of `tree_cmp`: integers, atoms, tuples, lists, binaries. Integers go by value,
/// atoms by their characters, tuples by size and then element by element, lists element by element and
/// binaries byte by byte, where a proper prefix is less.
#[derive(Drop)]
pub enum Term {
    Int(i128),
    Atom(Atom),
    Tuple(Items<Term>),
    List(Items<Term>),
    Bin(Items<u8>),
}

// A database keeps many terms, so none is bigger than a number of 128 bits and a tag.
const _: () = prove!(size_of::<Term>() == 32);

impl Term {
    /// The second element of a tuple that has one.
    pub fn key(&self) -> Option<&Term>
        ensures { option_map tree_of (option_copied result) ≡ key_of (tree_of self.now) }
    {
        match self {
            Term::Tuple(items) => items.get(1),
            Term::Int(_) | Term::Atom(_) | Term::List(_) | Term::Bin(_) => None,
        }
    }

    /// A term that equals this one.
    pub fn try_clone(&self, alloc: Global) -> Result<Term, TermErr>
        ensures same { IfOk result (λ term. term ≡ self.now) }
        ensures only_memory { IfErr result (λ error. error ≡ TermErr.Memory) }
    {
        copy(alloc, self)
    }
}

#[cycle(copy)]
fn copy(alloc: Global, term: &Term) -> Result<Term, TermErr>
    ensures same { IfOk result (λ copied. copied ≡ term.now) }
    ensures only_memory { IfErr result (λ error. error ≡ TermErr.Memory) }
{
    match term {
        Term::Int(number) => Ok(Term::Int(*number)),
        Term::Atom(atom) => Ok(Term::Atom(atom.try_clone(alloc)?)),
        Term::Tuple(items) => Ok(Term::Tuple(copy_all(alloc, items)?)),
        Term::List(items) => Ok(Term::List(copy_all(alloc, items)?)),
        Term::Bin(bytes) => Ok(Term::Bin(Items::from_slice(alloc, bytes.as_slice())?)),
    }
}

#[cycle(copy)]
fn copy_all(alloc: Global, items: &Items<Term>) -> Result<Items<Term>, TermErr>
    ensures same { IfOk result (λ copies. copies ≡ items.now) }
    ensures only_memory { IfErr result (λ error. error ≡ TermErr.Memory) }
{
    let items = items.as_slice();
    let mut copies = Vec::with_capacity(alloc, items.len())?;
    for item in items {
        copies.push_reserved(copy(alloc, item)?);
    }
    Ok(Items::from_vec(copies))
}
