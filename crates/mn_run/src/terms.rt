//! Terms that are made.

ghost use Rattle.std.specs.Prelude.{◌≡◌, pos, IfOk};
ghost use Rattle.term_core.specs.Tree as trees;
ghost use Rattle.term_core.specs.View.{tree_of};

use std::alloc::{AllocError, Global};
use term_core::{Atom, Term};

/// The atom of a text. The texts that are given are of at most 255 characters, so that only memory may be wanting.
pub fn atom(alloc: Global, text: &str) -> Result<Term, AllocError>
    ensures { IfOk result (λ term. tree_of term ≡ trees.atom text.now) }
{
    match Atom::new(alloc, text) {
        Ok(atom) => Ok(Term::Atom(atom)),
        Err(_) => Err(AllocError),
    }
}

/// The atom of a name.
pub fn named(alloc: Global, name: &Atom) -> Result<Term, AllocError>
    ensures { IfOk result (λ term. tree_of term ≡ trees.atom name.now) }
{
    match name.try_clone(alloc) {
        Ok(copy) => Ok(Term::Atom(copy)),
        Err(_) => Err(AllocError),
    }
}

/// The term of a count.
pub fn number(count: u64) -> Term
    ensures { tree_of result ≡ trees.int (pos count) }
{
    Term::Int(count as i128)
}

/// A term that equals this one.
pub fn copied(alloc: Global, term: &Term) -> Result<Term, AllocError>
    ensures { IfOk result (λ copy. copy ≡ term.now) }
{
    term.try_clone(alloc).map_err(|_| AllocError)
}
