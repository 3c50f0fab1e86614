//! Copies of terms.

ghost use Rattle.std.specs.Prelude.{◌≡◌, IfOk};

use std::alloc::{AllocError, Global};
use term_core::{Atom, Term};

/// A term that equals this one.
pub fn copied_term(alloc: Global, term: &Term) -> Result<Term, AllocError>
    ensures { IfOk result (λ copy. copy ≡ term.now) }
{
    term.try_clone(alloc).map_err(|_| AllocError)
}

/// An atom that equals this one.
pub fn copied_atom(alloc: Global, atom: &Atom) -> Result<Atom, AllocError>
    ensures { IfOk result (λ copy. copy ≡ atom.now) }
{
    atom.try_clone(alloc).map_err(|_| AllocError)
}

/// Copies of these terms.
pub fn copies(alloc: Global, terms: &[Term]) -> Result<Vec<Term>, AllocError>
    ensures { IfOk result (λ copies. copies.items ≡ terms.now) }
{
    let mut copies = Vec::new(alloc);
    for term in terms {
        copies.push(copied_term(alloc, term)?)?;
    }
    Ok(copies)
}
