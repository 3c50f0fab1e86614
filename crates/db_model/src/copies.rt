//! Copies of values.

ghost use Rattle.std.specs.Prelude.{◌≡◌, IfOk};

use sqlite_items::Items;
use std::alloc::{AllocError, Global};
use term_core::{Atom, Term};

/// A value that is copied where there is memory.
pub trait TryCopy: Drop {
    /// A value that equals this one.
    fn try_copy(&self, alloc: Global) -> Result<Self, AllocError>
        ensures { IfOk result (λ copy. copy ≡ self.now) };
}

impl TryCopy for Term {
    fn try_copy(&self, alloc: Global) -> Result<Term, AllocError> {
        copied_term(alloc, self)
    }
}

/// A list that equals this one.
pub fn copied<T: TryCopy>(alloc: Global, items: &Items<T>) -> Result<Items<T>, AllocError>
    ensures { IfOk result (λ copies. copies ≡ items.now) }
{
    let mut copies = Items::new(alloc);
    for item in items.as_slice() {
        copies.push(item.try_copy(alloc)?)?;
    }
    Ok(copies)
}

/// A term that equals this one.
pub fn copied_term(alloc: Global, term: &Term) -> Result<Term, AllocError>
    ensures { IfOk result (λ copy. copy ≡ term.now) }
{
    term.try_clone(alloc).map_err(|_| AllocError)
}

/// An atom that equals this one.
pub fn copied_atom(alloc: Global, atom: &Atom) -> Result<Atom, AllocError>
    ensures { IfOk result (λ copy. copy ≡ atom.now) }
{
    atom.try_clone(alloc).map_err(|_| AllocError)
}
