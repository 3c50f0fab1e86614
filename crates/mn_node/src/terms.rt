//! Terms that are made.

ghost use Rattle.std.specs.Prelude.{◌≡◌, ℕ, pos, codes, map, [], IfOk, OnErr};
ghost use Rattle.term_core.specs.Tree as trees;
ghost use Rattle.term_core.specs.View.{tree_of};
ghost use Rattle.db_model.specs.Options.{option_shape};

use sqlite_items::Items;
use std::alloc::{AllocError, Global};
use term_core::{Atom, Term};

/// The atom of a text. The texts that are given are of at most 255 characters, so that only memory may be wanting.
pub fn atom(alloc: Global, text: &str) -> Result<Term, AllocError>
    ensures { IfOk result (λ term. tree_of term ≡ trees.atom text.now) }
{
    match Atom::new(alloc, text) {
        Ok(atom) => Ok(Term::Atom(atom)),
        Err(_) => Err(AllocError),
    }
}

/// A name that equals this one.
pub fn copied_name(alloc: Global, name: &Atom) -> Result<Atom, AllocError>
    ensures { IfOk result (λ copy. copy ≡ name.now) }
{
    name.try_clone(alloc).map_err(|_| AllocError)
}

/// The atom of a name.
pub fn named(alloc: Global, name: &Atom) -> Result<Term, AllocError>
    ensures { IfOk result (λ term. tree_of term ≡ trees.atom name.now) }
{
    Ok(Term::Atom(copied_name(alloc, name)?))
}

/// `{size,Count}`
pub fn size_option(alloc: Global, count: u64) -> Result<Term, AllocError>
    ensures { IfOk result (λ term. tree_of term ≡ option_shape (codes "size") (trees.int (pos count))) }
{
    let mut parts = Items::new(alloc);
    parts.push(atom(alloc, "size")?)?;
    parts.push(Term::Int(count as i128))?;
    Ok(Term::Tuple(parts))
}

/// Copies of these terms. Where there are none it takes no memory.
pub fn copies(alloc: Global, terms: &[Term]) -> Result<Items<Term>, AllocError>
    ensures some { OnErr result (map tree_of terms.now ≡ [] → ⊥) }
    ensures found { IfOk result (λ copies. map tree_of copies ≡ map tree_of terms.now) }
{
    let mut copies = Items::new(alloc);
    for term in terms {
        copies.push(copied(alloc, term)?)?;
    }
    Ok(copies)
}

/// A term that equals this one.
fn copied(alloc: Global, term: &Term) -> Result<Term, AllocError>
    ensures { IfOk result (λ copy. copy ≡ term.now) }
{
    term.try_clone(alloc).map_err(|_| AllocError)
}
