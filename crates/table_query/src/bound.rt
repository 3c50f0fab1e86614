//! The key that a pattern asks for.

ghost use Rattle.std.specs.Prelude.{◌≡◌, ◌↔◌, false, Some, IsTrue, MatchOption, ⊤};
ghost use Rattle.term_core.specs.Tree.{key_of};
ghost use Rattle.term_core.specs.View.{tree_of, forest_of};
ghost use Rattle.table_query.specs.Patterns.{is_wildcard, is_variable, AllAtomsOf, IsPlain};

use crate::atoms::{is_variable, is_wildcard};
use term_core::Term;

/// The pattern's key, where it has no wildcard and no variable. Only records with that key match then.
pub fn bound_key(pattern: &Term) -> Option<&Term>
    ensures { MatchOption result ⊤
        (λ key. (key_of (tree_of pattern.now) ≡ Some (tree_of key.now)) × IsPlain (tree_of key.now)) }
{
    let Term::Tuple(elements) = pattern else {
        return None;
    };
    match elements.as_slice() {
        [_, key, ..] => plain_key(key),
        _ => None,
    }
}

/// The key, where it is plain.
fn plain_key(key: &Term) -> Option<&Term>
    ensures { MatchOption result ⊤ (λ found. (found.now ≡ key.now) × IsPlain (tree_of key.now)) }
{
    if is_plain(key) { Some(key) } else { None }
}

/// Whether it has no wildcard and no variable.
#[cycle(plain)]
fn is_plain(term: &Term) -> bool
    ensures { IsTrue result ↔ IsPlain (tree_of term.now) }
{
    match term {
        Term::Atom(name) => !is_wildcard(name) && !is_variable(name),
        Term::Tuple(terms) => are_plain(terms.as_slice()),
        Term::List(terms) => are_plain(terms.as_slice()),
        Term::Int(_) | Term::Bin(_) => true,
    }
}

#[cycle(plain)]
fn are_plain(terms: &[Term]) -> bool
    ensures { IsTrue result ↔ AllAtomsOf (λ name. (is_wildcard name ≡ false) × (is_variable name ≡ false))
        (forest_of terms.now) }
{
    for term in terms {
        if !is_plain(term) {
            return false;
        }
    }
    true
}
