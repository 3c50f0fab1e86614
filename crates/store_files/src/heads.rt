//! The first items of the files.

ghost use Rattle.std.specs.Prelude.{◌≡◌, ◌<◌, ◌^◌, ℕ, pos, List, IfOk, MatchOption, codes};
ghost use Rattle.term_core.specs.Tree as trees;
ghost use Rattle.term_core.specs.Tree.{Trees, tree, no_trees};
ghost use Rattle.term_core.specs.View.{tree_of, forest_of};
ghost use Rattle.log_items.specs.Items.{IsContent};
ghost use Rattle.store_files.specs.Forms.{IsHead, head_tree};

use crate::texts::term_of;
use sqlite_items::Items;
use std::alloc::{AllocError, Global};
use term_core::{Atom, Term};
use term_wire::encode;

/// The content of the first item of `schema.DCD`: `{schema,Version}`.
pub fn schema_head(alloc: Global, version: u64) -> Result<Vec<u8>, AllocError>
    ensures head { IfOk result (λ text. IsHead (codes "schema") version text.items) }
    ensures fits { IfOk result (λ text. IsContent text.items) }
{
    head_text(alloc, "schema", version)
}

/// The content of the first item of `T.DCD`: `{dcd,Cookie}`.
pub fn dcd_head(alloc: Global, cookie: u64) -> Result<Vec<u8>, AllocError>
    ensures head { IfOk result (λ text. IsHead (codes "dcd") cookie text.items) }
    ensures fits { IfOk result (λ text. IsContent text.items) }
{
    head_text(alloc, "dcd", cookie)
}

/// The content of the first item of `T.DCL`: `{dcl,Cookie}`.
pub fn dcl_head(alloc: Global, cookie: u64) -> Result<Vec<u8>, AllocError>
    ensures head { IfOk result (λ text. IsHead (codes "dcl") cookie text.items) }
    ensures fits { IfOk result (λ text. IsContent text.items) }
{
    head_text(alloc, "dcl", cookie)
}

/// The number that the content of a first item with this word says.
pub(crate) fn head_number(
    alloc: Global,
    content: &[u8],
    word: &str,
) -> Result<Option<u64>, AllocError>
    ensures { IfOk result (λ found. MatchOption found ((number : ℕ) → IsHead word.now number content.now → ⊥)
        (λ number. IsHead word.now number content.now)) }
{
    match term_of(alloc, content)? {
        Some(term) => Ok(number_in(&term, word)),
        None => Ok(None),
    }
}

/// The number of a term `{Word,Number}`, where it has 64 bits and no sign.
fn number_in(term: &Term, word: &str) -> Option<u64>
    ensures { MatchOption result ((number : ℕ) → number < 2 ^ 64 → tree_of term.now ≡ head_tree word.now number → ⊥)
        (λ number. (number < 2 ^ 64) × (tree_of term.now ≡ head_tree word.now number)) }
{
    let Term::Tuple(parts) = term else {
        return None;
    };
    let (first, others) = front_atom(parts.as_slice())?;
    if first.text() == word {
        only_number(others)
    } else {
        None
    }
}

/// The atom that terms begin with, and the others.
pub(crate) fn front_atom(terms: &[Term]) -> Option<(&Atom, &[Term])>
    ensures { MatchOption result
        ((text : List ℕ) (others : Trees) → forest_of terms.now ≡ tree (trees.atom text) others → ⊥)
        (λ parts. forest_of terms.now ≡ tree (trees.atom parts.0.now) (forest_of parts.1.now)) }
{
    match terms {
        [Term::Atom(atom), others @ ..] => Some((atom, others)),
        _ => None,
    }
}

/// The number that is the only term, where it has 64 bits and no sign.
fn only_number(terms: &[Term]) -> Option<u64>
    ensures { MatchOption result
        ((number : ℕ) → number < 2 ^ 64 → forest_of terms.now ≡ tree (trees.int (pos number)) no_trees → ⊥)
        (λ number. (number < 2 ^ 64) × (forest_of terms.now ≡ tree (trees.int (pos number)) no_trees)) }
{
    match terms {
        [number] => number_of(number),
        _ => None,
    }
}

/// The number of a term, where it has 64 bits and no sign.
pub(crate) fn number_of(term: &Term) -> Option<u64>
    ensures { MatchOption result ((number : ℕ) → number < 2 ^ 64 → tree_of term.now ≡ trees.int (pos number) → ⊥)
        (λ number. (number < 2 ^ 64) × (tree_of term.now ≡ trees.int (pos number))) }
{
    match term {
        Term::Int(number) => u64::try_from(*number).ok(),
        Term::Atom(_) | Term::Tuple(_) | Term::List(_) | Term::Bin(_) => None,
    }
}

/// The text of `{Word,Number}`. The words that are given are short, so that only memory may be wanting.
fn head_text(alloc: Global, word: &str, number: u64) -> Result<Vec<u8>, AllocError>
    ensures head { IfOk result (λ text. IsHead word.now number text.items) }
    ensures fits { IfOk result (λ text. IsContent text.items) }
{
    let term = head_term(alloc, word, number)?;
    let mut text = Vec::new(alloc);
    match encode(&term, &mut text) {
        Ok(()) => Ok(text),
        Err(_) => Err(AllocError),
    }
}

/// `{Word,Number}`
fn head_term(alloc: Global, word: &str, number: u64) -> Result<Term, AllocError>
    ensures { IfOk result (λ term. tree_of term ≡ head_tree word.now number) }
{
    let mut parts = Items::new(alloc);
    parts.push(atom_term(alloc, word)?)?;
    parts.push(Term::Int(i128::from(number)))?;
    Ok(Term::Tuple(parts))
}

/// The atom of a word of at most 255 characters, so that only memory may be wanting.
pub(crate) fn atom_term(alloc: Global, word: &str) -> Result<Term, AllocError>
    ensures { IfOk result (λ term. tree_of term ≡ trees.atom word.now) }
{
    let atom = Atom::new(alloc, word).map_err(|_| AllocError)?;
    Ok(Term::Atom(atom))
}
