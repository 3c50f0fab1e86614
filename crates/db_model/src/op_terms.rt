//! The terms of ops.

ghost use Rattle.std.specs.Prelude.{◌≡◌, List, ℕ, IfOk, MatchOption};
ghost use Rattle.term_core.specs.Tree as trees;
ghost use Rattle.term_core.specs.Tree.{Trees, tree, no_trees};
ghost use Rattle.term_core.specs.View.{tree_of, forest_of};
ghost use Rattle.db_model.specs.Ops.{op_shape, op_tree, HasNoOp, IsOp, IsNoOp};
ghost use Rattle.db_model.specs.View.{operation};

use crate::copies::{copied_atom, copied_term};
use crate::name::is_table_name;
use crate::op::Op;
use sqlite_items::Items;
use std::alloc::{AllocError, Global};
use term_core::{Atom, Term};

/// The term of an op: `{write,Table,Row}`, `{delete,Table,Key}`, `{delete_object,Table,Row}` or `{clear,Table}`.
pub fn op_term(alloc: Global, op: &Op) -> Result<Term, AllocError>
    ensures { IfOk result (λ term. tree_of term ≡ op_tree (operation op.now)) }
{
    match op {
        Op::Write(table, row) => term_with_item(alloc, "write", table, row),
        Op::Delete(table, key) => term_with_item(alloc, "delete", table, key),
        Op::DeleteObject(table, row) => term_with_item(alloc, "delete_object", table, row),
        Op::Clear(table) => term_without_item(alloc, "clear", table),
    }
}

/// `{Word,Table,Item}`
pub fn term_with_item(
    alloc: Global,
    word: &str,
    table: &Atom,
    item: &Term,
) -> Result<Term, AllocError>
    ensures { IfOk result (λ term. tree_of term ≡ op_shape word.now table.now (tree (tree_of item.now) no_trees)) }
{
    let mut parts = Items::new(alloc);
    parts.push(word_term(alloc, word)?)?;
    parts.push(Term::Atom(copied_atom(alloc, table)?))?;
    parts.push(copied_term(alloc, item)?)?;
    Ok(Term::Tuple(parts))
}

/// `{Word,Table}`
pub fn term_without_item(alloc: Global, word: &str, table: &Atom) -> Result<Term, AllocError>
    ensures { IfOk result (λ term. tree_of term ≡ op_shape word.now table.now no_trees) }
{
    let mut parts = Items::new(alloc);
    parts.push(word_term(alloc, word)?)?;
    parts.push(Term::Atom(copied_atom(alloc, table)?))?;
    Ok(Term::Tuple(parts))
}

/// The atom of a word. The words that are given are of at most 255 characters, so that only memory may be wanting.
pub fn word_term(alloc: Global, word: &str) -> Result<Term, AllocError>
    ensures { IfOk result (λ term. tree_of term ≡ trees.atom word.now) }
{
    let atom = Atom::new(alloc, word).map_err(|_| AllocError)?;
    Ok(Term::Atom(atom))
}

/// The op that has this term. A term is that of no op where it is of another shape, or names what no table can be called.
pub fn op_of_term(alloc: Global, term: &Term) -> Result<Option<Op>, AllocError>
    ensures { IfOk result (λ found. MatchOption found (IsNoOp (tree_of term.now)) (λ op. IsOp (tree_of term.now) (operation op))) }
{
    let Some((word, table, rest)) = parts_of(term) else {
        return Ok(None);
    };
    if !is_table_name(table) {
        return Ok(None);
    }
    op_of_parts(alloc, word, table, rest)
}

/// The two atoms that a tuple begins with, and what is behind them.
pub fn parts_of(term: &Term) -> Option<(&Atom, &Atom, &[Term])>
    ensures { MatchOption result ((word table : List ℕ) (rest : Trees) → tree_of term.now ≡ op_shape word table rest → ⊥) (λ parts. tree_of term.now ≡ op_shape parts.0.now parts.1.now (forest_of parts.2.now)) }
{
    let Term::Tuple(parts) = term else {
        return None;
    };
    let (word, others) = front_atom(parts.as_slice())?;
    let (table, rest) = front_atom(others)?;
    Some((word, table, rest))
}

/// The atom that terms begin with, and the others.
pub fn front_atom(terms: &[Term]) -> Option<(&Atom, &[Term])>
    ensures { MatchOption result ((text : List ℕ) (others : Trees) → forest_of terms.now ≡ tree (trees.atom text) others → ⊥) (λ parts. forest_of terms.now ≡ tree (trees.atom parts.0.now) (forest_of parts.1.now)) }
{
    match terms {
        [Term::Atom(atom), others @ ..] => Some((atom, others)),
        _ => None,
    }
}

/// The op whose term begins with this word and this table and goes on so.
fn op_of_parts(
    alloc: Global,
    word: &Atom,
    table: &Atom,
    rest: &[Term],
) -> Result<Option<Op>, AllocError>
    ensures { IfOk result (λ found. MatchOption found (HasNoOp (op_shape word.now table.now (forest_of rest.now))) (λ op. op_shape word.now table.now (forest_of rest.now) ≡ op_tree (operation op))) }
{
    match rest {
        [] => op_without_item(alloc, word, table),
        [item] => op_with_item(alloc, word, table, item),
        _ => Ok(None),
    }
}

/// The op with the term `{Word,Table}`.
fn op_without_item(alloc: Global, word: &Atom, table: &Atom) -> Result<Option<Op>, AllocError>
    ensures { IfOk result (λ found. MatchOption found (HasNoOp (op_shape word.now table.now no_trees)) (λ op. op_shape word.now table.now no_trees ≡ op_tree (operation op))) }
{
    match word.text() {
        "clear" => Ok(Some(Op::Clear(copied_atom(alloc, table)?))),
        _ => Ok(None),
    }
}

/// The op with the term `{Word,Table,Item}`.
fn op_with_item(
    alloc: Global,
    word: &Atom,
    table: &Atom,
    item: &Term,
) -> Result<Option<Op>, AllocError>
    ensures { IfOk result (λ found. MatchOption found (HasNoOp (op_shape word.now table.now (tree (tree_of item.now) no_trees))) (λ op. op_shape word.now table.now (tree (tree_of item.now) no_trees) ≡ op_tree (operation op))) }
{
    let table = copied_atom(alloc, table)?;
    let item = copied_term(alloc, item)?;
    match word.text() {
        "write" => Ok(Some(Op::Write(table, item))),
        "delete" => Ok(Some(Op::Delete(table, item))),
        "delete_object" => Ok(Some(Op::DeleteObject(table, item))),
        _ => Ok(None),
    }
}
