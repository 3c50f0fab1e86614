//! Terms that define tables.

ghost use Rattle.std.specs.Prelude.{◌≡◌, ◌<◌, ◌^◌, ℕ, List, pos, codes, IfOk, MatchOption, None};
ghost use Rattle.term_core.specs.Tree as trees;
ghost use Rattle.term_core.specs.Tree.{Tree, tree, no_trees};
ghost use Rattle.term_core.specs.View.{tree_of, forest_of};
ghost use Rattle.db_model.specs.Definitions.{Definition};
ghost use Rattle.db_model.specs.Options.{IsDefinedBy};
ghost use Rattle.db_model.specs.SchemaTerms.{defining_shape, Defines};
ghost use Rattle.db_model.specs.View.{definition};
ghost use Rattle.store_files.specs.Schema.{IsTable};

use crate::heads::{front_atom, number_of};
use crate::texts::term_of;
use db_model::{DefErr, TableDef, parse_options};
use std::alloc::{AllocError, Global};
use term_core::{Atom, Term};

/// The definition that a content says: a text of `{table,Table,Cookie,CreateList}`.
pub(crate) fn table_of(alloc: Global, content: &[u8]) -> Result<Option<TableDef>, AllocError>
    ensures { IfOk result (λ found. MatchOption found ((table : Definition) → IsTable content.now table → ⊥)
        (λ table. IsTable content.now (definition table))) }
{
    match term_of(alloc, content)? {
        Some(term) => table_of_term(alloc, &term),
        None => Ok(None),
    }
}

/// The definition that has this term.
fn table_of_term(alloc: Global, term: &Term) -> Result<Option<TableDef>, AllocError>
    ensures { IfOk result (λ found. MatchOption found
        ((table : Definition) → Defines (codes "table") (tree_of term.now) table → ⊥)
        (λ table. Defines (codes "table") (tree_of term.now) (definition table))) }
{
    match parts_of(term) {
        Some((table, cookie, options)) => table_of_parts(alloc, table, cookie, options),
        None => Ok(None),
    }
}

/// The name, the cookie and the options of a term `{table,Table,Cookie,CreateList}`.
fn parts_of(term: &Term) -> Option<(&Atom, u64, &Term)>
    ensures { MatchOption result ((table : List ℕ) (cookie : ℕ) (options : Tree) → cookie < 2 ^ 64
        → tree_of term.now ≡ defining_shape (codes "table") table cookie options → ⊥)
        (λ parts. (parts.1 < 2 ^ 64)
        × (tree_of term.now ≡ defining_shape (codes "table") parts.0.now parts.1 (tree_of parts.2.now))) }
{
    let Term::Tuple(parts) = term else {
        return None;
    };
    let (word, others) = front_atom(parts.as_slice())?;
    if word.text() != "table" {
        return None;
    }
    let (table, rest) = front_atom(others)?;
    let (cookie, options) = cookie_and_options(rest)?;
    Some((table, cookie, options))
}

/// A number of 64 bits and a term, where these are all.
fn cookie_and_options(terms: &[Term]) -> Option<(u64, &Term)>
    ensures { MatchOption result ((cookie : ℕ) (options : Tree) → cookie < 2 ^ 64
        → forest_of terms.now ≡ tree (trees.int (pos cookie)) (tree options no_trees) → ⊥)
        (λ parts. (parts.0 < 2 ^ 64)
        × (forest_of terms.now ≡ tree (trees.int (pos parts.0)) (tree (tree_of parts.1.now) no_trees))) }
{
    match terms {
        [cookie, options] => Some((number_of(cookie)?, options)),
        _ => None,
    }
}

/// The table of this name and this cookie that the options define.
fn table_of_parts(
    alloc: Global,
    table: &Atom,
    cookie: u64,
    options: &Term,
) -> Result<Option<TableDef>, AllocError>
    ensures { IfOk result (λ found. MatchOption found
        ((one : Definition) → one.name ≡ table.now → IsDefinedBy (tree_of options.now) one → ⊥)
        (λ def. (def.name ≡ table.now) × (def.cookie ≡ cookie) × IsDefinedBy (tree_of options.now) (definition def))) }
{
    match parse_options(alloc, table, options) {
        Ok(mut def) => {
            def.cookie = cookie;
            Ok(Some(def))
        }
        Err(error) => no_table(error),
    }
}

/// What is refused defines no table, but want of memory tells nothing.
fn no_table(error: DefErr) -> Result<Option<TableDef>, AllocError>
    ensures { IfOk result (λ found. (found ≡ None) × (error ≡ DefErr.Memory → ⊥)) }
{
    match error {
        DefErr::Memory => Err(AllocError),
        DefErr::BadName | DefErr::BadOption(_) => Ok(None),
    }
}
