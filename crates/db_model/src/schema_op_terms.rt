//! The terms of schema ops.

ghost use Rattle.std.specs.Prelude.{◌≡◌, ℕ, pos, ◌<◌, ◌^◌, IfOk, None, MatchOption};
ghost use Rattle.term_core.specs.Tree as trees;
ghost use Rattle.term_core.specs.Tree.{no_trees, tree};
ghost use Rattle.term_core.specs.View.{tree_of, forest_of};
ghost use Rattle.db_model.specs.Definitions.{Definition};
ghost use Rattle.db_model.specs.Ops.{op_shape};
ghost use Rattle.db_model.specs.Options.{IsDefinedBy, create_tree};
ghost use Rattle.db_model.specs.SchemaTerms.{defining_shape, index_shape, schema_op_tree, IsSchemaOp, IsNoSchemaOp};
ghost use Rattle.db_model.specs.View.{definition, schema_operation};

use crate::commit::SchemaOp;
use crate::copies::copied_atom;
use crate::definition::TableDef;
use crate::error::DefErr;
use crate::name::is_table_name;
use crate::op_terms::{parts_of, term_with_item, term_without_item, word_term};
use crate::options::{create_list, parse_options};
use sqlite_items::Items;
use std::alloc::{AllocError, Global};
use term_core::{Atom, Term};

/// The term of a schema op: `{create,Table,Cookie,CreateList}`, `{drop,Table}`, `{add_index,Table,Position}`,
/// `{del_index,Table,Position}` or `{remake,Table,Cookie,CreateList}`.
pub fn schema_op_term(alloc: Global, op: &SchemaOp) -> Result<Term, AllocError>
    ensures { IfOk result (λ term. tree_of term ≡ schema_op_tree (schema_operation op.now)) }
{
    match op {
        SchemaOp::Create(def) => defining_term(alloc, "create", def),
        SchemaOp::DropTable(table) => term_without_item(alloc, "drop", table),
        SchemaOp::AddIndex(table, position) => index_term(alloc, "add_index", table, *position),
        SchemaOp::DelIndex(table, position) => index_term(alloc, "del_index", table, *position),
        SchemaOp::Remake(def) => defining_term(alloc, "remake", def),
    }
}

/// `{Word,Table,Cookie,CreateList}`
fn defining_term(alloc: Global, word: &str, def: &TableDef) -> Result<Term, AllocError>
    ensures { IfOk result (λ term. tree_of term ≡ defining_shape word.now def.now.name def.now.cookie
        (create_tree (definition def.now))) }
{
    let mut parts = Items::new(alloc);
    parts.push(word_term(alloc, word)?)?;
    parts.push(Term::Atom(copied_atom(alloc, &def.name)?))?;
    parts.push(Term::Int(i128::from(def.cookie)))?;
    parts.push(create_list(alloc, def)?)?;
    Ok(Term::Tuple(parts))
}

/// `{Word,Table,Position}`
fn index_term(alloc: Global, word: &str, table: &Atom, position: u32) -> Result<Term, AllocError>
    ensures { IfOk result (λ term. tree_of term ≡ index_shape word.now table.now position) }
{
    let position = Term::Int(i128::from(position));
    term_with_item(alloc, word, table, &position)
}

/// The schema op that has this term, where the list of options of a definition may be any that `parse_options` takes.
/// A term is that of no schema op where it is of another shape, names what no table can be called, has a cookie of
/// more than 64 bits or a position of more than 32, or its options are ill.
pub fn schema_op_of_term(alloc: Global, term: &Term) -> Result<Option<SchemaOp>, AllocError>
    ensures { IfOk result (λ found. MatchOption found (IsNoSchemaOp (tree_of term.now))
        (λ op. IsSchemaOp (tree_of term.now) (schema_operation op))) }
{
    match parts_of(term) {
        Some((word, table, rest)) => schema_op_of_parts(alloc, word, table, rest),
        None => Ok(None),
    }
}

/// The schema op whose term begins with this word and this table and goes on so.
fn schema_op_of_parts(
    alloc: Global,
    word: &Atom,
    table: &Atom,
    rest: &[Term],
) -> Result<Option<SchemaOp>, AllocError>
    ensures { IfOk result (λ found. MatchOption found (IsNoSchemaOp (op_shape word.now table.now (forest_of rest.now)))
        (λ op. IsSchemaOp (op_shape word.now table.now (forest_of rest.now)) (schema_operation op))) }
{
    match rest {
        [] => table_op_of(alloc, word, table),
        [position] => index_op_of(alloc, word, table, position),
        [cookie, options] => defining_op_of(alloc, word, table, cookie, options),
        _ => Ok(None),
    }
}

/// The schema op with the term `{Word,Table}`.
fn table_op_of(alloc: Global, word: &Atom, table: &Atom) -> Result<Option<SchemaOp>, AllocError>
    ensures { IfOk result (λ found. MatchOption found (IsNoSchemaOp (op_shape word.now table.now no_trees))
        (λ op. IsSchemaOp (op_shape word.now table.now no_trees) (schema_operation op))) }
{
    if !is_table_name(table) {
        return Ok(None);
    }
    match word.text() {
        "drop" => Ok(Some(SchemaOp::DropTable(copied_atom(alloc, table)?))),
        _ => Ok(None),
    }
}

/// The schema op with the term `{Word,Table,Position}`.
fn index_op_of(
    alloc: Global,
    word: &Atom,
    table: &Atom,
    position: &Term,
) -> Result<Option<SchemaOp>, AllocError>
    ensures { IfOk result (λ found. MatchOption found (IsNoSchemaOp
        (op_shape word.now table.now (tree (tree_of position.now) no_trees)))
        (λ op. IsSchemaOp (op_shape word.now table.now (tree (tree_of position.now) no_trees)) (schema_operation op))) }
{
    if !is_table_name(table) {
        return Ok(None);
    }
    let Some(position) = position_of(position) else {
        return Ok(None);
    };
    let table = copied_atom(alloc, table)?;
    match word.text() {
        "add_index" => Ok(Some(SchemaOp::AddIndex(table, position))),
        "del_index" => Ok(Some(SchemaOp::DelIndex(table, position))),
        _ => Ok(None),
    }
}

/// The schema op with the term `{Word,Table,Cookie,Options}`.
fn defining_op_of(
    alloc: Global,
    word: &Atom,
    table: &Atom,
    cookie: &Term,
    options: &Term,
) -> Result<Option<SchemaOp>, AllocError>
    ensures { IfOk result (λ found. MatchOption found (IsNoSchemaOp
        (op_shape word.now table.now (tree (tree_of cookie.now) (tree (tree_of options.now) no_trees))))
        (λ op. IsSchemaOp (op_shape word.now table.now (tree (tree_of cookie.now)
        (tree (tree_of options.now) no_trees))) (schema_operation op))) }
{
    let Some(cookie) = cookie_of(cookie) else {
        return Ok(None);
    };
    let Some(def) = definition_of(alloc, table, cookie, options)? else {
        return Ok(None);
    };
    match word.text() {
        "create" => Ok(Some(SchemaOp::Create(def))),
        "remake" => Ok(Some(SchemaOp::Remake(def))),
        _ => Ok(None),
    }
}

/// The table of this name and this cookie that the options define.
fn definition_of(
    alloc: Global,
    table: &Atom,
    cookie: u64,
    options: &Term,
) -> Result<Option<TableDef>, AllocError>
    ensures { IfOk result (λ found. MatchOption found
        ((one : Definition) → one.name ≡ table.now → IsDefinedBy (tree_of options.now) one → ⊥)
        (λ def. (def.name ≡ table.now) × (def.cookie ≡ cookie) × IsDefinedBy (tree_of options.now) (definition def))) }
{
    match parse_options(alloc, table, options) {
        Ok(mut def) => {
            def.cookie = cookie;
            Ok(Some(def))
        }
        Err(error) => without_definition(error),
    }
}

/// What is refused defines no table, but want of memory tells nothing.
fn without_definition(error: DefErr) -> Result<Option<TableDef>, AllocError>
    ensures { IfOk result (λ found. (found ≡ None) × (error ≡ DefErr.Memory → ⊥)) }
{
    match error {
        DefErr::Memory => Err(AllocError),
        DefErr::BadName | DefErr::BadOption(_) => Ok(None),
    }
}

/// The number of a term, where it has 32 bits and no sign.
fn position_of(term: &Term) -> Option<u32>
    ensures { MatchOption result ((position : ℕ) → position < 2 ^ 32 → tree_of term.now ≡ trees.int (pos position) → ⊥)
        (λ position. tree_of term.now ≡ trees.int (pos position)) }
{
    match term {
        Term::Int(number) => u32::try_from(*number).ok(),
        Term::Atom(_) | Term::Tuple(_) | Term::List(_) | Term::Bin(_) => None,
    }
}

/// The number of a term, where it has 64 bits and no sign.
fn cookie_of(term: &Term) -> Option<u64>
    ensures { MatchOption result ((cookie : ℕ) → cookie < 2 ^ 64 → tree_of term.now ≡ trees.int (pos cookie) → ⊥)
        (λ cookie. tree_of term.now ≡ trees.int (pos cookie)) }
{
    match term {
        Term::Int(number) => u64::try_from(*number).ok(),
        Term::Atom(_) | Term::Tuple(_) | Term::List(_) | Term::Bin(_) => None,
    }
}
