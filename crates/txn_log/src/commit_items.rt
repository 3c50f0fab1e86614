//! Commits as the items of a log.

ghost use Rattle.std.specs.Prelude.{◌≡◌, ◌⊎◌, ◌↔◌, ◌<◌, ◌≤◌, ◌^◌, ℕ, pos, length, map, IsTrue, IfOk, IfErr, IsErrOf, None, MatchOption};
ghost use Rattle.term_core.specs.Tree as trees;
ghost use Rattle.term_core.specs.Tree.{Trees, depth};
ghost use Rattle.term_core.specs.View.{tree_of, forest_of};
ghost use Rattle.db_model.specs.View.{operation, schema_operation, commit_record};
ghost use Rattle.db_model.specs.Commits.{CommitRecord};
ghost use Rattle.txn_log.specs.Commits as commits;

use crate::commit_text::commit_text;
use db_model::{Commit, Ops, SchemaOps, op_of_term, schema_op_of_term};
use disk_logs::LogErr;
use log_items::{ItemErr, put_item};
use std::alloc::{AllocError, Global};
use std::marker::Model;
use term_core::Term;
use term_wire::{WireErr, decode};

/// What stands in front of an item's content.
const HEADER_BYTES: usize = 16;

/// A whole item of a log whose content is a commit's text.
#[derive(Drop)]
pub struct CommitItem {
    bytes: Vec<u8>,
}

impl Model for CommitItem {
    ghost use Rattle.std.specs.Prelude.{List, ℕ};
    ghost use Rattle.db_model.specs.Commits.{CommitRecord};
    ghost use Rattle.txn_log.specs.Commits.{IsItemOf};

    ghost Value = { List ℕ };

    ghost view = { λ item. item.bytes.items };

    ghost invariant = { λ item. (commit : CommitRecord) × IsItemOf commit item.bytes.items };
}

impl CommitItem {
    /// The item's bytes.
    pub fn bytes(&self) -> &[u8]
        ensures value { result.now ≡ self.now }
        ensures item { (commit : CommitRecord) × commits.IsItemOf commit self.now }
    {
        &self.bytes
    }
}

/// The item of a commit: `{commit,Version,SchemaOps,Ops}`. It is `TooLong` exactly where its text has more than 2^28
/// bytes, and its only other refusal is want of memory.
pub fn encode_commit(alloc: Global, commit: &Commit) -> Result<CommitItem, LogErr>
    requires logged { commits.IsLogged (commit_record commit.now) }
    requires levels { depth (commits.commit_tree (commit_record commit.now)) ≤ 128 }
    ensures item { IfOk result (commits.IsItemOf (commit_record commit.now)) }
    ensures long { IsErrOf result LogErr.TooLong → 2 ^ 28 < length (commits.commit_text (commit_record commit.now)) }
    ensures only { IfErr result (λ error. (error ≡ LogErr.TooLong) ⊎ (error ≡ LogErr.Memory)) }
{
    let text = commit_text(alloc, commit)?;
    let mut bytes = Vec::with_capacity(alloc, HEADER_BYTES + text.len())?;
    match put_item(&text, &mut bytes) {
        Ok(()) => Ok(CommitItem { bytes }),
        Err(ItemErr::Memory) => Err(LogErr::Memory),
        Err(ItemErr::TooLong) | Err(ItemErr::Bad(_)) => unreachable!(),
    }
}

/// The commit that an item's content is a text of, where the options of a definition may come in any order. A content
/// that is no text of a commit is none.
pub fn decode_commit(alloc: Global, item: &[u8]) -> Result<Option<Commit>, AllocError>
    ensures { IfOk result (λ found. MatchOption found (commits.IsNoCommit item.now) (λ commit. commits.IsCommit item.now (commit_record commit))) }
{
    match decode(alloc, item) {
        Ok(term) => commit_of_term(alloc, &term),
        Err(error) => without_commit(error),
    }
}

/// A content that cannot be read is no text, but want of memory tells nothing.
fn without_commit(error: WireErr) -> Result<Option<Commit>, AllocError>
    ensures { IfOk result (λ found. (found ≡ None) × (error ≡ WireErr.Memory → ⊥)) }
{
    match error {
        WireErr::Memory => Err(AllocError),
        WireErr::Bad(_) | WireErr::Outside(_, _) | WireErr::WideInt(_) | WireErr::TooDeep(_) => {
            Ok(None)
        }
    }
}

/// The commit that has this term.
fn commit_of_term(alloc: Global, term: &Term) -> Result<Option<Commit>, AllocError>
    ensures { IfOk result (λ found. MatchOption found (commits.HasNoCommit (tree_of term.now))
        (λ commit. commits.HasCommit (tree_of term.now) (commit_record commit))) }
{
    match fields_of(term) {
        Some((version, schema_ops, ops)) => commit_of_fields(alloc, version, schema_ops, ops),
        None => Ok(None),
    }
}

/// The commit of this version that has these terms of schema ops and of ops.
fn commit_of_fields(
    alloc: Global,
    version: u64,
    schema_terms: &[Term],
    terms: &[Term],
) -> Result<Option<Commit>, AllocError>
    ensures { IfOk result (λ found. MatchOption found
        (commits.HasNoCommit (commits.commit_shape version (forest_of schema_terms.now) (forest_of terms.now)))
        (λ commit. commits.HasCommit (commits.commit_shape version (forest_of schema_terms.now) (forest_of terms.now))
        (commit_record commit))) }
{
    let Some(schema_ops) = schema_ops_of_terms(alloc, schema_terms)? else {
        return Ok(None);
    };
    match ops_of_terms(alloc, terms)? {
        Some(ops) => Ok(Some(Commit {
            version,
            schema_ops,
            ops,
        })),
        None => Ok(None),
    }
}

/// The version and the two lists of a term `{commit,Version,SchemaOps,Ops}`.
fn fields_of(term: &Term) -> Option<(u64, &[Term], &[Term])>
    ensures { MatchOption result (commits.HasNoFields (tree_of term.now)) (λ fields. tree_of term.now
        ≡ commits.commit_shape fields.0 (forest_of fields.1.now) (forest_of fields.2.now)) }
{
    let Term::Tuple(parts) = term else {
        return None;
    };
    match parts.as_slice() {
        [word, version, schema_ops, ops] => fields_of_parts(word, version, schema_ops, ops),
        _ => None,
    }
}

fn fields_of_parts<'a>(
    word: &Term,
    version: &Term,
    schema_ops: &'a Term,
    ops: &'a Term,
) -> Option<(u64, &'a [Term], &'a [Term])>
    ensures { MatchOption result
        (commits.HasNoFields (commits.tuple_of (tree_of word.now) (tree_of version.now) (tree_of schema_ops.now)
        (tree_of ops.now)))
        (λ fields. commits.tuple_of (tree_of word.now) (tree_of version.now) (tree_of schema_ops.now) (tree_of ops.now)
        ≡ commits.commit_shape fields.0 (forest_of fields.1.now) (forest_of fields.2.now)) }
{
    if !is_commit_word(word) {
        return None;
    }
    Some((
        version_of(version)?,
        elements_of(schema_ops)?,
        elements_of(ops)?,
    ))
}

fn is_commit_word(term: &Term) -> bool
    ensures { IsTrue result ↔ (tree_of term.now ≡ commits.commit_word) }
{
    match term {
        Term::Atom(atom) => atom.text() == "commit",
        Term::Int(_) | Term::Tuple(_) | Term::List(_) | Term::Bin(_) => false,
    }
}

/// The number of a term, where it has 64 bits and no sign.
fn version_of(term: &Term) -> Option<u64>
    ensures { MatchOption result ((version : ℕ) → version < 2 ^ 64 → tree_of term.now ≡ trees.int (pos version) → ⊥) (λ version. tree_of term.now ≡ trees.int (pos version)) }
{
    match term {
        Term::Int(number) => u64::try_from(*number).ok(),
        Term::Atom(_) | Term::Tuple(_) | Term::List(_) | Term::Bin(_) => None,
    }
}

fn elements_of(term: &Term) -> Option<&[Term]>
    ensures { MatchOption result ((elements : Trees) → tree_of term.now ≡ trees.list elements → ⊥) (λ elements. tree_of term.now ≡ trees.list (forest_of elements.now)) }
{
    match term {
        Term::List(elements) => Some(elements.as_slice()),
        Term::Int(_) | Term::Atom(_) | Term::Tuple(_) | Term::Bin(_) => None,
    }
}

/// The schema ops that have these terms. It is none where a term is that of no schema op.
fn schema_ops_of_terms(alloc: Global, terms: &[Term]) -> Result<Option<SchemaOps>, AllocError>
    ensures { IfOk result (λ found. MatchOption found (commits.AreNoSchemaOps (map tree_of terms.now))
        (λ ops. commits.AreSchemaOps (map tree_of terms.now) (map schema_operation ops))) }
{
    let mut ops = SchemaOps::new(alloc);
    for term in terms {
        let Some(op) = schema_op_of_term(alloc, term)? else {
            return Ok(None);
        };
        ops.push(op)?;
    }
    Ok(Some(ops))
}

/// The ops that have these terms. It is none where a term is that of no op.
fn ops_of_terms(alloc: Global, terms: &[Term]) -> Result<Option<Ops>, AllocError>
    ensures { IfOk result (λ found. MatchOption found (commits.AreNoOps (map tree_of terms.now)) (λ ops. commits.AreOps (map tree_of terms.now) (map operation ops))) }
{
    let mut ops = Ops::new(alloc);
    for term in terms {
        let Some(op) = op_of_term(alloc, term)? else {
            return Ok(None);
        };
        ops.push(op)?;
    }
    Ok(Some(ops))
}
