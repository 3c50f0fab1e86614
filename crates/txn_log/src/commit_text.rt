//! The text that is written of a commit, in Erlang's external term format.

ghost use Rattle.std.specs.Prelude.{◌≡◌, ◌⊎◌, ◌<◌, ◌≤◌, ◌^◌, pos, [], ◌∷◌, ◌++◌, length, map};
ghost use Rattle.std.specs.Prelude.{IfOk, OnOk, IfErr, IsErrOf};
ghost use Rattle.std.specs.Int.{w32, to_be_bytes};
ghost use Rattle.term_core.specs.Tree.{int, atom, list, depth};
ghost use Rattle.term_core.specs.View.{tree_of};
ghost use Rattle.term_core.specs.Written.{written, all_written, canon};
ghost use Rattle.term_core.specs.Kept.{IsKept, AreKept};
ghost use Rattle.log_items.specs.Items.{IsContent};
ghost use Rattle.db_model.specs.Ops.{op_tree};
ghost use Rattle.db_model.specs.View.{operation, schema_operation, commit_record};
ghost use Rattle.txn_log.specs.Commits as commits;

use db_model::{Commit, Op, SchemaOps, schema_op_term};
use disk_logs::LogErr;
use sqlite_items::Items;
use std::alloc::{AllocError, Global};
use term_core::{Atom, Term};
use term_wire::{EncodeErr, put_atom, put_term};

/// The bytes of the longest text.
const MOST_BYTES: usize = 1 << 28;

/// Room for the text of a commit with one small record, which then need not grow.
const USUAL_BYTES: usize = 256;

/// The tag of an empty list, which stands behind the elements of another list too.
const NIL: u8 = 106;

/// The tag of a list with elements.
const LIST: u8 = 108;

/// The text of a commit. It is `TooLong` exactly where it has more than 2^28 bytes, and its only other refusal is want
/// of memory.
pub fn commit_text(alloc: Global, commit: &Commit) -> Result<Vec<u8>, LogErr>
    requires logged { commits.IsLogged (commit_record commit.now) }
    requires levels { depth (commits.commit_tree (commit_record commit.now)) ≤ 128 }
    ensures text { IfOk result (λ text. text.items ≡ commits.commit_text (commit_record commit.now)) }
    ensures spells { OnOk result (commits.IsCommit (commits.commit_text (commit_record commit.now))
        (commit_record commit.now)) }
    ensures fits { OnOk result (IsContent (commits.commit_text (commit_record commit.now))) }
    ensures long { IsErrOf result LogErr.TooLong → 2 ^ 28 < length (commits.commit_text (commit_record commit.now)) }
    ensures only { IfErr result (λ error. (error ≡ LogErr.TooLong) ⊎ (error ≡ LogErr.Memory)) }
{
    let mut text = Vec::with_capacity(alloc, USUAL_BYTES)?;
    put_commit(alloc, commit, &mut text)?;
    if text.len() > MOST_BYTES {
        return Err(LogErr::TooLong);
    }
    Ok(text)
}

/// `{commit,Version,SchemaOps,Ops}` behind byte 131.
fn put_commit(alloc: Global, commit: &Commit, out: &mut Vec<u8>) -> Result<(), LogErr>
    ensures ok { OnOk result (out.new.items ≡ out.old.items ++ commits.commit_text (commit_record commit.now)) }
    ensures kept { OnOk result (IsKept (commits.commit_tree (commit_record commit.now))) }
    ensures long { IsErrOf result LogErr.TooLong → 2 ^ 28 < length (commits.commit_text (commit_record commit.now)) }
    ensures only { IfErr result (λ error. (error ≡ LogErr.TooLong) ⊎ (error ≡ LogErr.Memory)) }
{
    put_front(commit.version, out)?;
    put_schema_ops(alloc, &commit.schema_ops, out)?;
    put_ops(commit.ops.as_slice(), out)
}

/// All in front of the schema ops: byte 131, the tag of a tuple of four, the word and the version.
fn put_front(version: u64, out: &mut Vec<u8>) -> Result<(), LogErr>
    ensures ok { OnOk result (out.new.items ≡ out.old.items
        ++ ((131 ∷ 104 ∷ 4 ∷ written commits.commit_word) ++ written (int (pos version)))) }
    ensures kept { OnOk result (IsKept (int (pos version))) }
    ensures long { IsErrOf result LogErr.TooLong → 2 ^ 28 < length (canon (int (pos version))) }
    ensures only { IfErr result (λ error. (error ≡ LogErr.TooLong) ⊎ (error ≡ LogErr.Memory)) }
{
    out.extend_from_slice(b"\x83h\x04w\x06commit")?;
    put_part(&Term::Int(i128::from(version)), out)
}

/// The list of the terms of schema ops. Most commits have none, and build no term.
fn put_schema_ops(alloc: Global, ops: &SchemaOps, out: &mut Vec<u8>) -> Result<(), LogErr>
    ensures ok { OnOk result (out.new.items ≡ out.old.items
        ++ written (list (commits.schema_op_trees (map schema_operation ops.now)))) }
    ensures kept { OnOk result (AreKept (commits.schema_op_trees (map schema_operation ops.now))) }
    ensures long { IsErrOf result LogErr.TooLong
        → 2 ^ 28 ≤ length (written (list (commits.schema_op_trees (map schema_operation ops.now)))) }
    ensures only { IfErr result (λ error. (error ≡ LogErr.TooLong) ⊎ (error ≡ LogErr.Memory)) }
{
    if ops.is_empty() {
        out.extend_from_slice(&[NIL])?;
        return Ok(());
    }
    put_part(&schema_ops_term(alloc, ops)?, out)
}

/// `[SchemaOp,..]`
fn schema_ops_term(alloc: Global, ops: &SchemaOps) -> Result<Term, AllocError>
    ensures { IfOk result (λ term. tree_of term ≡ list (commits.schema_op_trees (map schema_operation ops.now))) }
{
    let mut terms = Items::new(alloc);
    for op in ops.as_slice() {
        terms.push(schema_op_term(alloc, op)?)?;
    }
    Ok(Term::List(terms))
}

/// The list of the terms of ops.
fn put_ops(ops: &[Op], out: &mut Vec<u8>) -> Result<(), LogErr>
    ensures ok { OnOk result (out.new.items ≡ out.old.items
        ++ written (list (commits.op_trees (map operation ops.now)))) }
    ensures kept { OnOk result (AreKept (commits.op_trees (map operation ops.now))) }
    ensures long { IsErrOf result LogErr.TooLong
        → 2 ^ 28 < length (written (list (commits.op_trees (map operation ops.now)))) }
    ensures only { IfErr result (λ error. (error ≡ LogErr.TooLong) ⊎ (error ≡ LogErr.Memory)) }
{
    if ops.is_empty() {
        out.extend_from_slice(&[NIL])?;
        return Ok(());
    }
    if ops.len() > MOST_BYTES {
        return Err(LogErr::TooLong);
    }
    put_some_ops(ops, out)
}

fn put_some_ops(ops: &[Op], out: &mut Vec<u8>) -> Result<(), LogErr>
    requires few { length ops.now < 2 ^ 32 }
    ensures ok { OnOk result (out.new.items ≡ out.old.items
        ++ (108 ∷ (to_be_bytes w32 (length ops.now)
        ++ (all_written (commits.op_trees (map operation ops.now)) ++ 106 ∷ [])))) }
    ensures kept { OnOk result (AreKept (commits.op_trees (map operation ops.now))) }
    ensures long { IsErrOf result LogErr.TooLong
        → 2 ^ 28 < length (all_written (commits.op_trees (map operation ops.now))) }
    ensures only { IfErr result (λ error. (error ≡ LogErr.TooLong) ⊎ (error ≡ LogErr.Memory)) }
{
    let [a, b, c, d] = (ops.len() as u32).to_be_bytes();
    out.extend_from_slice(&[LIST, a, b, c, d])?;
    put_each_op(ops, out)?;
    out.extend_from_slice(&[NIL])?;
    Ok(())
}

/// The terms of ops, one after another.
fn put_each_op(ops: &[Op], out: &mut Vec<u8>) -> Result<(), LogErr>
    ensures ok { OnOk result (out.new.items ≡ out.old.items ++ all_written (commits.op_trees (map operation ops.now))) }
    ensures kept { OnOk result (AreKept (commits.op_trees (map operation ops.now))) }
    ensures long { IsErrOf result LogErr.TooLong
        → 2 ^ 28 < length (all_written (commits.op_trees (map operation ops.now))) }
    ensures only { IfErr result (λ error. (error ≡ LogErr.TooLong) ⊎ (error ≡ LogErr.Memory)) }
{
    for op in ops {
        put_op(op, out)?;
    }
    Ok(())
}

/// `{write,Table,Row}`, `{delete,Table,Key}`, `{delete_object,Table,Row}` or `{clear,Table}`: the tag of a tuple and how
/// many elements it has, the tag of an atom and how many bytes it has, the word, and what is behind it.
fn put_op(op: &Op, out: &mut Vec<u8>) -> Result<(), LogErr>
    ensures ok { OnOk result (out.new.items ≡ out.old.items ++ written (op_tree (operation op.now))) }
    ensures kept { OnOk result (IsKept (op_tree (operation op.now))) }
    ensures long { IsErrOf result LogErr.TooLong → 2 ^ 28 < length (written (op_tree (operation op.now))) }
    ensures only { IfErr result (λ error. (error ≡ LogErr.TooLong) ⊎ (error ≡ LogErr.Memory)) }
{
    match op {
        Op::Write(table, row) => put_op_on_item(b"h\x03w\x05write", table, row, out),
        Op::Delete(table, key) => put_op_on_item(b"h\x03w\x06delete", table, key, out),
        Op::DeleteObject(table, row) => put_op_on_item(b"h\x03w\x0ddelete_object", table, row, out),
        Op::Clear(table) => put_op_on_table(b"h\x02w\x05clear", table, out),
    }
}

fn put_op_on_item(front: &[u8], table: &Atom, item: &Term, out: &mut Vec<u8>) -> Result<(), LogErr>
    ensures ok { OnOk result (out.new.items ≡ out.old.items
        ++ (front.now ++ (written (atom table.now) ++ written (tree_of item.now)))) }
    ensures kept { OnOk result (IsKept (atom table.now) × IsKept (tree_of item.now)) }
    ensures long { IsErrOf result LogErr.TooLong → 2 ^ 28 ≤ length (written (tree_of item.now)) }
    ensures only { IfErr result (λ error. (error ≡ LogErr.TooLong) ⊎ (error ≡ LogErr.Memory)) }
{
    put_op_on_table(front, table, out)?;
    put_part(item, out)
}

fn put_op_on_table(front: &[u8], table: &Atom, out: &mut Vec<u8>) -> Result<(), LogErr>
    ensures ok { OnOk result (out.new.items ≡ out.old.items ++ (front.now ++ written (atom table.now))) }
    ensures kept { OnOk result (IsKept (atom table.now)) }
    ensures only { IfErr result (λ error. error ≡ LogErr.Memory) }
{
    out.extend_from_slice(front)?;
    put_atom(table, out)?;
    Ok(())
}

/// What is written of a term, with a log's errors.
fn put_part(term: &Term, out: &mut Vec<u8>) -> Result<(), LogErr>
    ensures ok { OnOk result (out.new.items ≡ out.old.items ++ written (tree_of term.now)) }
    ensures kept { OnOk result (IsKept (tree_of term.now)) }
    ensures long { IsErrOf result LogErr.TooLong → 2 ^ 28 < length (canon (tree_of term.now)) }
    ensures only { IfErr result (λ error. (error ≡ LogErr.TooLong) ⊎ (error ≡ LogErr.Memory)) }
{
    match put_term(term, out) {
        Ok(()) => Ok(()),
        Err(EncodeErr::TooLong) => Err(LogErr::TooLong),
        Err(EncodeErr::Memory) => Err(LogErr::Memory),
        Err(EncodeErr::TooDeep) => unreachable!(),
    }
}
