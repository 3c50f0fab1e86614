//! The steps of a plan, with the memory that they may need.

ghost use Rattle.std.specs.Prelude.{◌≡◌, ◌≤◌, ◌<◌, [], vec_capacity, IfOk, IfSome};
ghost use Rattle.term_core.specs.View.{tree_of};
ghost use Rattle.db_model.specs.View.{operation};
ghost use Rattle.ram_table.specs.Inside.Pages.{joined, IsSorted};
ghost use Rattle.ram_table.specs.Inside.Steps.{most_of_key, HasRoomBehind};
ghost use Rattle.ram_table.specs.Plans.{operation_of, unnamed};

use crate::page::Page;
use crate::pages::read_rows;
use crate::rows::key_of;
use db_model::{Kind, Op};
use std::alloc::{AllocError, Global};
use std::marker::Model;
use term_core::Term;

/// The least room of a list that a page is made of.
const LEAST_ROOM: usize = 65;

/// A record to be written, and a list without records that takes its place where its page is cut or full.
#[derive(Drop)]
pub struct Put {
    pub row: Term,
    pub spare: Vec<Term>,
}

impl Model for Put {
    ghost use Rattle.std.specs.Prelude.{ℕ, ◌≡◌, ◌≤◌, [], vec_capacity, refl};
    ghost use Rattle.std.specs.Coded.{code_by, coded×, coded_ℕ};
    ghost use Rattle.term_core.specs.declared.term.Term.{Term};
    ghost use Rattle.term_core.specs.contracts.term.Term as term;
    ghost use Rattle.ram_table.specs.Inside.Rows.{Written};

    ghost Value = { Written };

    ghost coded = { code_by (Term × ℕ) (coded× term.the_row.coded coded_ℕ) (λ p. (p.row, p.room))
        (λ p. record { row = p.0; room = p.1 }) (λ _. refl) };

    ghost view = { λ p. record { row = p.row; room = vec_capacity p.spare } };

    ghost invariant = { λ p. (p.spare.items ≡ []) × (65 ≤ vec_capacity p.spare) };
}

/// What is done to a table, without taking memory.
#[derive(Drop)]
pub enum Step {
    Write(Put),
    Delete(Term),
    DeleteObject(Term),
    Clear,
}

/// The step that does the op behind so many others.
pub fn step_for(
    alloc: Global,
    pages: &[Page],
    kind: Kind,
    op: &Op,
    earlier: usize,
) -> Result<Step, AllocError>
    requires { IsSorted pages.now }
    ensures op { IfOk result (λ step. operation_of step ≡ unnamed (operation op.now)) }
    ensures room { IfOk result (HasRoomBehind kind (joined pages.now) earlier) }
{
    match op {
        Op::Write(_, row) => {
            let most = most_of_key(pages, kind, key_of(row), earlier).ok_or(AllocError)?;
            let row = copied(alloc, row)?;
            Ok(Step::Write(Put {
                row,
                spare: list_for_more(alloc, most)?,
            }))
        }
        Op::Delete(_, key) => Ok(Step::Delete(copied(alloc, key)?)),
        Op::DeleteObject(_, row) => Ok(Step::DeleteObject(copied(alloc, row)?)),
        Op::Clear(_) => Ok(Step::Clear),
    }
}

/// How many records the key has at most after so many ops.
fn most_of_key(pages: &[Page], kind: Kind, key: &Term, ops: usize) -> Option<usize>
    requires { IsSorted pages.now }
    ensures { IfSome result (λ most. most ≡ most_of_key kind (tree_of key.now) (joined pages.now) ops) }
{
    match kind {
        Kind::Bag => read_rows(pages, key).len().checked_add(ops),
        Kind::Set | Kind::OrderedSet => Some(1),
    }
}

/// A list that becomes a page of more than so many records.
fn list_for_more(alloc: Global, count: usize) -> Result<Vec<Term>, AllocError>
    ensures empty { IfOk result (λ list. list.items ≡ []) }
    ensures wide { IfOk result (λ list. 65 ≤ vec_capacity list) }
    ensures room { IfOk result (λ list. count < vec_capacity list) }
{
    let room = count.checked_add(1).ok_or(AllocError)?;
    Vec::with_capacity(alloc, if room < LEAST_ROOM { LEAST_ROOM } else { room })
}

/// A term that equals this one.
fn copied(alloc: Global, term: &Term) -> Result<Term, AllocError>
    ensures { IfOk result (λ copy. copy ≡ term.now) }
{
    term.try_clone(alloc).map_err(|_| AllocError)
}
