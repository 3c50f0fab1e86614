//! Tables, and plans of what is done to them.

ghost use Rattle.std.specs.Prelude.{◌≡◌, ◌+◌, ◌<◌, ◌≤◌, [], ◌∷◌, ◌++◌, length, map, vec_len, vec_capacity};
ghost use Rattle.std.specs.Prelude.{IfOk, OnOk, OnErr, IfSome, IsSome};
ghost use Rattle.std.specs.List.{AllByRecursion};
ghost use Rattle.std.specs.Option.{option_map, option_copied};
ghost use Rattle.term_core.specs.Tree.{key_of};
ghost use Rattle.term_core.specs.View.{tree_of};
ghost use Rattle.db_model.specs.Database.{records_of, put_op};
ghost use Rattle.db_model.specs.View.{operation};
ghost use Rattle.ram_table.specs.Contents.{contents, put_ops, IsInOrder, IsKeyed, records_above, first_key, IsLeastKey};
ghost use Rattle.ram_table.specs.Plans.{planned, IsMadeFor};
ghost use Rattle.ram_table.specs.Inside.Pages.{joined, IsPaged, room_for};
ghost use Rattle.ram_table.specs.Inside.Steps.{done, all_done, HasRoom, HaveRoom};

use crate::page::Page;
use crate::pages::{delete_key, delete_row, key_above, key_from, put_row, read_rows};
use crate::step::{Put, Step, step_for};
use db_model::{Kind, Op, Ops};
use std::alloc::{AllocError, Global};
use std::marker::Model;
use std::mem;
use term_core::Term;

/// Handles of pages are made room for by so many.
const STRIDE: usize = 1024;

/// The records of a table, in the order of their keys, and those of one key in the order of terms. Contracts see the
/// kind and the records.
///
/// They lie in pages. A page has whole keys and at least one record, and one of more than 64 records has one key.
#[derive(Drop)]
pub struct RamTable {
    kind: Kind,
    pages: Vec<Page>,
    count: usize,
}

impl Model for RamTable {
    ghost use Rattle.std.specs.Prelude.{List, vec_capacity, refl};
    ghost use Rattle.std.specs.Coded.{code_by, coded×, coded_list};
    ghost use Rattle.term_core.specs.declared.term.Term.{Term};
    ghost use Rattle.term_core.specs.contracts.term.Term as term;
    ghost use Rattle.db_model.specs.declared.definition.Kind.{Kind};
    ghost use Rattle.db_model.specs.contracts.definition.Kind as kinds;
    ghost use Rattle.ram_table.specs.Contents.{TableRecords};

    ghost Value = { TableRecords };

    ghost coded = { code_by (Kind × List Term) (coded× kinds.the_row.coded (coded_list term.the_row.coded))
        (λ t. (t.kind, t.records)) (λ p. record { kind = p.0; records = p.1 }) (λ _. refl) };

    ghost use Rattle.ram_table.specs.Inside.Pages.{joined, IsTable};

    ghost view = { λ t. record { kind = t.kind; records = joined t.pages.items } };

    ghost invariant = { λ t. IsTable t.kind t.pages.items t.count (vec_capacity t.pages) };
}

impl RamTable {
    /// A table without records.
    pub fn new(alloc: Global, kind: Kind) -> RamTable
        ensures { result ≡ record { kind = kind; records = [] } }
    {
        RamTable {
            kind,
            pages: Vec::new(alloc),
            count: 0,
        }
    }

    /// The law of tables: their records are in the order of their keys.
    pub fn order_law(&self)
        ensures { IsInOrder (contents self.now) }
    {
        let _ = &self.pages;
    }

    /// The law of keys: each record has one.
    pub fn key_law(&self)
        ensures { AllByRecursion (λ row. IsSome (key_of row)) (contents self.now) }
    {
        let _ = &self.pages;
    }

    pub fn kind(&self) -> Kind
        ensures { result ≡ self.now.kind }
    {
        self.kind
    }

    /// How many records there are.
    pub fn count(&self) -> usize
        ensures { result ≡ length (contents self.now) }
    {
        self.count
    }

    /// The records with the key.
    pub fn read(&self, key: &Term) -> &[Term]
        ensures { map tree_of result.now ≡ records_of (tree_of key.now) (contents self.now) }
    {
        read_rows(&self.pages, key)
    }

    /// The least key above this one, or the least of all.
    pub fn next_key(&self, after: Option<&Term>) -> Option<&Term>
        ensures first { option_map tree_of (option_copied result)
            ≡ first_key (records_above (option_map tree_of (option_copied after.entry)) (contents self.now)) }
        ensures least { IsLeastKey (option_map tree_of (option_copied result))
            (records_above (option_map tree_of (option_copied after.entry)) (contents self.now)) }
    {
        match after {
            Some(key) => key_above(&self.pages, key),
            None => key_from(&self.pages, 0),
        }
    }
}

/// What is done to a table, with all memory that it may take.
#[derive(Drop)]
pub struct TablePlan {
    steps: Vec<Step>,
    list: Vec<Page>,
    count: usize,
}

impl Model for TablePlan {
    ghost use Rattle.std.specs.Prelude.{ℕ, List, length, vec_capacity, refl};
    ghost use Rattle.std.specs.Coded.{code_by, coded×, coded_list, coded_ℕ};
    ghost use Rattle.ram_table.specs.declared.step.Step.{Step};
    ghost use Rattle.ram_table.specs.contracts.step.Step as step;
    ghost use Rattle.ram_table.specs.Plans.{PlanSteps};

    ghost Value = { PlanSteps };

    ghost coded = { code_by (List Step × ℕ) (coded× (coded_list step.the_row.coded) coded_ℕ)
        (λ p. (p.steps, p.count)) (λ p. record { steps = p.0; count = p.1 }) (λ _. refl) };

    ghost use Rattle.ram_table.specs.Inside.Steps.{IsPlan};

    ghost view = { λ p. record { steps = p.steps.items; count = p.count } };

    ghost invariant = { λ p. IsPlan p.list.items p.count (length p.steps.items) (vec_capacity p.list) };
}

impl TablePlan {
    /// Adds the step, and room for the handle of the page that it may bring.
    fn push(&mut self, alloc: Global, step: Step) -> Result<(), AllocError>
        ensures ok { OnOk result (self.new ≡ record { steps = self.old.steps ++ step ∷ []; count = self.old.count }) }
        ensures err { OnErr result (self.new ≡ self.old) }
    {
        let most = self.count.checked_add(self.steps.len()).ok_or(AllocError)?;
        let room = room_for(most).ok_or(AllocError)?;
        let wanted = room_for(most.checked_add(1).ok_or(AllocError)?).ok_or(AllocError)?;
        if wanted > room {
            self.list = Vec::with_capacity(alloc, wanted)?;
        }
        self.steps.push(step)?;
        Ok(())
    }
}

impl RamTable {
    /// The plan to do nothing.
    pub fn no_plan(&self, alloc: Global) -> TablePlan
        ensures planned { planned self.now result ≡ contents self.now }
        ensures made_for { IsMadeFor self.now result }
    {
        TablePlan {
            steps: Vec::new(alloc),
            list: Vec::new(alloc),
            count: self.count,
        }
    }

    /// Plans the op behind what is planned.
    pub fn plan_op(&self, alloc: Global, plan: &mut TablePlan, op: &Op) -> Result<(), AllocError>
        requires made_for { IsMadeFor self.now plan.old }
        requires keyed { IsKeyed (operation op.now) }
        ensures planned { OnOk result (planned self.now plan.new
            ≡ put_op self.now.kind (operation op.now) (planned self.now plan.old)) }
        ensures made_for { IsMadeFor self.now plan.new }
        ensures err { OnErr result (plan.new ≡ plan.old) }
    {
        let step = step_for(alloc, &self.pages, self.kind, op, plan.steps.len())?;
        plan.push(alloc, step)
    }

    /// Plans the ops, the first of which is done first.
    pub fn plan(&self, alloc: Global, ops: &Ops) -> Result<TablePlan, AllocError>
        requires { AllByRecursion (λ op. IsKeyed (operation op)) ops.now }
        ensures planned { IfOk result (λ plan. planned self.now plan
            ≡ put_ops self.now.kind (map operation ops.now) (contents self.now)) }
        ensures made_for { IfOk result (IsMadeFor self.now) }
    {
        let mut plan = self.no_plan(alloc);
        for op in ops.as_slice() {
            self.plan_op(alloc, &mut plan, op)?;
        }
        Ok(plan)
    }

    /// Does what was planned for these records. Takes no memory.
    pub fn apply(&mut self, plan: TablePlan)
        requires { IsMadeFor self.old plan }
        ensures kind { self.new.kind ≡ self.old.kind }
        ensures planned { contents self.new ≡ planned self.old plan }
    {
        let TablePlan {
            steps,
            list,
            count: _,
        } = plan;
        adopt(&mut self.pages, list);
        self.count = do_steps(&mut self.pages, self.kind, self.count, steps);
    }
}

/// Room for the handles of all pages that so many records can be in.
fn room_for(count: usize) -> Option<usize>
    ensures { IfSome result (λ room. room ≡ room_for count) }
{
    (count.checked_add(STRIDE - 1)? / STRIDE).checked_mul(STRIDE)
}

/// Moves the handles to the list where that has more room.
fn adopt(pages: &mut Vec<Page>, mut list: Vec<Page>)
    requires { list.items ≡ [] }
    ensures same { pages.new.items ≡ pages.old.items }
    ensures own_room { vec_capacity pages.old ≤ vec_capacity pages.new }
    ensures room { vec_capacity list ≤ vec_capacity pages.new }
{
    if list.capacity() > pages.capacity() {
        let _ = list.append(pages);
        mem::swap(pages, &mut list);
    }
}

/// Does the steps one after another, and answers how many records there are then.
fn do_steps(pages: &mut Vec<Page>, kind: Kind, mut count: usize, mut steps: Vec<Step>) -> usize
    requires paged { IsPaged kind pages.old.items }
    requires made_for { HaveRoom kind (joined pages.old.items) steps.items }
    requires counted { count ≡ length (joined pages.old.items) }
    requires room { length (joined pages.old.items) + vec_len steps ≤ vec_capacity pages.old }
    ensures paged { IsPaged kind pages.new.items }
    ensures done { joined pages.new.items ≡ all_done kind (joined pages.old.items) steps.items }
    ensures counted { result ≡ length (joined pages.new.items) }
    ensures at_most { result ≤ count + vec_len steps }
    ensures capacity { vec_capacity pages.new ≡ vec_capacity pages.old }
{
    steps.reverse();
    while let Some(step) = steps.pop() {
        count = do_step(pages, kind, count, step);
    }
    count
}

/// Does the step, and answers how many records there are then.
fn do_step(pages: &mut Vec<Page>, kind: Kind, count: usize, step: Step) -> usize
    requires paged { IsPaged kind pages.old.items }
    requires roomy { HasRoom (joined pages.old.items) step }
    requires counted { count ≡ length (joined pages.old.items) }
    requires room { length (joined pages.old.items) < vec_capacity pages.old }
    ensures paged { IsPaged kind pages.new.items }
    ensures done { joined pages.new.items ≡ done kind (joined pages.old.items) step }
    ensures counted { result ≡ length (joined pages.new.items) }
    ensures at_most_one_more { result ≤ count + 1 }
    ensures capacity { vec_capacity pages.new ≡ vec_capacity pages.old }
{
    match step {
        Step::Write(put) => {
            let Put { row, spare } = put;
            if put_row(pages, kind, row, spare) {
                count + 1
            } else {
                count
            }
        }
        Step::Delete(key) => count - delete_key(pages, kind, &key),
        Step::DeleteObject(row) => {
            if delete_row(pages, kind, &row) {
                count - 1
            } else {
                count
            }
        }
        Step::Clear => {
            pages.clear();
            0
        }
    }
}
