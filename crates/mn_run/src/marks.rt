//! The marks of a run. Most commands add to the counts what the one before added, so that a long run takes little
//! memory for them.

ghost use Rattle.std.specs.Prelude.{◌≡◌, ◌+◌, ◌*◌, ◌≤◌, ◌^◌, List, [], ◌∷◌, ◌++◌, length, slice_get, if◌then◌else◌};
ghost use Rattle.std.specs.Prelude.{IsTrue, IfSome, IfNone, MatchOption, OnOk, OnErr};
ghost use Rattle.mn_run.specs.Marks.{behind, stretch, joined, IsShort};
ghost use Rattle.mn_run.specs.declared.outcome.Mark.{Mark};

use crate::outcome::Mark;
use std::alloc::{AllocError, Global};
use std::marker::Model;

/// Marks, each of which adds the same to the one before.
#[derive(Drop)]
struct Stretch {
    first: Mark,
    step: Mark,
    count: u64,
}

impl Model for Stretch {
    ghost use Rattle.std.specs.Prelude.{List, ℕ, ◌≤◌, ◌-◌};
    ghost use Rattle.mn_run.specs.Marks.{behind, stretch, IsShort};
    ghost use Rattle.mn_run.specs.declared.outcome.Mark.{Mark};

    ghost Value = { List Mark };

    ghost view = { λ s. stretch s.first s.step s.count };

    ghost invariant = { λ s. (1 ≤ s.count) × IsShort (behind s.first s.step (s.count - 1)) };
}

/// Nothing is added.
const NO_STEP: Mark = Mark {
    clock: 0,
    done: 0,
    entries: 0,
    synced: 0,
    faults: 0,
    wants: 0,
};

/// What leads from a mark to another one, where no count falls.
fn step_to(mark: &Mark, next: &Mark) -> Option<Mark>
    ensures { IfSome result (λ step. next.now ≡ behind mark.now step 1) }
{
    Some(Mark {
        clock: next.clock.checked_sub(mark.clock)?,
        done: next.done.checked_sub(mark.done)?,
        entries: next.entries.checked_sub(mark.entries)?,
        synced: next.synced.checked_sub(mark.synced)?,
        faults: next.faults.checked_sub(mark.faults)?,
        wants: next.wants.checked_sub(mark.wants)?,
    })
}

/// A count behind so many steps, where it has 64 bits.
fn count_behind(first: u64, step: u64, steps: u64) -> Option<u64>
    ensures some { IfSome result (λ count. count ≡ first + steps * step) }
    ensures none { IfNone result (2 ^ 64 ≤ first + steps * step) }
{
    first.checked_add(steps.checked_mul(step)?)
}

/// The mark behind so many steps, where its counts have 64 bits.
fn mark_behind(first: &Mark, step: &Mark, steps: u64) -> Option<Mark>
    ensures some { IfSome result (λ mark. mark ≡ behind first.now step.now steps) }
    ensures none { IfNone result (IsShort (behind first.now step.now steps) → ⊥) }
{
    Some(Mark {
        clock: count_behind(first.clock, step.clock, steps)?,
        done: count_behind(first.done, step.done, steps)?,
        entries: count_behind(first.entries, step.entries, steps)?,
        synced: count_behind(first.synced, step.synced, steps)?,
        faults: count_behind(first.faults, step.faults, steps)?,
        wants: count_behind(first.wants, step.wants, steps)?,
    })
}

/// Whether they have the same counts.
fn are_same(mark: &Mark, other: &Mark) -> bool
    ensures { IsTrue result → mark.now ≡ other.now }
{
    mark.clock == other.clock
        && mark.done == other.done
        && mark.entries == other.entries
        && mark.synced == other.synced
        && mark.faults == other.faults
        && mark.wants == other.wants
}

impl Stretch {
    /// The one mark.
    fn new(mark: Mark) -> Stretch
        ensures { result ≡ mark ∷ [] }
    {
        Stretch {
            first: mark,
            step: NO_STEP,
            count: 1,
        }
    }

    /// Takes the mark behind the only one, where no count falls.
    fn take_second(&mut self, mark: Mark) -> bool
        requires { length self.old ≡ 1 }
        ensures { self.new ≡ (if result then self.old ++ mark ∷ [] else self.old) }
    {
        match step_to(&self.first, &mark) {
            Some(step) => {
                self.step = step;
                self.count = 2;
                true
            }
            None => false,
        }
    }

    /// The mark with this number, counted from 0.
    fn get(&self, number: u64) -> Option<Mark>
        ensures { result ≡ slice_get self.now number }
    {
        if number >= self.count {
            return None;
        }
        mark_behind(&self.first, &self.step, number)
    }

    /// Takes the mark behind the others where it adds what they do, and answers whether it did.
    fn take(&mut self, mark: Mark) -> bool
        ensures { self.new ≡ (if result then self.old ++ mark ∷ [] else self.old) }
    {
        if self.count == 1 {
            return self.take_second(mark);
        }
        let Some(count) = self.count.checked_add(1) else {
            return false;
        };
        match mark_behind(&self.first, &self.step, self.count) {
            Some(next) if are_same(&next, &mark) => {
                self.count = count;
                true
            }
            _ => false,
        }
    }
}

/// Marks in their order.
#[derive(Drop)]
pub struct Marks {
    stretches: Vec<Stretch>,
}

impl Model for Marks {
    ghost use Rattle.mn_run.specs.Marks.{MarkList, joined};

    ghost Value = { MarkList };

    ghost view = { λ m. record { items = joined m.stretches.items } };
}

impl Marks {
    /// No marks.
    pub fn new(alloc: Global) -> Marks
        ensures { result.items ≡ [] }
    {
        Marks {
            stretches: Vec::new(alloc),
        }
    }

    /// Takes the mark into the last stretch, where there is one and the mark goes on as that does.
    fn extend_last(&mut self, mark: Mark) -> bool
        ensures { self.new.items ≡ (if result then self.old.items ++ mark ∷ [] else self.old.items) }
    {
        match self.stretches.last_mut() {
            Some(last) => last.take(mark),
            None => false,
        }
    }

    /// Adds a mark. An error leaves the others.
    #[tactic(auto, using(crate::proofs::Stretches::joined_more))]
    pub fn push(&mut self, mark: Mark) -> Result<(), AllocError>
        ensures ok { OnOk result (self.new.items ≡ self.old.items ++ mark ∷ []) }
        ensures err { OnErr result (self.new.items ≡ self.old.items) }
    {
        if self.extend_last(mark) {
            return Ok(());
        }
        self.stretches.push(Stretch::new(mark))?;
        Ok(())
    }

    /// The mark with this number, counted from 0.
    pub fn get(&self, number: u64) -> Option<Mark>
        ensures { result ≡ slice_get self.now.items number }
    {
        mark_in(self.stretches.as_slice(), number)
    }

    /// The last mark.
    pub fn last(&self) -> Option<Mark>
        ensures { MatchOption result (self.now.items ≡ [])
            (λ mark. (rest : List Mark) × (self.now.items ≡ rest ++ mark ∷ [])) }
    {
        let stretch = self.stretches.last()?;
        stretch.get(stretch.count - 1)
    }
}

/// The mark with this number in stretches.
fn mark_in(stretches: &[Stretch], number: u64) -> Option<Mark>
    ensures { result ≡ slice_get (joined stretches.now) number }
{
    let mut left = number;
    for stretch in stretches {
        if left < stretch.count {
            return stretch.get(left);
        }
        left -= stretch.count;
    }
    None
}
