//! What a node must reply, by plain lists of what it did and of what is pending.

use crate::locks::{Lock, Pending, begin, calls_of, forget, holder, keep};
use crate::refusals::Refusal;
use crate::replies::{Change, called, is_fault, shown, stands, started, told};
use crate::steps::{Call, Row, Step, Table};
use std::alloc::{AllocError, Global};
use std::vec;

// How many transactions may be pending.
const MOST_PENDING: usize = 64;

/// What is known of a node from its replies.
#[derive(Drop)]
pub struct Plain {
    pub is_up: bool,
    /// What the commits did that were answered, with those in doubt that a start told to be kept.
    pub changes: Vec<Change>,
    /// How many changes there were behind each of these commits.
    pub ends: Vec<usize>,
    /// The transactions that are pending, in the order in which they began.
    pub pending: Vec<Pending>,
    /// What the commit was to do that the disk failed at since the last good start.
    pub doubt: Vec<Change>,
    /// How many commits there were at the last good start.
    pub base: usize,
    /// How many commits were answered in all, known at the run's end.
    pub answered: usize,
    /// How many commits are known to be durable.
    pub durable: usize,
    /// How many faults were replied.
    pub faults: usize,
}

impl Plain {
    /// A node before its first start, over no files.
    pub fn new(alloc: Global) -> Plain {
        Plain {
            is_up: false,
            changes: Vec::new(alloc),
            ends: Vec::new(alloc),
            pending: Vec::new(alloc),
            doubt: Vec::new(alloc),
            base: 0,
            answered: 0,
            durable: 0,
            faults: 0,
        }
    }

    /// Whether a command may be replied to so, and what is known then.
    pub fn takes(&mut self, alloc: Global, step: Step, reply: &[u8]) -> Result<bool, AllocError> {
        if is_fault(reply) {
            return self.fails(alloc, step);
        }
        if let Some(refusal) = self.refusal(step) {
            return Ok(reply == refusal.text(alloc)?.as_bytes());
        }
        if let Step::Start = step {
            return self.start(alloc, reply);
        }
        let answer = self.answer(alloc, step)?;
        self.act(alloc, step)?;
        Ok(reply == answer.as_bytes())
    }

    // The disk failed: a node that is up goes down, and one that is down stays so. What is refused and what only reads
    // does not go to the disk.
    fn fails(&mut self, alloc: Global, step: Step) -> Result<bool, AllocError> {
        let is_refused = self.refusal(step).is_some();
        let changes = self.changes_of(alloc, step)?;
        let is_written = match step {
            Step::Start | Step::SyncLog | Step::Stop => true,
            _ => !changes.is_empty(),
        };
        self.is_up = false;
        self.pending.clear();
        self.faults = self.faults.saturating_add(1);
        self.doubt.extend_from_slice(&changes)?;
        Ok(is_written && !is_refused)
    }

    // Why a command is refused, if it is.
    fn refusal(&self, step: Step) -> Option<Refusal> {
        match step {
            Step::Unfinished => Some(Refusal::NoCommand),
            Step::Start if self.is_up => Some(Refusal::Up),
            Step::Start => None,
            _ if !self.is_up => Some(Refusal::Down),
            Step::Make(_)
            | Step::MakeBadName
            | Step::MakeBadOption(_)
            | Step::Remove(_)
            | Step::Info(_) => { self.table_refusal(step) }
            Step::Put(table, row) => self.call_refusal(None, Call::Write(table, row)),
            Step::Get(table, key) => self.call_refusal(None, Call::Read(table, key)),
            _ => self.txn_refusal(step),
        }
    }

    // Why a command on a whole table is refused.
    fn table_refusal(&self, step: Step) -> Option<Refusal> {
        match step {
            Step::MakeBadName => Some(Refusal::BadName),
            Step::MakeBadOption(_) => Some(Refusal::BadOption),
            Step::Make(table) if stands(&self.changes, table) => Some(Refusal::TableExists(table)),
            Step::Remove(table) | Step::Info(table) if !stands(&self.changes, table) => {
                Some(Refusal::NoTable(table))
            }
            Step::Remove(table) => self.lock_refusal(None, Lock::of_table(table)),
            _ => None,
        }
    }

    // Why a command of a transaction is refused.
    fn txn_refusal(&self, step: Step) -> Option<Refusal> {
        match step {
            Step::Begin(txn) if calls_of(&self.pending, txn).is_some() => {
                Some(Refusal::TransactionExists(txn))
            }
            Step::Begin(_) if self.pending.len() >= MOST_PENDING => Some(
                Refusal::TooManyTransactions,
            ),
            Step::Call(txn, _) | Step::Commit(txn) | Step::Abort(txn)
                if calls_of(&self.pending, txn).is_none() => { Some(Refusal::NoTransaction(txn)) }
            Step::Call(txn, call) => self.call_refusal(Some(txn), call),
            _ => None,
        }
    }

    // Why a call is refused, of this transaction, or of one that has no other call.
    fn call_refusal(&self, txn: Option<u64>, call: Call) -> Option<Refusal> {
        let table = call.table();
        if !stands(&self.changes, table) {
            return Some(Refusal::NoTable(table));
        }
        match call {
            Call::Write(_, Row::Short(key)) | Call::DeleteObject(_, Row::Short(key)) => {
                Some(Refusal::Unfit(table, Row::Short(key)))
            }
            _ => self.lock_refusal(txn, Lock::of_call(call)),
        }
    }

    fn lock_refusal(&self, txn: Option<u64>, lock: Lock) -> Option<Refusal> {
        match holder(&self.pending, txn, lock) {
            Some(other) => Some(Refusal::Locked(other)),
            None => None,
        }
    }

    // What a transaction wrote that is pending.
    fn written(&self, alloc: Global, txn: u64) -> Result<Vec<Change>, AllocError> {
        let mut changes = Vec::new(alloc);
        for call in calls_of(&self.pending, txn).unwrap_or(&[]) {
            if let Some(change) = Change::of_call(*call) {
                changes.push(change)?;
            }
        }
        Ok(changes)
    }

    // What a command commits.
    fn changes_of(&self, alloc: Global, step: Step) -> Result<Vec<Change>, AllocError> {
        match step {
            Step::Make(table) => Ok(vec![in alloc; Change::Make(table)]?),
            Step::Remove(table) => Ok(vec![in alloc; Change::Remove(table)]?),
            Step::Put(table, Row::Pair(key, value)) => {
                Ok(vec![in alloc; Change::Write(table, key, value)]?)
            }
            Step::Commit(txn) => self.written(alloc, txn),
            _ => Ok(Vec::new(alloc)),
        }
    }

    // The reply to a command that is not refused, and is no start.
    fn answer(&self, alloc: Global, step: Step) -> Result<String, AllocError> {
        match step {
            Step::Make(_) | Step::Remove(_) | Step::Put(_, _) | Step::Commit(_) => {
                String::from_str(alloc, "{atomic,ok}")
            }
            Step::Get(_, _) | Step::Info(_) | Step::Tables => told(alloc, &self.changes, step),
            Step::Call(txn, call) => self.call(alloc, txn, call),
            Step::Stop => String::from_str(alloc, "stopped"),
            _ => String::from_str(alloc, "ok"),
        }
    }

    // What a call is told: its transaction sees what it wrote itself.
    fn call(&self, alloc: Global, txn: u64, call: Call) -> Result<String, AllocError> {
        let mut seen = self.changes.to_vec(alloc)?;
        seen.extend_from_slice(&self.written(alloc, txn)?)?;
        called(alloc, &seen, call)
    }

    // Does a command that is not refused, and is no start.
    fn act(&mut self, alloc: Global, step: Step) -> Result<(), AllocError> {
        let changes = self.changes_of(alloc, step)?;
        self.commit(&changes)?;
        match step {
            Step::Make(_) | Step::Remove(_) | Step::SyncLog => self.settle(),
            Step::Stop => self.stop(),
            Step::Begin(txn) => begin(alloc, &mut self.pending, txn)?,
            Step::Call(txn, call) => keep(&mut self.pending, txn, call)?,
            Step::Commit(txn) | Step::Abort(txn) => forget(&mut self.pending, txn),
            _ => {}
        }
        Ok(())
    }

    // Where nothing is to be done there is no commit.
    fn commit(&mut self, changes: &[Change]) -> Result<(), AllocError> {
        if changes.is_empty() {
            return Ok(());
        }
        self.changes.extend_from_slice(changes)?;
        self.ends.push(self.changes.len())?;
        Ok(())
    }

    fn settle(&mut self) {
        self.durable = self.ends.len();
    }

    fn stop(&mut self) {
        self.settle();
        self.is_up = false;
        self.pending.clear();
    }

    // A start tells how many commits were kept of those since the last good one: all that were answered, and perhaps
    // one that was in doubt.
    fn start(&mut self, alloc: Global, reply: &[u8]) -> Result<bool, AllocError> {
        let since = self.ends.len().saturating_sub(self.base);
        if reply == started(alloc, since)?.as_bytes() {
            self.started();
            return Ok(true);
        }
        if self.doubt.is_empty() {
            return Ok(false);
        }
        self.keep_doubt(alloc)?;
        self.started();
        Ok(reply == started(alloc, since.saturating_add(1))?.as_bytes())
    }

    fn started(&mut self) {
        self.is_up = true;
        self.doubt.clear();
        self.base = self.ends.len();
        self.settle();
    }

    // The commit in doubt, if there is one, counts as done.
    fn keep_doubt(&mut self, alloc: Global) -> Result<(), AllocError> {
        let doubt = self.doubt.to_vec(alloc)?;
        self.commit(&doubt)
    }

    /// The run ended: where it was stopped in order all commits are durable, and one in doubt is one that was begun.
    pub fn end(&mut self, alloc: Global, is_stopped: bool) -> Result<(), AllocError> {
        self.answered = self.ends.len();
        if is_stopped {
            self.settle();
        }
        self.keep_doubt(alloc)
    }

    /// The first line, if any, that a run of these commands may not write, and what is known at its end. The line of
    /// the first start is 0.
    pub fn wrong_line(
        &mut self,
        alloc: Global,
        steps: &[Step],
        replies: &[u8],
    ) -> Result<Option<usize>, AllocError> {
        let (first, mut rest) = next_line(replies);
        let mut wrong = None;
        if !self.takes(alloc, Step::Start, first)? {
            wrong = Some(0);
        }
        for (at, step) in steps.iter().enumerate() {
            let (line, others) = next_line(rest);
            if !self.takes(alloc, *step, line)? && wrong.is_none() {
                wrong = Some(at.saturating_add(1));
            }
            rest = others;
        }
        if !rest.is_empty() && wrong.is_none() {
            wrong = Some(steps.len().saturating_add(1));
        }
        Ok(wrong)
    }

    /// How many commits did more than one thing.
    pub fn commits_of_several(&self) -> usize {
        let mut count = 0usize;
        let mut before = 0usize;
        for end in &self.ends {
            if end.saturating_sub(before) > 1 {
                count = count.saturating_add(1);
            }
            before = *end;
        }
        count
    }

    // What the first so many commits did.
    fn front(&self, count: usize) -> &[Change] {
        let end = match count.checked_sub(1) {
            Some(last) => self.ends.get(last).copied().unwrap_or(0),
            None => 0,
        };
        self.changes.get(..end).unwrap_or(&[])
    }

    /// Whether these are the replies of a node that is started with a front of the commits, at least so many, and asked
    /// for all that its database has.
    pub fn shows_a_front(
        &self,
        alloc: Global,
        least: usize,
        replies: &[u8],
    ) -> Result<bool, AllocError> {
        for count in least..=self.ends.len() {
            if replies == shown(alloc, self.front(count))?.as_bytes() {
                return Ok(true);
            }
        }
        Ok(false)
    }
}

/// The first line without its line break, and what is behind it.
pub fn next_line(text: &[u8]) -> (&[u8], &[u8]) {
    let len = text.iter().take_while(|byte| **byte != b'\n').count();
    match (text.get(..len), text.get(len.saturating_add(1)..)) {
        (Some(line), Some(rest)) => (line, rest),
        _ => (b"", b""),
    }
}
