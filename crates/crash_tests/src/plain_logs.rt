//! What the two files of a log that is rotated may have, by plain lists of what was done to it.

use std::alloc::{AllocError, Global};
use std::mem;

/// What is done to the log.
#[derive(Clone, Copy)]
pub enum Act {
    Append,
    Sync,
    Close,
    Rotate,
    DropPrevious,
}

/// What the two logs may have: the versions of their commits.
#[derive(Drop)]
pub struct PlainLogs {
    previous: Vec<u64>,
    latest: Vec<u64>,
    /// How many of both are durable.
    durable: usize,
    /// Whether the previous ones may be gone.
    drops: bool,
    /// The version of the next one.
    pub next: u64,
    /// Whether a start found something else.
    pub is_wrong: bool,
}

impl PlainLogs {
    pub fn new(alloc: Global) -> PlainLogs {
        PlainLogs {
            previous: Vec::new(alloc),
            latest: Vec::new(alloc),
            durable: 0,
            drops: false,
            next: 1,
            is_wrong: false,
        }
    }

    pub fn try_clone(&self) -> Result<PlainLogs, AllocError> {
        Ok(PlainLogs {
            previous: self.previous.clone()?,
            latest: self.latest.clone()?,
            durable: self.durable,
            drops: self.drops,
            next: self.next,
            is_wrong: self.is_wrong,
        })
    }

    /// It is about to be done.
    pub fn begin(&mut self, act: Act) -> Result<(), AllocError> {
        match act {
            Act::Append => {
                self.latest.push(self.next)?;
                self.next = self.next.saturating_add(1);
            }
            Act::DropPrevious => self.drops = true,
            Act::Sync | Act::Close | Act::Rotate => (),
        }
        Ok(())
    }

    /// It was done.
    pub fn end(&mut self, alloc: Global, act: Act) {
        match act {
            Act::Append => (),
            Act::Sync | Act::Close => self.all_are_durable(),
            Act::Rotate => {
                self.previous = mem::replace(&mut self.latest, Vec::new(alloc));
                self.all_are_durable();
            }
            Act::DropPrevious => self.forget_previous(),
        }
    }

    pub fn all_are_durable(&mut self) {
        self.durable = self.previous.len().saturating_add(self.latest.len());
    }

    fn forget_previous(&mut self) {
        self.durable = self.durable.saturating_sub(self.previous.len());
        self.previous.clear();
        self.drops = false;
    }

    // Whether these are the previous ones and the first of the latest, as far as they are durable.
    fn has(&self, found: &[u64]) -> bool {
        match found.strip_prefix(&self.previous) {
            Some(latest) => found.len() >= self.durable && self.latest.starts_with(latest),
            None => false,
        }
    }

    /// A start found these in the two logs.
    pub fn start(&mut self, previous: Vec<u64>, latest: Vec<u64>) -> Result<(), AllocError> {
        let mut found = previous.clone()?;
        found.extend_from_slice(&latest)?;
        if self.drops && !self.has(&found) {
            self.forget_previous();
        }
        self.is_wrong = self.is_wrong || !self.has(&found);
        self.previous = previous;
        self.latest = latest;
        self.drops = false;
        Ok(())
    }
}
