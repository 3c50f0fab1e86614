//! Which kinds of replies were seen to each command.

use crate::lines::script_of;
use crate::plain::next_line;
use crate::steps::Step;
use std::alloc::{AllocError, Global};
use std::vec;

/// A command's word, and how the text of a reply to it begins, which is of the first kind that it fits. Left out are
/// want of memory, faults, the limits but that of pending transactions, and lines that are no command but `get s`.
const KINDS: [(&str, &str); 77] = [
    ("create_table", "{atomic,ok}"),
    ("create_table", "{aborted,{bad_name,"),
    ("create_table", "{aborted,{bad_option,"),
    ("create_table", "{aborted,{already_exists,"),
    ("create_table", "{error,down}"),
    ("delete_table", "{atomic,ok}"),
    ("delete_table", "{aborted,{no_exists,"),
    ("delete_table", "{aborted,{locked,"),
    ("delete_table", "{error,down}"),
    ("tables", "[]"),
    ("tables", "["),
    ("tables", "{error,down}"),
    ("table_info", "[{type,"),
    ("table_info", "{aborted,{no_exists,"),
    ("table_info", "{error,down}"),
    ("put", "{atomic,ok}"),
    ("put", "{aborted,{no_exists,"),
    ("put", "{aborted,{bad_type,"),
    ("put", "{aborted,{locked,"),
    ("put", "{error,down}"),
    ("get", "[]"),
    ("get", "["),
    ("get", "{aborted,{no_exists,"),
    ("get", "{aborted,{locked,"),
    ("get", "{error,down}"),
    ("get", "{badarg,"),
    ("begin", "ok"),
    ("begin", "{aborted,{already_exists,"),
    ("begin", "{aborted,{limit,transactions}}"),
    ("begin", "{error,down}"),
    ("write", "ok"),
    ("write", "{aborted,{no_transaction,"),
    ("write", "{aborted,{no_exists,"),
    ("write", "{aborted,{bad_type,"),
    ("write", "{aborted,{locked,"),
    ("write", "{error,down}"),
    ("delete", "ok"),
    ("delete", "{aborted,{no_transaction,"),
    ("delete", "{aborted,{no_exists,"),
    ("delete", "{aborted,{locked,"),
    ("delete", "{error,down}"),
    ("delete_object", "ok"),
    ("delete_object", "{aborted,{no_transaction,"),
    ("delete_object", "{aborted,{no_exists,"),
    ("delete_object", "{aborted,{bad_type,"),
    ("delete_object", "{aborted,{locked,"),
    ("delete_object", "{error,down}"),
    ("read", "[]"),
    ("read", "["),
    ("read", "{aborted,{no_transaction,"),
    ("read", "{aborted,{no_exists,"),
    ("read", "{aborted,{locked,"),
    ("read", "{error,down}"),
    ("match_object", "[]"),
    ("match_object", "["),
    ("match_object", "{aborted,{no_transaction,"),
    ("match_object", "{aborted,{no_exists,"),
    ("match_object", "{aborted,{locked,"),
    ("match_object", "{error,down}"),
    ("all_keys", "[]"),
    ("all_keys", "["),
    ("all_keys", "{aborted,{no_transaction,"),
    ("all_keys", "{aborted,{no_exists,"),
    ("all_keys", "{aborted,{locked,"),
    ("all_keys", "{error,down}"),
    ("commit", "{atomic,ok}"),
    ("commit", "{aborted,{no_transaction,"),
    ("commit", "{error,down}"),
    ("abort", "ok"),
    ("abort", "{aborted,{no_transaction,"),
    ("abort", "{error,down}"),
    ("sync_log", "ok"),
    ("sync_log", "{error,down}"),
    ("stop", "stopped"),
    ("stop", "{error,down}"),
    ("start", "{started,"),
    ("start", "{error,up}"),
];

/// How often each kind was seen, and how many replies were of none.
#[derive(Drop)]
pub struct Kinds {
    counts: Vec<u64>,
    others: u64,
}

// The first word of a line.
fn word_of(line: &[u8]) -> &[u8] {
    let len = line.iter().take_while(|byte| **byte != b' ').count();
    line.get(..len).unwrap_or(line)
}

// Which kind a reply to a command is of.
fn kind_of(line: &[u8], reply: &[u8]) -> Option<usize> {
    let word = word_of(line);
    for (at, (own, front)) in KINDS.iter().enumerate() {
        if word == own.as_bytes() && reply.starts_with(front.as_bytes()) {
            return Some(at);
        }
    }
    None
}

impl Kinds {
    pub fn new(alloc: Global) -> Result<Kinds, AllocError> {
        Ok(Kinds {
            counts: vec![in alloc; 0; KINDS.len()]?,
            others: 0,
        })
    }

    fn see(&mut self, line: &[u8], reply: &[u8]) {
        let kind = kind_of(line, reply).unwrap_or(KINDS.len());
        match self.counts.get_mut(kind) {
            Some(count) => *count = count.saturating_add(1),
            None => self.others = self.others.saturating_add(1),
        }
    }

    /// Sees the replies of a run of these commands.
    pub fn see_all(
        &mut self,
        alloc: Global,
        steps: &[Step],
        replies: &[u8],
    ) -> Result<(), AllocError> {
        let script = script_of(alloc, steps)?;
        let mut lines = script.as_bytes();
        let (_, mut rest) = next_line(replies);
        for _ in steps {
            let (line, later) = next_line(lines);
            let (reply, others) = next_line(rest);
            self.see(line, reply);
            lines = later;
            rest = others;
        }
        Ok(())
    }

    /// How many replies were of none of the kinds.
    pub fn others(&self) -> u64 {
        self.others
    }

    /// The first kind, if any, that was never seen.
    pub fn missing(&self) -> Option<(&'static str, &'static str)> {
        for (kind, count) in KINDS.iter().zip(&self.counts) {
            if *count == 0 {
                return Some(*kind);
            }
        }
        None
    }
}
