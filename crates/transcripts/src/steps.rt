//! The lines of a transcript.

use crate::directives::directive;
use crate::trouble::Trouble;
use file_mem::Choice;
use file_trait::FileName;
use mn_run::Status;
use std::alloc::Global;

/// What a line of a transcript says.
#[derive(Drop)]
pub enum Step<'a> {
    /// A line of the script.
    Line(&'a str),
    /// A line of so many letters.
    LongLine(usize),
    /// What the run prints next.
    Reply(&'a str),
    /// A new run begins.
    Again,
    /// A new run begins in another directory, which is empty.
    Anew,
    /// The run's words, with a space between.
    Words(&'a str),
    /// How the run ends.
    Ends(Status),
    /// A file that the directory is handed over with.
    File(FileName, Vec<u8>),
    /// The file reads so.
    Holds(FileName, Vec<u8>),
    /// There is no such file.
    Lacks(FileName),
    /// Further bytes of the file above.
    More(Vec<u8>),
    /// A call of the disk fails: which one, and how many bytes of an append stay.
    Fails(u64, u64),
    /// A call of the disk fails, and loses what was pending.
    Loses(u64),
    SourceFails,
    SinkFails,
    /// The machine stops, so many operations of the disk behind the last reply, and a run begins on what is left.
    Crash(u64, Choice),
    /// A run begins on what else may be left.
    Or(Choice),
}

/// A step and its line, from 1.
#[derive(Drop)]
pub struct Numbered<'a> {
    pub line: usize,
    pub step: Step<'a>,
}

// The line of the script that stands behind `>`.
fn script_line<'a>(text: &'a str) -> Option<Step<'a>> {
    if text.is_empty() {
        return Some(Step::Line(text));
    }
    Some(Step::Line(text.strip_prefix(' ')?))
}

// The step of a line that is no comment and not empty.
fn step_of<'a>(alloc: Global, text: &'a str) -> Option<Step<'a>> {
    if let Some(rest) = text.strip_prefix('>') {
        return script_line(rest);
    }
    match text.strip_prefix('=') {
        Some(rest) => directive(alloc, rest.strip_prefix(' ')?),
        None => Some(Step::Reply(text)),
    }
}

// Whether the bytes could be put to the file of the last step.
fn add_bytes(steps: &mut Vec<Numbered<'_>>, bytes: &[u8]) -> Result<bool, Trouble> {
    let Some(last) = steps.last_mut() else {
        return Ok(false);
    };
    match &mut last.step {
        Step::File(_, all) | Step::Holds(_, all) => {
            all.extend_from_slice(bytes)?;
            Ok(true)
        }
        _ => Ok(false),
    }
}

/// The steps of a transcript.
pub fn steps_of<'a>(alloc: Global, text: &'a str) -> Result<Vec<Numbered<'a>>, Trouble> {
    let mut steps = Vec::new(alloc);
    for (i, text) in text.split('\n').enumerate() {
        let line = i.saturating_add(1);
        if text.is_empty() || text.starts_with('%') {
            continue;
        }
        match step_of(alloc, text) {
            Some(Step::More(bytes)) => {
                if !add_bytes(&mut steps, &bytes)? {
                    return Err(Trouble::ill(alloc, line, "no file above"));
                }
            }
            Some(step) => steps.push(Numbered { line, step })?,
            None => return Err(Trouble::ill(alloc, line, "no such directive")),
        }
    }
    Ok(steps)
}
