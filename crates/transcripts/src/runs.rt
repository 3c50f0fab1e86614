//! A run of a script, as a transcript tells it.

use crate::steps::Step;
use crate::trouble::Trouble;
use mn_run::Status;
use std::alloc::{AllocError, Global};

/// A reply that is expected, and its line.
#[derive(Clone, Copy)]
pub struct Reply<'a> {
    pub line: usize,
    pub text: &'a str,
}

/// A call of the disk that is to fail.
#[derive(Clone, Copy)]
pub struct Fault {
    /// Which one, counted from 1 behind what the first so many bytes of the script do, or with none from the run's
    /// beginning.
    pub call: u64,
    pub behind: Option<usize>,
    /// How many bytes of an append stay; with none what is pending is lost.
    pub kept: Option<u64>,
}

/// A run as it is told, before it is played.
#[derive(Drop)]
pub struct Run<'a> {
    /// With a space between.
    pub words: &'a str,
    pub script: Vec<u8>,
    pub replies: Vec<Reply<'a>>,
    pub status: Status,
    /// The line that says the status.
    pub status_line: Option<usize>,
    pub fault: Option<Fault>,
    pub source_fails: bool,
    pub sink_fails: bool,
}

impl<'a> Run<'a> {
    /// A run of an empty script.
    pub fn new(alloc: Global) -> Run<'a> {
        Run {
            words: "dir",
            script: Vec::new(alloc),
            replies: Vec::new(alloc),
            status: Status::Done,
            status_line: None,
            fault: None,
            source_fails: false,
            sink_fails: false,
        }
    }

    /// Takes what a line says of the run.
    pub fn take(&mut self, alloc: Global, line: usize, step: Step<'a>) -> Result<(), Trouble> {
        match step {
            Step::Line(text) => {
                self.script.extend_from_slice(text.as_bytes())?;
                self.script.push(b'\n')?;
            }
            Step::LongLine(count) => self.add_letters(count)?,
            Step::Reply(text) => self.replies.push(Reply { line, text })?,
            Step::Words(words) => self.words = words,
            Step::Ends(status) => {
                self.status = status;
                self.status_line = Some(line);
            }
            Step::Fails(call, kept) => self.fail(alloc, line, call, Some(kept))?,
            Step::Loses(call) => self.fail(alloc, line, call, None)?,
            Step::SourceFails => self.source_fails = true,
            Step::SinkFails => self.sink_fails = true,
            _ => return Err(Trouble::ill(alloc, line, "not of a run")),
        }
        Ok(())
    }

    fn add_letters(&mut self, count: usize) -> Result<(), AllocError> {
        for _ in 0..count {
            self.script.push(b'x')?;
        }
        self.script.push(b'\n')?;
        Ok(())
    }

    fn fail(
        &mut self,
        alloc: Global,
        line: usize,
        call: u64,
        kept: Option<u64>,
    ) -> Result<(), Trouble> {
        if self.fault.is_some() {
            return Err(Trouble::ill(alloc, line, "a second fault of the run"));
        }
        let behind = if self.replies.is_empty() {
            None
        } else {
            Some(self.script.len())
        };
        self.fault = Some(Fault { call, behind, kept });
        Ok(())
    }
}
