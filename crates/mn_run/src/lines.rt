//! The lines of a script that comes in pieces of any size.

ghost use Rattle.std.specs.Prelude.{◌≡◌, ◌⊎◌, ◌≤◌, ◌<◌, ◌++◌, [], true, false, length, Ok, MatchOption, IsTrue, IfOk, OnOk};
ghost use Rattle.mn_run.specs.Asks.{FlushesLine, IsKeptOrGone, Causes};
ghost use Rattle.mn_run.specs.Reading.{has_no_end, EndsAt, Added, Grows, Refills, IsFilled, FirstLine};

use crate::Status;
use crate::gathered::flush;
use file_trait::{Sink, Source, SrcErr};
use memchr::memchr;
use std::alloc::Global;
use std::marker::Model;

/// The most bytes of a line.
pub const MOST_LINE: usize = 1_048_576;

/// The most bytes of one read: 64 KiB, so that a long script takes few calls of the system. Lines may reach over
/// pieces, so that only the speed hangs on it.
pub const PIECE: usize = 65_536;

/// Why a line could not be read.
#[derive(Clone, Copy, Debug, PartialEq, Eq)]
pub enum LineErr {
    /// The source failed.
    Failed,
    /// The sink failed, to which what was gathered is written before more is read.
    Unwritten,
    /// The line has more bytes than a line may have.
    TooLong,
    /// Memory was wanting.
    Memory,
}

/// What was read of a script and not yet taken as a line.
#[derive(Drop)]
pub struct Lines {
    piece: [u8; PIECE],
    from: usize,
    to: usize,
}

impl Model for Lines {
    ghost use Rattle.std.specs.Prelude.{List, ℕ, length, ◌-◌, ◌≤◌, slice_range};
    ghost use Rattle.mn_run.specs.declared.lines.TheConstants.{PIECE};

    ghost Value = { List ℕ };

    ghost view = { λ l. slice_range l.piece l.from l.to };

    ghost invariant = { λ l. (l.from ≤ l.to) × (l.to ≤ length l.piece) × (l.to ≤ PIECE) };
}

/// Where the first line ends.
fn end_of(bytes: &[u8]) -> Option<usize>
    ensures { MatchOption result (has_no_end bytes.now ≡ true) (λ n. EndsAt bytes.now n) }
{
    memchr(b'\n', bytes)
}

impl Lines {
    pub fn new() -> Lines
        ensures { result ≡ [] }
    {
        Lines {
            piece: [0; PIECE],
            from: 0,
            to: 0,
        }
    }

    /// Adds to the line what was read of it. Whether its end was found.
    fn take_part(&mut self, line: &mut Vec<u8>) -> Result<bool, LineErr>
        requires { length line.old.items ≤ MOST_LINE }
        ensures { Grows result line.old.items line.new.items self.old self.new }
    {
        let bytes = &self.piece[self.from..self.to];
        match end_of(bytes) {
            Some(n) => {
                add(line, &bytes[..n])?;
                self.from = self.from + n + 1;
                Ok(true)
            }
            None => {
                add(line, bytes)?;
                self.from = self.to;
                Ok(false)
            }
        }
    }

    /// Reads more, where nothing is left of what was read. What was gathered is written before, so that no
    /// reply waits for more of the script. Whether there was more.
    fn refill<S: Source, K: Sink>(
        &mut self,
        script: &mut S,
        text: &mut Vec<u8>,
        out: &mut K,
    ) -> Result<bool, LineErr>
        ensures told { IsTrue S.tells → Refills result self.new (S.left script.old) (S.left script.new) }
        ensures filled { IsFilled result self.new }
        ensures short { length self.new ≤ PIECE }
        ensures cause { Causes LineErr.Failed (S.faults script.old) (S.faults script.new) result }
        ensures printed { IsTrue K.tells
            → FlushesLine result text.old.items text.new.items (K.written out.old) (K.written out.new) }
        ensures write { Causes LineErr.Unwritten (K.faults out.old) (K.faults out.new) result }
        ensures emptied { text.new.items ≡ [] }
    {
        self.from = 0;
        self.to = 0;
        match flush(out, text) {
            Ok(()) => {}
            Err(Status::WriteFault) => return Err(LineErr::Unwritten),
            Err(_) => return Err(LineErr::Memory),
        }
        match script.read(&mut self.piece) {
            Ok(count) => {
                self.to = count;
                Ok(count > 0)
            }
            Err(SrcErr::Failed) => Err(LineErr::Failed),
        }
    }

    /// The next line, where there is one. What was gathered is written to the sink before the script is read.
    pub fn next_line<S: Source, K: Sink>(
        &mut self,
        script: &mut S,
        line: &mut Vec<u8>,
        text: &mut Vec<u8>,
        out: &mut K,
    ) -> Result<bool, LineErr>
        ensures line { IsTrue S.tells
            → FirstLine result line.new.items (self.old ++ S.left script.old) (self.new ++ S.left script.new) }
        ensures short { OnOk result (length line.new.items ≤ MOST_LINE) }
        ensures cause { Causes LineErr.Failed (S.faults script.old) (S.faults script.new) result }
        ensures printed { IsTrue K.tells
            → FlushesLine result text.old.items text.new.items (K.written out.old) (K.written out.new) }
        ensures write { Causes LineErr.Unwritten (K.faults out.old) (K.faults out.new) result }
        ensures gathered { IsKeptOrGone text.old.items text.new.items }
        // Where something is gathered still, the script was not read, and at its end nothing is.
        ensures unread { (text.new.items ≡ []) ⊎ (script.new ≡ script.old) }
        ensures end { result ≡ Ok false → text.new.items ≡ [] }
    {
        // Without this view the prover does not see that the piece is whole.
        let _piece = &self.piece;
        line.clear();
        loop {
            if self.take_part(line)? {
                return Ok(true);
            }
            if !self.refill(script, text, out)? {
                return Ok(!line.is_empty());
            }
        }
    }
}

/// Adds a part to a line, up to the limit.
fn add(line: &mut Vec<u8>, part: &[u8]) -> Result<(), LineErr>
    requires { length line.old.items ≤ MOST_LINE }
    ensures { Added result line.old.items line.new.items part.now }
{
    if part.len() > MOST_LINE - line.len() {
        return Err(LineErr::TooLong);
    }
    match line.extend_from_slice(part) {
        Ok(()) => Ok(()),
        Err(_) => Err(LineErr::Memory),
    }
}
