//! What the lines ask for.

ghost use Rattle.std.specs.Prelude.{◌≡◌, ◌⊎◌, ◌≤◌, ◌+◌, ◌++◌, [], ◌∷◌, length, Ok, IsTrue, IfOk, IfErr};
ghost use Rattle.mn_run.specs.Lines.{lines_of};
ghost use Rattle.mn_run.specs.Script.{plan_from};
ghost use Rattle.mn_run.specs.Asks.{Asks, IsAskableAsk, Goes, Flushes, IsKeptOrGone, Causes, IsOfReading};

use crate::Status;
use crate::commands::{Line, read_line};
use crate::lines::{LineErr, Lines, MOST_LINE};
use file_trait::{Sink, Source};
use std::alloc::Global;

/// The most lines of a script.
pub const MOST_LINES: u64 = 2_000_000;

/// The most commands of a script.
pub const MOST_COMMANDS: u64 = 1_000_000;

/// What a line asks for.
#[derive(Drop)]
pub enum Ask {
    /// There is no line more.
    End,
    /// Nothing: the line is empty.
    Blank,
    /// This.
    Do(Line),
}

/// How many lines and commands there were.
#[derive(Clone, Copy, Debug, PartialEq, Eq)]
pub struct Place {
    pub lines: u64,
    pub commands: u64,
}

/// What the next line asks for. What was gathered is written to the sink before the script is read.
pub fn next_ask<S: Source, K: Sink>(
    alloc: Global,
    lines: &mut Lines,
    line: &mut Vec<u8>,
    script: &mut S,
    place: &mut Place,
    text: &mut Vec<u8>,
    out: &mut K,
) -> Result<Ask, Status>
    requires within { place.old.lines ≤ MOST_LINES }
    requires few { place.old.commands ≤ MOST_COMMANDS }
    ensures asks { IsTrue S.tells → Asks result
        (plan_from place.old.lines place.old.commands (lines_of (lines.old ++ S.left script.old)))
        (plan_from place.new.lines place.new.commands (lines_of (lines.new ++ S.left script.new))) }
    ensures askable { IfOk result IsAskableAsk }
    ensures cause { Causes Status.ReadFault (S.faults script.old) (S.faults script.new) result }
    ensures printed { IsTrue K.tells
        → Flushes result text.old.items text.new.items (K.written out.old) (K.written out.new) }
    ensures write { Causes Status.WriteFault (K.faults out.old) (K.faults out.new) result }
    ensures gathered { IsKeptOrGone text.old.items text.new.items }
    // Where something is gathered still, the script was not read, and at its end nothing is.
    ensures unread { (text.new.items ≡ []) ⊎ (script.new ≡ script.old) }
    ensures end { result ≡ Ok Ask.End → text.new.items ≡ [] }
    ensures only { IfErr result IsOfReading }
    ensures goes { IfOk result (λ ask. Goes ask place.old.lines place.new.lines place.old.commands place.new.commands) }
    ensures within { place.new.lines ≤ MOST_LINES }
    ensures few { place.new.commands ≤ MOST_COMMANDS }
{
    match lines.next_line(script, line, text, out) {
        Ok(true) => ask_of(alloc, line, place),
        Ok(false) => Ok(Ask::End),
        Err(LineErr::Failed) => Err(Status::ReadFault),
        Err(LineErr::Unwritten) => Err(Status::WriteFault),
        Err(LineErr::TooLong) => Err(Status::TooLong(place.lines + 1)),
        Err(LineErr::Memory) => Err(Status::Memory),
    }
}

/// What a line asks for that comes after so many.
fn ask_of(alloc: Global, line: &[u8], place: &mut Place) -> Result<Ask, Status>
    requires within { place.old.lines ≤ MOST_LINES }
    requires few { place.old.commands ≤ MOST_COMMANDS }
    requires short { length line.now ≤ MOST_LINE }
    ensures asks { (later : _) → Asks result
        (plan_from place.old.lines place.old.commands (line.now ∷ later))
        (plan_from place.new.lines place.new.commands later) }
    ensures askable { IfOk result IsAskableAsk }
    ensures only { IfErr result IsOfReading }
    ensures read { result ≡ Err Status.ReadFault → ⊥ }
    ensures write { result ≡ Err Status.WriteFault → ⊥ }
    ensures end { result ≡ Ok Ask.End → ⊥ }
    ensures goes { IfOk result (λ ask. Goes ask place.old.lines place.new.lines place.old.commands place.new.commands) }
    ensures within { place.new.lines ≤ MOST_LINES }
    ensures few { place.new.commands ≤ MOST_COMMANDS }
{
    let number = place.lines + 1;
    if place.lines == MOST_LINES {
        return Err(Status::TooLong(number));
    }
    match read_line(alloc, line) {
        Ok(Some(asked)) => {
            if place.commands == MOST_COMMANDS {
                return Err(Status::TooLong(number));
            }
            place.lines = number;
            place.commands += 1;
            Ok(Ask::Do(asked))
        }
        Ok(None) => {
            place.lines = number;
            Ok(Ask::Blank)
        }
        Err(_) => Err(Status::Memory),
    }
}
