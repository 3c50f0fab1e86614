//! How a run ends.

ghost use Rattle.std.specs.Prelude.{◌≡◌};
ghost use Rattle.mn_run.specs.Statuses.{number_of};

use crate::marks::Marks;
use file_trait::FileName;

/// How a run ended.
#[derive(Clone, Copy, Debug, PartialEq, Eq)]
pub enum Status {
    /// The script was read to its end, every command was answered, and the node was stopped.
    Done,
    /// The words are not of the form.
    Usage,
    /// The source of the script failed.
    ReadFault,
    /// The sink of the replies failed.
    WriteFault,
    /// The disk failed, and the node was down for it at the script's end or after the stop there.
    DiskFault,
    /// This file has no meaning, from this place on.
    Damaged(FileName, u64),
    /// Memory was wanting where a line was read, a reply gathered or written or a mark taken, at the stop at the
    /// script's end, or for a start after which the node was down at the script's end. A command that wants memory is
    /// answered.
    Memory,
    /// This line, from 1, passes a limit.
    TooLong(u64),
}

impl Status {
    /// The exit status of the program.
    pub fn number(&self) -> u8
        ensures { result ≡ number_of self.now }
    {
        match self {
            Status::Done => 0,
            Status::Usage => 1,
            Status::ReadFault => 2,
            Status::WriteFault => 3,
            Status::DiskFault => 4,
            Status::Damaged(_, _) => 5,
            Status::Memory => 6,
            Status::TooLong(_) => 7,
        }
    }
}

/// What was so after the first start, after a command, or after the stop at the script's end.
#[derive(Clone, Copy, Debug, PartialEq, Eq)]
pub struct Mark {
    /// The disk's clock.
    pub clock: u64,
    /// The commands answered, without the first start.
    pub done: u64,
    /// The writes since the last good start, with one that a fault left in doubt.
    pub entries: u64,
    /// How many of these are known to be durable.
    pub synced: u64,
    /// The disk's count of faults.
    pub faults: u64,
    /// The background turns that wanted memory: there are none yet.
    pub wants: u64,
}

/// What a run leaves.
#[derive(Drop)]
pub struct Outcome {
    /// How it ended.
    pub status: Status,
    /// One mark after the first start, one after each command, and one after the stop at the script's end where there
    /// was one. Where a status ended the run, what came last may have none. There are none for words that are not of
    /// the form.
    pub marks: Marks,
}
