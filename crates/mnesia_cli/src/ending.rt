//! How the program ends.

ghost use Rattle.std.specs.Prelude.{◌≡◌};
ghost use Rattle.mnesia_cli.specs.Endings.{exit_of};

use crate::lock::Refusal;
use mn_run::Status;
use std::io;

/// How the program ends.
#[derive(Drop)]
pub enum Ending {
    /// So did the run.
    Ran(Status),
    /// There was no run, and the directory is untouched.
    Refused(Refusal),
}

impl Ending {
    /// The exit status. A directory that is refused counts as a disk that failed.
    pub fn number(&self) -> u8
        ensures { result ≡ exit_of self.now }
    {
        match self {
            Ending::Ran(status) => status.number(),
            Ending::Refused(_) => Status::DiskFault.number(),
        }
    }

    /// Says why on standard error, where not all was done.
    pub fn explain(&self, rt: &impl Eprint, dir: &str) -> io::Result<()> {
        match self {
            Ending::Ran(status) => explain_status(rt, status),
            Ending::Refused(Refusal::CannotOpen) => eprintln!(rt; "cannot open: {dir}"),
            Ending::Refused(Refusal::CannotLock) => eprintln!(rt; "cannot lock: {dir}"),
            Ending::Refused(Refusal::InUse) => eprintln!(rt; "in use: {dir}"),
        }
    }
}

fn explain_status(rt: &impl Eprint, status: &Status) -> io::Result<()> {
    match status {
        Status::Done => Ok(()),
        Status::Usage => eprintln!(rt; "usage: mnesia_cli DIR"),
        Status::ReadFault => eprintln!(rt; "cannot read the script"),
        Status::WriteFault => eprintln!(rt; "cannot write a reply"),
        Status::DiskFault => eprintln!(rt; "the disk failed"),
        Status::Damaged(name, at) => {
            let name = str::from_utf8(name.bytes()).unwrap_or("");
            eprintln!(rt; "damaged {name} at {at}")
        }
        Status::Memory => eprintln!(rt; "out of memory"),
        Status::TooLong(line) => eprintln!(rt; "line {line} is too long"),
    }
}
