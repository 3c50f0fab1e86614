//! One program a directory, by an advisory lock on the directory itself.

ghost use Rattle.std.specs.Prelude.{◌≡◌, ◌↔◌, Err, IsErrOf, IsOk};

use std::fs::{self, File, TryLockError};
use std::io::{self, ErrorKind};
use std::rt::Files;

/// Why a directory is left alone.
#[derive(Clone, Copy)]
pub enum Refusal {
    /// It is not there, is no directory, or may not be read.
    CannotOpen,
    /// The system has no lock for it. Another program could not be told of this one then.
    CannotLock,
    /// Another program has the lock.
    InUse,
}

/// A directory whose lock is held as long as this is there.
#[derive(Drop)]
pub struct Locked {
    _directory: File,
}

impl Locked {
    /// Takes the lock of a directory, and does not wait for it.
    pub fn take<R: Files<File = File>>(rt: &R, dir: &str) -> Result<Locked, Refusal> {
        match opened(rt, dir) {
            Ok(directory) => {
                let outcome = directory.try_lock();
                Locked::by(directory, outcome)
            }
            Err(_) => Err(Refusal::CannotOpen),
        }
    }

    // What std answered to an attempt to lock the directory.
    fn by(directory: File, outcome: Result<(), TryLockError>) -> Result<Locked, Refusal>
        ensures held { IsOk result ↔ IsOk outcome }
        ensures in_use { IsErrOf result Refusal.InUse ↔ IsErrOf outcome TryLockError.WouldBlock }
        ensures open { IsErrOf result Refusal.CannotOpen → ⊥ }
    {
        match outcome {
            Ok(()) => Ok(Locked {
                _directory: directory,
            }),
            Err(TryLockError::WouldBlock) => Err(Refusal::InUse),
            Err(TryLockError::Error(_)) => Err(Refusal::CannotLock),
        }
    }
}

// What is no directory is not opened: to open a pipe would wait for its other end.
fn opened<R: Files>(rt: &R, dir: &str) -> io::Result<R::File> {
    if !fs::metadata(rt, dir)?.is_dir() {
        return Err(ErrorKind::NotADirectory.into());
    }
    fs::open(rt, dir)
}
