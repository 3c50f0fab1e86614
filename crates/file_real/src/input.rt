//! Standard input.

ghost use Rattle.std.specs.Prelude.{◌≡◌, ◌≤◌, [], false, length, IfOk};
ghost use Rattle.std.specs.Io.KnownBytes.{ReadConsumes};
ghost use Rattle.file_trait.specs.Streams.{ReadCause};

use file_trait::{Source, SrcErr};
use std::io::Read;

/// A reader of std's as a source, such as standard input. As a source it tells nothing of its bytes.
#[derive(Drop)]
pub struct HostIn<T: Read> {
    reader: T,
    faults: u64,
}

impl<T: Read> HostIn<T> {
    pub fn new(reader: T) -> HostIn<T>
        ensures reader { result.reader ≡ reader }
        ensures faults { result.faults ≡ 0 }
    {
        HostIn { reader, faults: 0 }
    }
}

impl<T: Read> Source for HostIn<T> {
    ghost tells = { false };

    ghost left = { λ input. [] };

    ghost faults = { λ input. input.faults };

    // What the reader's next bytes are is known of some readers, and of those it is said here, so that no body can hide an
    // error as the end.
    fn read(&mut self, into: &mut [u8]) -> Result<usize, SrcErr>
        ensures short { IfOk result (λ n. n ≤ length into.new) }
        ensures known { ReadConsumes (T.remaining self.old.reader) (T.remaining self.new.reader) result into.new }
        ensures cause { ReadCause self.old.faults self.new.faults result }
    {
        match self.reader.read(into) {
            Ok(count) => Ok(count),
            Err(_) => {
                self.faults = self.faults.saturating_add(1);
                Err(SrcErr::Failed)
            }
        }
    }
}
