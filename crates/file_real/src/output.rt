//! Standard output.

ghost use Rattle.std.specs.Prelude.{◌≡◌, [], false};
ghost use Rattle.std.specs.Io.KnownBytes.{WriteAppends};
ghost use Rattle.file_trait.specs.Streams.{WriteCause};

use file_trait::{Sink, SinkErr};
use std::io::Write;

/// A writer of std's as a sink, such as standard output. As a sink it tells nothing of its bytes.
#[derive(Drop)]
pub struct HostOut<W: Write> {
    writer: W,
    faults: u64,
}

impl<W: Write> HostOut<W> {
    pub fn new(writer: W) -> HostOut<W>
        ensures writer { result.writer ≡ writer }
        ensures faults { result.faults ≡ 0 }
    {
        HostOut { writer, faults: 0 }
    }
}

impl<W: Write> Sink for HostOut<W> {
    ghost tells = { false };

    ghost written = { λ output. [] };

    ghost faults = { λ output. output.faults };

    // What a writer holds is known of some writers, and of those it is said here, so that no body can hide an error as bytes
    // that were taken.
    fn write(&mut self, bytes: &[u8]) -> Result<usize, SinkErr>
        ensures known { WriteAppends (W.contents self.old.writer) (W.contents self.new.writer) result bytes.now }
        ensures cause { WriteCause self.old.faults self.new.faults bytes.now result }
    {
        match self.writer.write(bytes) {
            Ok(0) if !bytes.is_empty() => {
                self.faults = self.faults.saturating_add(1);
                Ok(0)
            }
            Ok(count) => Ok(count),
            Err(_) => {
                self.faults = self.faults.saturating_add(1);
                Err(SinkErr::Failed)
            }
        }
    }
}
