//! Replies that are gathered, so that many of them take one write.

ghost use Rattle.std.specs.Prelude.{◌≡◌, [], Ok, IfErr, IsTrue};
ghost use Rattle.mn_run.specs.Asks.{Flushes, Causes, IsOfFlushing};

use crate::Status;
use file_trait::{Sink, SinkErr, write_all};

/// Writes what was gathered. Behind it nothing is gathered, also where the sink gave up, so that nothing is
/// written twice. The sink is not called where there is nothing to write.
#[tactic(auto, using(crate::proofs::Passing::some_passed))]
pub fn flush<K: Sink>(out: &mut K, text: &mut Vec<u8>) -> Result<(), Status>
    ensures printed { IsTrue K.tells
        → Flushes result text.old.items text.new.items (K.written out.old) (K.written out.new) }
    ensures write { Causes Status.WriteFault (K.faults out.old) (K.faults out.new) result }
    ensures only { IfErr result IsOfFlushing }
    ensures emptied { text.new.items ≡ [] }
    ensures idle { text.old.items ≡ [] → (result ≡ Ok tt) × (out.new ≡ out.old) }
{
    if text.is_empty() {
        return Ok(());
    }
    let written = write_all(out, text);
    text.clear();
    match written {
        Ok(()) => Ok(()),
        Err(SinkErr::Failed) => Err(Status::WriteFault),
        Err(SinkErr::Memory) => Err(Status::Memory),
    }
}
