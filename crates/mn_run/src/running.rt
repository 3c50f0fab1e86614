//! The top call.

ghost use Rattle.std.specs.Prelude.{◌≡◌, ◌⊎◌, ◌↔◌, ◌≤◌, ◌<◌, map, string_bytes, length, IsTrue, IfErr, ℕ, List, []};
ghost use Rattle.file_trait.specs.Counts.{Rose};
ghost use Rattle.file_trait.specs.DiskModel.{reads};
ghost use Rattle.file_trait.specs.Touched.{Touches};
ghost use Rattle.txn_log.specs.Logs.{IsLogName};
ghost use Rattle.mn_node.specs.Durable.{Durable};
ghost use Rattle.mn_node.specs.Meaning.{Meaning, Means, IsBroken, stands};
ghost use Rattle.mn_run.specs.Asks.{Flushes, IsKeptOrGone, Causes, IsOfFlushing};
ghost use Rattle.mn_run.specs.Runs.{Ran, IsTrusted, EndsDamaged, unbegun, expected};
ghost use Rattle.mn_run.specs.Script.{plan_of};
ghost use Rattle.mn_run.specs.Sessions.{Gave, Finished, end_of, new_node};
ghost use Rattle.mn_run.specs.Words.{HasForm};

use crate::asks::{Ask, Place, next_ask};
use crate::commands::Line;
use crate::gathered::flush;
use crate::lines::Lines;
use crate::outcome::{Outcome, Status};
use crate::session::{MOST_GATHERED, Session};
use crate::words::has_form;
use file_trait::{Disk, Sink, Source};
use std::alloc::Global;

/// Starts a node on the disk, answers the commands of the script to its end, and stops the node. Replies are gathered,
/// and written before the script is read again.
///
/// Where the disk tells what it went through, the run is one of the machine, which keeps all entries as a plain list,
/// and at each moment a crash leaves a prefix of these entries that holds all which the last mark counts as durable.
/// Where the source tells its bytes, the events are those of the script, and where the sink does, the replies that are
/// written are the machine's.
///
/// Where the log of the directory is closed, a crash is to leave all of it: so it is where the directory was handed
/// over durable. And no table of the directory's database was made later than the database's version. `run` keeps the
/// first at each of its moments, and the second by each commit, so that a later run finds both again.
pub fn run<D: Disk, S: Source, K: Sink>(
    alloc: Global,
    words: &[String],
    disk: &mut D,
    script: &mut S,
    out: &mut K,
) -> Outcome
    ensures usage { (result.status ≡ Status.Usage) ↔ (HasForm (map string_bytes words.now) → ⊥) }
    ensures untouched { result.status ≡ Status.Usage
        → (disk.new ≡ disk.old) × (script.new ≡ script.old) × (out.new ≡ out.old) × (result.marks.items ≡ []) }

    // From what the directory means, the marks taken are those of one run of the machine over a start, the commands of
    // the script and its end, or the first of these, and so are the replies printed. The directory holds the run's
    // entries, and so does what a crash leaves of it at any moment, as far as the marks say.
    ensures ran { IsTrue D.tells → HasForm (map string_bytes words.now)
        → (meaning : Meaning) → Means (reads (D.past disk.old)) meaning → IsTrusted meaning (D.past disk.old)
        → Ran S.tells K.tells (S.left script.old) result.status
        (unbegun meaning (D.past disk.old) (D.faults disk.old)) (D.past disk.new) (D.faults disk.new)
        (K.written out.old) (K.written out.new) result.marks.items }

    // Damaged comes exactly where the directory has no meaning, with the place, unless the disk failed, memory was
    // wanting or another status ended the run before. Nothing is done to such a directory.
    ensures damaged { IsTrue D.tells
        → (meaning : Meaning) → Means (reads (D.past disk.old)) meaning → IsTrusted meaning (D.past disk.old)
        → (name : List ℕ) (at : ℕ)
        → result.status ≡ Status.Damaged name at → IsBroken (reads (D.past disk.old)) name at }
    ensures meaning { IsTrue D.tells → HasForm (map string_bytes words.now) → (name : List ℕ) (at : ℕ)
        → IsBroken (reads (D.past disk.old)) name at → EndsDamaged name at result.status }
    ensures kept { IsTrue D.tells → (name : List ℕ) (at : ℕ)
        → IsBroken (reads (D.past disk.old)) name at → D.past disk.new ≡ D.past disk.old }

    ensures read { result.status ≡ Status.ReadFault → Rose (S.faults script.old) (S.faults script.new) }
    ensures write { result.status ≡ Status.WriteFault → Rose (K.faults out.old) (K.faults out.new) }
    ensures disk { result.status ≡ Status.DiskFault → Rose (D.faults disk.old) (D.faults disk.new) }

    // No file but the log and its draft is touched, whatever the directory means.
    ensures frame { IsTrue D.tells → Touches IsLogName (D.past disk.old) (D.past disk.new) }

    // With words of the form, no fault and a directory with a meaning the script was read to its end or to the first
    // line over a limit, and all was answered, or want of memory ended the run.
    ensures complete { IsTrue D.tells → IsTrue S.tells → HasForm (map string_bytes words.now)
        → (w : Durable) → Means (reads (D.past disk.old)) (stands w) → IsTrusted (stands w) (D.past disk.old)
        → ¬ Rose (S.faults script.old) (S.faults script.new) → ¬ Rose (K.faults out.old) (K.faults out.new)
        → ¬ Rose (D.faults disk.old) (D.faults disk.new)
        → (result.status ≡ expected (plan_of (S.left script.old)).over) ⊎ (result.status ≡ Status.Memory) }
{
    let mut session = Session::new(alloc);
    if !has_form(words) {
        return Outcome {
            status: Status::Usage,
            marks: session.marks,
        };
    }
    let status = run_all(alloc, disk, script, out, &mut session);
    Outcome {
        status,
        marks: session.marks,
    }
}

/// The status of a run whose words have the form.
fn run_all<D: Disk, S: Source, K: Sink>(
    alloc: Global,
    disk: &mut D,
    script: &mut S,
    out: &mut K,
    session: &mut Session,
) -> Status
    requires node { session.old.node ≡ new_node }
    requires text { session.old.text.items ≡ [] }
    requires marks { session.old.marks.items ≡ [] }
    ensures ran { IsTrue D.tells
        → (meaning : Meaning) → Means (reads (D.past disk.old)) meaning → IsTrusted meaning (D.past disk.old)
        → Ran S.tells K.tells (S.left script.old) result
        (unbegun meaning (D.past disk.old) (D.faults disk.old)) (D.past disk.new) (D.faults disk.new)
        (K.written out.old) (K.written out.new) session.new.marks.items }
    ensures read { result ≡ Status.ReadFault → Rose (S.faults script.old) (S.faults script.new) }
    ensures write { result ≡ Status.WriteFault → Rose (K.faults out.old) (K.faults out.new) }
    ensures disk { result ≡ Status.DiskFault → Rose (D.faults disk.old) (D.faults disk.new) }
    ensures touches { IsTrue D.tells → Touches IsLogName (D.past disk.old) (D.past disk.new) }
    ensures form { result ≡ Status.Usage → ⊥ }
{
    match serve_all(alloc, disk, script, out, session) {
        Ok(status) => status,
        Err(status) => finish(out, &mut session.text, status),
    }
}

/// Writes what is gathered yet where a run ends. A sink that gives up then ends the run its own way.
#[tactic(auto, using(crate::proofs::Passing::given_up))]
fn finish<K: Sink>(out: &mut K, text: &mut Vec<u8>, status: Status) -> Status
    ensures finished { IsTrue K.tells
        → Finished status result text.old.items (K.written out.old) (K.written out.new) }
    ensures only { (result ≡ status) ⊎ IsOfFlushing result }
    ensures write { (result ≡ Status.WriteFault → ⊥)
        ⊎ (status ≡ Status.WriteFault) ⊎ Rose (K.faults out.old) (K.faults out.new) }
    ensures later { K.faults out.old ≤ K.faults out.new }
{
    match flush(out, text) {
        Ok(()) => status,
        Err(failed) => failed,
    }
}

/// Starts the node, answers the lines of the script, and stops the node at the script's end: so the run ended. Another
/// status ends it before that, and then some lines may be gathered yet.
fn serve_all<D: Disk, S: Source, K: Sink>(
    alloc: Global,
    disk: &mut D,
    script: &mut S,
    out: &mut K,
    session: &mut Session,
) -> Result<Status, Status>
    requires node { session.old.node ≡ new_node }
    requires text { session.old.text.items ≡ [] }
    requires marks { session.old.marks.items ≡ [] }
    ensures gave { IsTrue D.tells
        → (meaning : Meaning) → Means (reads (D.past disk.old)) meaning → IsTrusted meaning (D.past disk.old)
        → Gave S.tells K.tells (S.left script.old) result
        (unbegun meaning (D.past disk.old) (D.faults disk.old)) (D.past disk.new) (D.faults disk.new)
        (K.written out.old) (K.written out.new) session.new.text.items session.new.marks.items }
    ensures read { end_of result ≡ Status.ReadFault → Rose (S.faults script.old) (S.faults script.new) }
    ensures write { end_of result ≡ Status.WriteFault → Rose (K.faults out.old) (K.faults out.new) }
    ensures write_later { K.faults out.old ≤ K.faults out.new }
    ensures disk { end_of result ≡ Status.DiskFault → Rose (D.faults disk.old) (D.faults disk.new) }
    ensures touches { IsTrue D.tells → Touches IsLogName (D.past disk.old) (D.past disk.new) }
    ensures form { end_of result ≡ Status.Usage → ⊥ }
{
    session.serve(alloc, disk, Line::Start, 0)?;
    let mut lines = Lines::new();
    let mut line = Vec::new(alloc);
    let mut place = Place {
        lines: 0,
        commands: 0,
    };
    'lines: loop {
        match next_ask(
            alloc,
            &mut lines,
            &mut line,
            script,
            &mut place,
            &mut session.text,
            out,
        )? {
            // Where the script ends nothing is gathered.
            Ask::End => return Ok(session.end(alloc, disk, place.commands)),
            Ask::Blank => {}
            Ask::Do(line) => {
                flush_much(out, &mut session.text)?;
                session.serve(alloc, disk, line, place.commands)?;
            }
        }
    }
}

/// Writes what is gathered where that is much.
#[tactic(auto, using(crate::proofs::Passing::none_passed))]
fn flush_much<K: Sink>(out: &mut K, text: &mut Vec<u8>) -> Result<(), Status>
    ensures printed { IsTrue K.tells
        → Flushes result text.old.items text.new.items (K.written out.old) (K.written out.new) }
    ensures write { Causes Status.WriteFault (K.faults out.old) (K.faults out.new) result }
    ensures gathered { IsKeptOrGone text.old.items text.new.items }
    ensures few { length text.new.items < MOST_GATHERED }
    ensures only { IfErr result IsOfFlushing }
{
    if text.len() < MOST_GATHERED {
        return Ok(());
    }
    flush(out, text)
}
