//! The durable side of Mnesia on one node. `mnesia_cli DIR` reads commands from standard input, keeps their tables in
//! the directory DIR, and answers each with a line. Its exit status is the status of the run. One program at a time works on a
//! directory.
#![tactic(auto)]

ghost use Rattle.std.specs.Prelude.{◌≡◌, ◌↔◌, ◌∷◌, [], IfSome, IsSome, IsTrue, map, string_bytes};
ghost use Rattle.mn_run.specs.Words.{HasForm};

use ending::Ending;
use file_real::{HostDisk, HostIn, HostOut};
use lock::Locked;
use mn_run::{Status, run};
use std::fs::File;
use std::process::ExitCode;
use std::rt::{Env, Files};
use std::{env, fs, io};

mod ending;
mod lock;

const MOST_BYTES: usize = 4096;

// The arguments without the program's name.
fn words_of<R: Env + AllocGlobal>(rt: &R) -> io::Result<Vec<String>> {
    let mut words = env::args(rt)?;
    let _program = words.next();
    Ok(words.collect(rt.alloc())?)
}

fn is_directory(word: &str) -> bool
    ensures { IsTrue result ↔ HasForm (word.now ∷ []) }
{
    let bytes = word.as_bytes();
    !bytes.is_empty() && bytes.len() <= MOST_BYTES && bytes[0] != b'-'
}

// The directory that the words name, none where they are not of the form.
fn directory(words: &[String]) -> Option<&str>
    ensures form { IsSome result ↔ HasForm (map string_bytes words.now) }
    ensures named { IfSome result (λ dir. map string_bytes words.now ≡ dir.now ∷ []) }
{
    match words {
        [dir] if is_directory(dir.as_str()) => Some(dir.as_str()),
        _ => None,
    }
}

// Three open directories.
#[derive(Drop)]
struct Taken<R: Files> {
    _first: R::File,
    _second: R::File,
    _third: R::File,
}

// Takes the numbers of standard input, output and error where those are closed, so that no file of the directory gets one of
// them, and is read as the script or written as a reply. A directory can be neither read nor written that way.
fn take_closed<R: Files>(rt: &R) -> io::Result<Taken<R>> {
    Ok(Taken {
        _first: fs::open(rt, "/")?,
        _second: fs::open(rt, "/")?,
        _third: fs::open(rt, "/")?,
    })
}

// Runs the script on the directory that the words name. Before its lock is taken nothing is done with it.
fn run_on<R: Files<File = File> + Input + Print + AllocGlobal>(rt: &R, words: &[String]) -> Ending
    ensures usage { (result ≡ Ending.Ran Status.Usage) ↔ (HasForm (map string_bytes words.now) → ⊥) }
{
    let Some(dir) = directory(words) else {
        return Ending::Ran(Status::Usage);
    };
    let Ok(_taken) = take_closed(rt) else {
        return Ending::Ran(Status::Memory);
    };
    match Locked::take(rt, dir) {
        Ok(lock) => Ending::Ran(run_locked(rt, words, dir, &lock)),
        Err(refusal) => Ending::Refused(refusal),
    }
}

fn run_locked<R: Files + Input + Print + AllocGlobal>(
    rt: &R,
    words: &[String],
    dir: &str,
    _lock: &Locked,
) -> Status
    requires form { HasForm (map string_bytes words.now) }
    requires named { map string_bytes words.now ≡ dir.now ∷ [] }
    ensures form { result ≡ Status.Usage → ⊥ }
{
    let alloc = rt.alloc();
    let Ok(mut disk) = HostDisk::new(rt, alloc, dir) else {
        return Status::Memory;
    };
    let (mut script, mut out) = (HostIn::new(rt.reader()), HostOut::new(io::writer(rt)));
    run(alloc, words, &mut disk, &mut script, &mut out).status
}

// Ends the program, with the reason on standard error.
fn ended(rt: &impl Eprint, ending: &Ending, dir: &str) -> ExitCode {
    let _ = ending.explain(rt, dir);
    ExitCode::from(ending.number())
}

fn main(rt: HostRuntime) -> ExitCode {
    match words_of(&rt) {
        Ok(words) => ended(&rt, &run_on(&rt, &words), directory(&words).unwrap_or("")),
        Err(error) if error.kind() == io::ErrorKind::OutOfMemory => {
            ended(&rt, &Ending::Ran(Status::Memory), "")
        }
        // An argument that is no text.
        Err(_) => ended(&rt, &Ending::Ran(Status::Usage), ""),
    }
}
