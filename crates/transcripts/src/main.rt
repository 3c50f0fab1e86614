//! Plays transcripts over a disk in memory: files of text that show scripts, the replies to them and what the
//! directory has then, as a person would write them down. Prints a line for each file that the words name, which is
//! `NAME: ok`, or the line of the file at which something else came. The exit status is 1 where a transcript is not as
//! it is played, and 2 where a file cannot be read.
//!
//! A line of a transcript is one of these:
//!
//! ```text
//! % TEXT                          a comment; an empty line separates
//! > LINE                          a line of the script (`>` alone: an empty one)
//! REPLY                           any other line: what the run prints next
//! = again                         a new run on the same directory
//! = anew                          a new run on another directory, which is empty
//! = words WORD ..                 the run's words, `dir` where this is not said
//! = line COUNT                    a line of the script of so many letters x
//! = status NUMBER                 the run's exit status, 0 where this is not said
//! = damaged NAME PLACE            the exit status 5, at this place of this file
//! = too long LINE                 the exit status 7, at this line of the script
//! = file NAME HEX ..              a file that the directory has before the first run
//! = holds NAME HEX ..             the run has ended, and the file reads so
//! = no file NAME                  the run has ended, and there is no such file
//! = more HEX ..                   further bytes of the file above
//! = fail CALL keeping COUNT       of the disk's calls behind the lines above, from 1, this one fails; of an append so
//!                                 many bytes stay
//! = lose CALL                     this one fails, and where it is a sync it loses what was pending
//! = source fails                  the script cannot be read behind its lines
//! = sink fails                    the replies above are all that can be printed, the last one without its end
//! = crash CHOICE                  the machine stops behind the last reply above, and a new run begins on what is left
//! = crash COUNT CHOICE            the same, so many operations of the disk later
//! = or CHOICE                     a new run on something else that the same crash may leave
//! ```
//!
//! A CHOICE says what a crash leaves of what was not durable: `nothing`, `everything`, all of it but each append as
//! `zeros` or as `other-bytes` or the `first-as-zeros`, the `appends-alone`, the `marks-alone`, or
//! `front DIR FILE BYTES`: the first so many operations of the directory, the first so many of each file, and so many
//! bytes of the append behind these.
#![tactic(auto)]

mod choices;
mod directives;
mod player;
mod playing;
mod runs;
mod steps;
mod trouble;

use player::play;
use std::process::ExitCode;
use std::{env, fs, io};

// The arguments without the program's name.
fn names_of(rt: &HostRuntime) -> io::Result<Vec<String>> {
    let mut words = env::args(rt)?;
    let _program = words.next();
    Ok(words.collect(rt.alloc())?)
}

// Whether the transcript of this file is as it is played, which is printed.
fn is_as_played(rt: &HostRuntime, name: &str) -> io::Result<bool> {
    let text = fs::read_to_string(rt, name)?;
    match play(rt.alloc(), text.as_str()) {
        Ok(()) => {
            println!(rt; "{name}: ok")?;
            Ok(true)
        }
        Err(trouble) => {
            println!(rt; "{name}: {trouble}")?;
            Ok(false)
        }
    }
}

fn are_as_played(rt: &HostRuntime) -> io::Result<bool> {
    let mut are = true;
    for name in &names_of(rt)? {
        if !is_as_played(rt, name.as_str())? {
            are = false;
        }
    }
    Ok(are)
}

fn main(rt: HostRuntime) -> ExitCode {
    match are_as_played(&rt) {
        Ok(true) => ExitCode::SUCCESS,
        Ok(false) => ExitCode::FAILURE,
        Err(error) => {
            let _ = eprintln!(&rt; "{error}");
            ExitCode::from(2)
        }
    }
}
