//! What is done to the terms of standard input.

ghost use Rattle.std.specs.Prelude.{◌≡◌, OnOk};

use crate::answers::answer_of;
use crate::terms::{bytes_of, line_of, term_of, text_of};
use std::alloc::Global;
use std::io::{self, BufRead, BufReader, BufWriter, ErrorKind, Write};
use term_core::Term;
use term_wire::decode;

/// What is done to each term.
#[derive(Clone, Copy, Debug, PartialEq, Eq)]
pub enum Task {
    Show,
    Sort,
    Read,
    Print,
    Encode,
    Decode,
    Answer,
}

impl Task {
    /// The task of this name.
    pub fn named(name: &str) -> Option<Task> {
        match name {
            "show" => Some(Task::Show),
            "sort" => Some(Task::Sort),
            "read" => Some(Task::Read),
            "print" => Some(Task::Print),
            "encode" => Some(Task::Encode),
            "decode" => Some(Task::Decode),
            "answer" => Some(Task::Answer),
            _ => None,
        }
    }
}

/// The lines of standard input, without their ends.
fn lines_of(rt: &HostRuntime) -> io::Result<Vec<Vec<u8>>> {
    let alloc = rt.alloc();
    let mut lines = Vec::new(alloc);
    for line in BufReader::new(alloc, rt.reader())?.lines(alloc) {
        lines.push(Vec::from_slice(alloc, line?.as_bytes())?)?;
    }
    Ok(lines)
}

fn terms_of(alloc: Global, lines: &[Vec<u8>]) -> io::Result<Vec<Term>> {
    let mut terms = Vec::new(alloc);
    for line in lines {
        match term_of(alloc, line) {
            Some(term) => terms.push(term)?,
            None => return Err(ErrorKind::InvalidData.into()),
        }
    }
    Ok(terms)
}

fn show<W: Write>(alloc: Global, terms: &[Term], out: &mut W) -> io::Result<()> {
    for term in terms {
        out.write_all(&line_of(alloc, term)?)?;
        out.write_all(b"\n")?;
    }
    Ok(())
}

fn sort<W: Write>(alloc: Global, mut terms: Vec<Term>, out: &mut W) -> io::Result<()> {
    terms.sort_unstable();
    for term in &terms {
        out.write_all(&text_of(alloc, term)?)?;
        out.write_all(b"\n")?;
    }
    Ok(())
}

fn read(alloc: Global, lines: &[Vec<u8>], times: u32) -> io::Result<()> {
    for _ in 0..times {
        for line in lines {
            let _term = term_of(alloc, line);
        }
    }
    Ok(())
}

fn print(alloc: Global, terms: &[Term], times: u32) -> io::Result<()> {
    for _ in 0..times {
        for term in terms {
            let _text = text_of(alloc, term)?;
        }
    }
    Ok(())
}

fn write_bytes(alloc: Global, terms: &[Term], times: u32) -> io::Result<()> {
    for _ in 0..times {
        for term in terms {
            let _bytes = bytes_of(alloc, term)?;
        }
    }
    Ok(())
}

fn read_bytes(alloc: Global, terms: &[Term], times: u32) -> io::Result<()> {
    for term in terms {
        let bytes = bytes_of(alloc, term)?;
        for _ in 0..times {
            if decode(alloc, &bytes).is_err() {
                return Err(ErrorKind::InvalidData.into());
            }
        }
    }
    Ok(())
}

// Each line as it is where it is empty or a comment, and else its answer.
fn answer<W: Write>(alloc: Global, lines: &[Vec<u8>], out: &mut W) -> io::Result<()> {
    for line in lines {
        if line.is_empty() || line.starts_with(b"%") {
            out.write_all(line)?;
        } else {
            out.write_all(&answer_of(alloc, line)?)?;
        }
        out.write_all(b"\n")?;
    }
    Ok(())
}

/// Reads the terms and does the task.
pub fn run(rt: &HostRuntime, task: Task, times: u32) -> io::Result<()> {
    let alloc = rt.alloc();
    let lines = lines_of(rt)?;
    let mut out = BufWriter::new(alloc, io::writer(rt))?;
    if task == Task::Answer {
        answer(alloc, &lines, &mut out)?;
        return out.flush();
    }
    let terms = terms_of(alloc, &lines)?;
    match task {
        Task::Answer => (),
        Task::Show => show(alloc, &terms, &mut out)?,
        Task::Sort => sort(alloc, terms, &mut out)?,
        Task::Read => read(alloc, &lines, times)?,
        Task::Print => print(alloc, &terms, times)?,
        Task::Encode => write_bytes(alloc, &terms, times)?,
        Task::Decode => read_bytes(alloc, &terms, times)?,
    }
    out.flush()
}
