//! A run as it is played over a disk in memory.

use crate::choices::everything;
use crate::runs::{Fault, Reply, Run};
use crate::trouble::Trouble;
use file_mem::{MemDisk, MemSink, MemSource};
use file_trait::Disk;
use mn_run::{Outcome, Status, run};
use std::alloc::{AllocError, Global};

const PIECE: usize = 4096;

fn words_of(alloc: Global, text: &str) -> Result<Vec<String>, AllocError> {
    let mut words = Vec::new(alloc);
    for word in text.split(' ') {
        if !word.is_empty() {
            words.push(String::from_str(alloc, word)?)?;
        }
    }
    Ok(words)
}

// How many bytes the sink takes before it fails: all of the replies but the end of the last one.
fn bytes_of(replies: &[Reply<'_>]) -> usize {
    let mut bytes = 0usize;
    for reply in replies {
        bytes = bytes.saturating_add(reply.text.len()).saturating_add(1);
    }
    bytes.saturating_sub(1)
}

// The call that fails where each call takes one byte and so many go well.
fn behind(bytes: usize) -> Option<u64> {
    Some((bytes as u64).saturating_add(1))
}

fn source_of(script: &[u8], fails: bool) -> MemSource<'_> {
    if fails {
        MemSource::new(script, 1, behind(script.len()))
    } else {
        MemSource::new(script, PIECE, None)
    }
}

fn sink_of(alloc: Global, run: &Run<'_>) -> MemSink {
    if run.sink_fails {
        MemSink::new(alloc, 1, behind(bytes_of(&run.replies)))
    } else {
        MemSink::new(alloc, PIECE, None)
    }
}

// A run of this script, and what it wrote.
fn ran(
    alloc: Global,
    told: &Run<'_>,
    disk: &mut MemDisk,
    script: &[u8],
    source_fails: bool,
) -> Result<(Outcome, Vec<u8>), AllocError> {
    let words = words_of(alloc, told.words)?;
    let mut source = source_of(script, source_fails);
    let mut sink = sink_of(alloc, told);
    let outcome = run(alloc, &words, disk, &mut source, &mut sink);
    Ok((outcome, sink.bytes().to_vec(alloc)?))
}

// How many calls of the disk the run takes for the first so many bytes of its script. They are run on a copy of the
// disk, and the source fails behind them, so that the node is not stopped.
fn calls_of(alloc: Global, told: &Run<'_>, disk: &MemDisk, len: usize) -> Result<u64, AllocError> {
    let copy = disk.image(disk.clock(), &everything(alloc))?;
    match (copy, told.script.get(..len)) {
        (Some(mut copy), Some(script)) => {
            ran(alloc, told, &mut copy, script, true)?;
            Ok(copy.calls())
        }
        _ => Ok(0),
    }
}

// Lets the call fail that is named.
fn let_fail(
    alloc: Global,
    told: &Run<'_>,
    disk: &mut MemDisk,
    fault: &Fault,
) -> Result<(), AllocError> {
    let before = match fault.behind {
        Some(len) => calls_of(alloc, told, disk, len)?,
        None => 0,
    };
    let call = disk
        .calls()
        .saturating_add(before)
        .saturating_add(fault.call);
    match fault.kept {
        Some(kept) => disk.fail_at(call, kept),
        None => disk.lose_at(call),
    }
}

// The whole run, with the fault that is told of.
fn ran_whole(
    alloc: Global,
    told: &Run<'_>,
    disk: &mut MemDisk,
) -> Result<(Outcome, Vec<u8>), AllocError> {
    if let Some(fault) = &told.fault {
        let_fail(alloc, told, disk, fault)?;
    }
    ran(alloc, told, disk, &told.script, told.source_fails)
}

// The lines that were written, and behind the end of the last one an empty one.
fn lines_of<'a>(alloc: Global, written: &'a [u8]) -> Result<Vec<&'a str>, AllocError> {
    str::from_utf8(written)
        .unwrap_or("bytes that are no text")
        .split('\n')
        .collect(alloc)
}

fn compare_replies(alloc: Global, replies: &[Reply<'_>], lines: &[&str]) -> Result<(), Trouble> {
    for (i, reply) in replies.iter().enumerate() {
        let came = lines.get(i).copied().unwrap_or("");
        if came != reply.text {
            return Err(Trouble::differs(alloc, reply.line, reply.text, came));
        }
    }
    Ok(())
}

// Nothing is printed behind the replies, and the last one has its end but where the sink failed.
fn compare_end(alloc: Global, told: &Run<'_>, lines: &[&str], line: usize) -> Result<(), Trouble> {
    let wanted = if told.sink_fails { None } else { Some("") };
    let came = lines.get(told.replies.len()).copied();
    if came == wanted {
        return Ok(());
    }
    Err(Trouble::differs(
        alloc,
        line,
        "no further reply",
        came.unwrap_or("the end in the midst of a reply"),
    ))
}

// A status as the directives name it.
fn status_text(alloc: Global, status: &Status) -> Result<String, AllocError> {
    match status {
        Status::Damaged(name, at) => {
            let name = str::from_utf8(name.bytes()).unwrap_or("");
            format!(in alloc; "damaged {name} {at}")
        }
        Status::TooLong(line) => format!(in alloc; "too long {line}"),
        _ => {
            let number = status.number();
            format!(in alloc; "status {number}")
        }
    }
}

fn compare_status(
    alloc: Global,
    told: &Run<'_>,
    status: &Status,
    line: usize,
) -> Result<(), Trouble> {
    if *status == told.status {
        return Ok(());
    }
    let expected = status_text(alloc, &told.status)?;
    let came = status_text(alloc, status)?;
    let line = told.status_line.unwrap_or(line);
    Err(Trouble::differs(alloc, line, expected.as_str(), came.as_str()))
}

/// Plays a run to its end, which the transcript has at this line.
pub fn play_to_end(
    alloc: Global,
    told: &Run<'_>,
    disk: &mut MemDisk,
    line: usize,
) -> Result<(), Trouble> {
    let (outcome, written) = ran_whole(alloc, told, disk)?;
    let lines = lines_of(alloc, &written)?;
    compare_replies(alloc, &told.replies, &lines)?;
    compare_end(alloc, told, &lines, line)?;
    compare_status(alloc, told, &outcome.status, line)
}

/// Plays a run, and answers the disk's clock behind its last reply. What is printed later is not compared, nor how it
/// ends.
pub fn play_to_reply(
    alloc: Global,
    told: &Run<'_>,
    disk: &mut MemDisk,
    line: usize,
) -> Result<u64, Trouble> {
    let begun = disk.clock();
    let (outcome, written) = ran_whole(alloc, told, disk)?;
    let lines = lines_of(alloc, &written)?;
    compare_replies(alloc, &told.replies, &lines)?;
    let Some(last) = told.replies.len().checked_sub(1) else {
        return Ok(begun);
    };
    match outcome.marks.get(last as u64) {
        Some(mark) => Ok(mark.clock),
        None => Err(Trouble::ill(alloc, line, "the run ended before")),
    }
}
