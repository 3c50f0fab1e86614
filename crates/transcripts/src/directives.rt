//! A line that directs, as a step.

use crate::choices::choice_of;
use crate::steps::Step;
use file_trait::FileName;
use mn_run::Status;
use std::alloc::Global;

/// What a line says behind its `= `.
pub fn directive<'a>(alloc: Global, text: &'a str) -> Option<Step<'a>> {
    let (word, rest) = text.split_once(' ').unwrap_or((text, ""));
    match word {
        "again" => only(rest, "", Step::Again),
        "anew" => only(rest, "", Step::Anew),
        "words" => Some(Step::Words(rest)),
        "line" => Some(Step::LongLine(rest.parse().ok()?)),
        "status" => Some(Step::Ends(status(rest)?)),
        "damaged" => Some(Step::Ends(damaged(rest)?)),
        "too" => Some(Step::Ends(too_long(rest)?)),
        "file" => {
            let (name, bytes) = file(alloc, rest)?;
            Some(Step::File(name, bytes))
        }
        "holds" => {
            let (name, bytes) = file(alloc, rest)?;
            Some(Step::Holds(name, bytes))
        }
        "no" => Some(Step::Lacks(named(rest.strip_prefix("file ")?)?)),
        "more" => Some(Step::More(bytes_of(alloc, rest)?)),
        "fail" => fail(rest),
        "lose" => Some(Step::Loses(rest.parse().ok()?)),
        "source" => only(rest, "fails", Step::SourceFails),
        "sink" => only(rest, "fails", Step::SinkFails),
        "crash" => crash(alloc, rest),
        "or" => Some(Step::Or(choice_of(alloc, rest)?)),
        _ => None,
    }
}

// The step, where the text behind its word is this.
fn only<'a>(text: &str, expected: &str, step: Step<'a>) -> Option<Step<'a>> {
    if text == expected { Some(step) } else { None }
}

// The statuses that carry nothing.
fn status(number: &str) -> Option<Status> {
    match number {
        "0" => Some(Status::Done),
        "1" => Some(Status::Usage),
        "2" => Some(Status::ReadFault),
        "3" => Some(Status::WriteFault),
        "4" => Some(Status::DiskFault),
        "6" => Some(Status::Memory),
        _ => None,
    }
}

fn damaged(text: &str) -> Option<Status> {
    let (name, place) = text.split_once(' ')?;
    Some(Status::Damaged(named(name)?, place.parse().ok()?))
}

fn too_long(text: &str) -> Option<Status> {
    Some(Status::TooLong(text.strip_prefix("long ")?.parse().ok()?))
}

fn named(text: &str) -> Option<FileName> {
    FileName::new(text.as_bytes())
}

fn file(alloc: Global, text: &str) -> Option<(FileName, Vec<u8>)> {
    let (name, bytes) = text.split_once(' ').unwrap_or((text, ""));
    Some((named(name)?, bytes_of(alloc, bytes)?))
}

// The bytes of groups of hexadecimal digits.
fn bytes_of(alloc: Global, text: &str) -> Option<Vec<u8>> {
    let mut bytes = Vec::new(alloc);
    for group in text.split(' ') {
        bytes
            .extend_from_slice(&hex::decode(alloc, group).ok()?)
            .ok()?;
    }
    Some(bytes)
}

fn fail<'a>(text: &str) -> Option<Step<'a>> {
    let (call, kept) = text.split_once(" keeping ")?;
    Some(Step::Fails(call.parse().ok()?, kept.parse().ok()?))
}

// A count may stand before the choice.
fn crash<'a>(alloc: Global, text: &str) -> Option<Step<'a>> {
    if let Some((count, choice)) = text.split_once(' ') {
        if let Ok(count) = count.parse() {
            return Some(Step::Crash(count, choice_of(alloc, choice)?));
        }
    }
    Some(Step::Crash(0, choice_of(alloc, text)?))
}
