//! What a line of a table is answered. Its first word says what stands behind it:
//!
//! ```text
//! text TEXT        a text of a term, up to the line's end
//! text_hex HEX ..  the bytes of such a text
//! hex HEX ..       bytes that a term is written as
//! order TEXT       a list of terms that are to be in their order
//! ```
//!
//! A term is answered by its text, a tab and its bytes, however it was written; anything else by the refusal and its place. A
//! group of digits may be COUNT*HEX, as 99*5b: then the answer is `same` where what is read is what would be written again, and
//! else `other`.

use crate::terms::{bytes_of, line_of, term_of, text_of};
use std::alloc::{AllocError, Global};
use std::io::{self, ErrorKind};
use term_core::Term;
use term_text::{TextErr, read_term};
use term_wire::{WireErr, decode};

// The bytes that a line tells, and whether some of them are told by a count.
#[derive(Drop)]
struct Told {
    bytes: Vec<u8>,
    repeats: bool,
}

impl Told {
    fn add(&mut self, alloc: Global, group: &str) -> io::Result<()> {
        let (count, digits) = match group.split_once('*') {
            Some((count, digits)) => {
                self.repeats = true;
                (number(count)?, digits)
            }
            None => (1, group),
        };
        let Ok(part) = hex::decode(alloc, digits) else {
            return Err(ErrorKind::InvalidData.into());
        };
        for _ in 0..count {
            self.bytes.extend_from_slice(&part)?;
        }
        Ok(())
    }
}

fn number(digits: &str) -> io::Result<u32> {
    match digits.parse() {
        Ok(number) => Ok(number),
        Err(_) => Err(ErrorKind::InvalidData.into()),
    }
}

fn bytes_told(alloc: Global, groups: &str) -> io::Result<Told> {
    let mut all = Told {
        bytes: Vec::new(alloc),
        repeats: false,
    };
    for group in groups.split(' ') {
        all.add(alloc, group)?;
    }
    Ok(all)
}

fn words(alloc: Global, text: &str) -> Result<Vec<u8>, AllocError> {
    Vec::from_slice(alloc, text.as_bytes())
}

fn place(alloc: Global, why: &str, at: usize) -> Result<Vec<u8>, AllocError> {
    let text = format!(in alloc; "{why} at {at}")?;
    words(alloc, text.as_str())
}

fn again(alloc: Global, read: &[u8], written: &[u8]) -> Result<Vec<u8>, AllocError> {
    words(alloc, if read == written { "same" } else { "other" })
}

fn text_refusal(alloc: Global, error: TextErr) -> io::Result<Vec<u8>> {
    match error {
        TextErr::Bad(at) => Ok(place(alloc, "bad", at)?),
        TextErr::WideInt(at) => Ok(place(alloc, "wide", at)?),
        TextErr::TooDeep(at) => Ok(place(alloc, "deep", at)?),
        TextErr::Memory => Err(ErrorKind::OutOfMemory.into()),
    }
}

fn answer_text(alloc: Global, told: &Told) -> io::Result<Vec<u8>> {
    match read_term(alloc, &told.bytes, 0) {
        Ok((_, end)) if end < told.bytes.len() => Ok(place(alloc, "ends", end)?),
        Ok((term, _)) if told.repeats => {
            let printed = text_of(alloc, &term)?;
            Ok(again(alloc, &told.bytes, &printed)?)
        }
        Ok((term, _)) => line_of(alloc, &term),
        Err(error) => text_refusal(alloc, error),
    }
}

fn bytes_refusal(alloc: Global, error: WireErr) -> io::Result<Vec<u8>> {
    match error {
        WireErr::Bad(at) => Ok(place(alloc, "bad", at)?),
        WireErr::Outside(_, at) => Ok(place(alloc, "outside", at)?),
        WireErr::WideInt(at) => Ok(place(alloc, "wide", at)?),
        WireErr::TooDeep(at) => Ok(place(alloc, "deep", at)?),
        WireErr::Memory => Err(ErrorKind::OutOfMemory.into()),
    }
}

fn answer_bytes(alloc: Global, told: &Told) -> io::Result<Vec<u8>> {
    match decode(alloc, &told.bytes) {
        Ok(term) if told.repeats => {
            let written = bytes_of(alloc, &term)?;
            Ok(again(alloc, &told.bytes, &written)?)
        }
        Ok(term) => line_of(alloc, &term),
        Err(error) => bytes_refusal(alloc, error),
    }
}

// Whether each two of the terms compare as their places do.
fn are_in_order(terms: &[Term]) -> bool {
    for (i, left) in terms.iter().enumerate() {
        for (j, right) in terms.iter().enumerate() {
            if left.cmp(right) != i.cmp(&j) {
                return false;
            }
        }
    }
    true
}

fn answer_order(alloc: Global, text: &str) -> io::Result<Vec<u8>> {
    let Some(term) = term_of(alloc, text.as_bytes()) else {
        return Err(ErrorKind::InvalidData.into());
    };
    let in_order = match &term {
        Term::List(items) => are_in_order(items.as_slice()),
        _ => false,
    };
    Ok(words(alloc, if in_order { "in order" } else { "not in order" })?)
}

/// The answer to a line, without its end.
pub fn answer_of(alloc: Global, line: &[u8]) -> io::Result<Vec<u8>> {
    let Ok(line) = str::from_utf8(line) else {
        return Err(ErrorKind::InvalidData.into());
    };
    let (word, rest) = line.split_once(' ').unwrap_or((line, ""));
    match word {
        "text" => {
            let bytes = words(alloc, rest)?;
            answer_text(
                alloc,
                &Told {
                    bytes,
                    repeats: false,
                },
            )
        }
        "text_hex" => answer_text(alloc, &bytes_told(alloc, rest)?),
        "hex" => answer_bytes(alloc, &bytes_told(alloc, rest)?),
        "order" => answer_order(alloc, rest),
        _ => Err(ErrorKind::InvalidData.into()),
    }
}
