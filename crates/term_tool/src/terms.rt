//! One term as text and as bytes.

ghost use Rattle.std.specs.Prelude.{◌≡◌, ◌++◌, ◌∷◌, length, string_bytes, IfOk, IfSome};
ghost use Rattle.hex.specs.Hex.{encode_lower};
ghost use Rattle.term_core.specs.View.{tree_of};
ghost use Rattle.term_core.specs.Written.{canon};
ghost use Rattle.term_text.specs.Places.{Stands};
ghost use Rattle.term_text.specs.Printing.{printed};

use std::alloc::Global;
use std::io::{self, ErrorKind};
use term_core::Term;
use term_text::{print_term, read_term};
use term_wire::encode;

/// The term that a whole line is a text of.
pub fn term_of(alloc: Global, line: &[u8]) -> Option<Term>
    ensures { IfSome result (λ term. Stands 100 line.now 0 (length line.now) (tree_of term)) }
{
    match read_term(alloc, line, 0) {
        Ok((term, end)) if end == line.len() => Some(term),
        _ => None,
    }
}

/// What is printed of a term.
pub fn text_of(alloc: Global, term: &Term) -> io::Result<Vec<u8>>
    ensures { IfOk result (λ text. text.items ≡ printed (tree_of term.now)) }
{
    let mut text = Vec::new(alloc);
    match print_term(term, &mut text) {
        Ok(()) => Ok(text),
        Err(_) => Err(ErrorKind::OutOfMemory.into()),
    }
}

/// The bytes that are written of a term.
pub fn bytes_of(alloc: Global, term: &Term) -> io::Result<Vec<u8>>
    ensures { IfOk result (λ bytes. bytes.items ≡ canon (tree_of term.now)) }
{
    let mut bytes = Vec::new(alloc);
    match encode(term, &mut bytes) {
        Ok(()) => Ok(bytes),
        Err(_) => Err(ErrorKind::InvalidInput.into()),
    }
}

/// Its text, a tab, and its bytes in hexadecimal.
pub fn line_of(alloc: Global, term: &Term) -> io::Result<Vec<u8>>
    ensures { IfOk result (λ line. line.items ≡ printed (tree_of term.now) ++ (9 ∷ encode_lower (canon (tree_of term.now)))) }
{
    let mut line = text_of(alloc, term)?;
    let bytes = bytes_of(alloc, term)?;
    let digits = hex::encode(alloc, &bytes)?;
    line.push(b'\t')?;
    line.extend_from_slice(digits.as_bytes())?;
    Ok(line)
}
