//! A reader from the left.

ghost use Rattle.std.specs.Prelude.{◌≡◌, ◌≤◌, ℕ, length, take, map, IfOk, IfErr, IsTrue};
ghost use Rattle.std.specs.List.{prefix_len};
ghost use Rattle.std.specs.Str.{chars, IsAscii};
ghost use Rattle.term_core.specs.Tree.{Tree, atom};
ghost use Rattle.term_core.specs.View.{tree_of};
ghost use Rattle.term_text.specs.Grammar.{begins, is_name_byte};
ghost use Rattle.term_text.specs.Places.{Answers, Stands, left_of, placed, read};
ghost use Rattle.term_text.specs.Reading.{Gives, may_begin_character, may_begin_term, name_at, quoted_atom_at, string_at, byte_string_at, bytes_at, binary_at, elements_at, inner_at, tuple_at, list_at, begun_at, term_at};

use crate::characters::{MOST_CHARACTERS, code_points_of, name_of, narrow_characters_of};
use crate::error::TextErr;
use crate::fault::{Fault, ReadErr};
use crate::numbers::{number_of, numbers_of};
use crate::tokens::{bad, behind, byte_of, is_name_byte, more_of, unblanked};
use sqlite_items::Items;
use std::alloc::Global;
use term_core::{Atom, Term, TermErr};

/// The levels of the deepest term that stands alone.
const MOST_LEVELS: u32 = 100;

/// Reads the term that begins at this place, and answers it and the place behind its last byte.
pub fn read_term(alloc: Global, text: &[u8], at: usize) -> Result<(Term, usize), TextErr>
    requires { at ≤ length text.now }
    // What is read stands there, up to the place that is answered.
    ensures found { IfOk result (λ x. Stands 100 text.now at x.1 (tree_of x.0)) }
    // What stands there is read, unless memory runs out.
    ensures only { (t : Tree) (behind : ℕ) → Stands 100 text.now at behind t → Answers result (Ok (t, behind)) }
    // Which refusal it is, and at which place.
    ensures exact { Answers result (read 100 text.now at) }
{
    read_term_within(alloc, MOST_LEVELS, text, at)
}

/// The same of a term of at most so many levels, as one within another term has fewer.
pub fn read_term_within(
    alloc: Global,
    levels: u32,
    text: &[u8],
    at: usize,
) -> Result<(Term, usize), TextErr>
    requires { at ≤ length text.now }
    // What is read stands there, up to the place that is answered.
    ensures found { IfOk result (λ x. Stands levels text.now at x.1 (tree_of x.0)) }
    // What stands there is read, unless memory runs out.
    ensures only { (t : Tree) (behind : ℕ) → Stands levels text.now at behind t → Answers result (Ok (t, behind)) }
    // Which refusal it is, and at which place.
    ensures exact { Answers result (read levels text.now at) }
{
    read_from(alloc, levels, text, at)
}

fn read_from(alloc: Global, levels: u32, text: &[u8], at: usize) -> Result<(Term, usize), TextErr>
    requires { at ≤ length text.now }
    ensures { Answers result (read levels text.now at) }
{
    let (_, bytes) = text.split_at(at);
    match term_of(alloc, levels, bytes) {
        Ok((term, rest)) => Ok((term, text.len() - rest.len())),
        Err(ReadErr::Fault(fault)) => Err(place(fault, text.len())),
        Err(ReadErr::Memory) => Err(TextErr::Memory),
    }
}

/// The refusal for a fault in a text that ends there.
fn place(fault: Fault, end: usize) -> TextErr
    requires { left_of fault ≤ end }
    ensures { result ≡ placed end fault }
{
    match fault {
        Fault::Bad(left) => TextErr::Bad(end - left),
        Fault::WideInt(left) => TextErr::WideInt(end - left),
        Fault::TooDeep(left) => TextErr::TooDeep(end - left),
    }
}

/// A term at the front, which may nest over so many levels.
#[cycle(term)]
#[tactic(auto, using(crate::proofs::Loop::term_at_zero, crate::proofs::Loop::term_at_below))]
fn term_of(alloc: Global, levels: u32, bytes: &[u8]) -> Result<(Term, &[u8]), ReadErr>
    ensures { Gives (λ x. (tree_of x.0, x.1.now)) result (term_at levels bytes.now) }
{
    if levels > 0 {
        return begun_of(alloc, levels - 1, bytes);
    }
    if begins_term(bytes) {
        return Err(ReadErr::Fault(Fault::TooDeep(bytes.len())));
    }
    Err(bad(bytes.len()))
}

fn begins_term(bytes: &[u8]) -> bool
    ensures { result ≡ begins may_begin_term bytes.now }
{
    match bytes {
        [
            b'a'..=b'z' | b'\'' | b'"' | b'{' | b'[' | b'<' | b'-' | b'0'..=b'9',
            ..
        ] => true,
        _ => false,
    }
}

/// The same by its first byte, where the terms inside may nest over so many levels.
#[cycle(term)]
#[tactic(auto, unfolding(crate::specs::Reading::begun_at))]
fn begun_of(alloc: Global, levels: u32, bytes: &[u8]) -> Result<(Term, &[u8]), ReadErr>
    ensures { Gives (λ x. (tree_of x.0, x.1.now)) result (begun_at (term_at levels) levels bytes.now) }
{
    match bytes {
        [b'a'..=b'z', ..] => bare_atom_of(alloc, bytes),
        [b'\'', rest @ ..] => quoted_atom_of(alloc, rest),
        [b'"', rest @ ..] => string_of(alloc, levels, rest),
        [b'{', rest @ ..] => tuple_of(alloc, levels, rest),
        [b'[', rest @ ..] => list_of(alloc, levels, rest),
        [b'<', rest @ ..] => binary_of(alloc, rest),
        _ => number_of(bytes),
    }
}

#[cycle(term)]
#[tactic(auto, unfolding(crate::specs::Reading::tuple_at))]
fn tuple_of(alloc: Global, levels: u32, bytes: &[u8]) -> Result<(Term, &[u8]), ReadErr>
    ensures { Gives (λ x. (tree_of x.0, x.1.now)) result (tuple_at (term_at levels) bytes.now) }
{
    let (items, rest) = items_of(alloc, levels, b'}', bytes)?;
    Ok((Term::Tuple(items), rest))
}

#[cycle(term)]
#[tactic(auto, unfolding(crate::specs::Reading::list_at))]
fn list_of(alloc: Global, levels: u32, bytes: &[u8]) -> Result<(Term, &[u8]), ReadErr>
    ensures { Gives (λ x. (tree_of x.0, x.1.now)) result (list_at (term_at levels) bytes.now) }
{
    let (items, rest) = items_of(alloc, levels, b']', bytes)?;
    Ok((Term::List(items), rest))
}

/// Terms behind an opening byte, up to the closing one.
#[cycle(term)]
#[tactic(auto, unfolding(crate::specs::Reading::inner_at))]
fn items_of(
    alloc: Global,
    levels: u32,
    close: u8,
    bytes: &[u8],
) -> Result<(Items<Term>, &[u8]), ReadErr>
    ensures { Gives (λ x. (map tree_of x.0, x.1.now)) result (inner_at (term_at levels) close bytes.now) }
{
    if let Some(rest) = behind(close, unblanked(bytes)) {
        return Ok((Items::new(alloc), rest));
    }
    some_items_of(alloc, levels, close, bytes)
}

/// The same of at least one term. Each takes room, so that they are no more than the bytes.
#[cycle(term)]
fn some_items_of(
    alloc: Global,
    levels: u32,
    close: u8,
    bytes: &[u8],
) -> Result<(Items<Term>, &[u8]), ReadErr>
    ensures { Gives (λ x. (map tree_of x.0, x.1.now)) result (elements_at (term_at levels) close (length bytes.now) bytes.now) }
{
    let mut items = Items::new(alloc);
    let mut rest = bytes;
    for _ in 0..bytes.len() {
        let (term, after) = term_of(alloc, levels, unblanked(rest))?;
        items.push(term)?;
        let (more, after) = more_of(close, unblanked(after))?;
        if !more {
            return Ok((items, after));
        }
        rest = after;
    }
    Err(bad(rest.len()))
}

/// How many name bytes are in front.
#[tactic(auto, using(crate::proofs::Fronts::prefix_within, crate::proofs::Fronts::names_are_ascii))]
fn name_length(bytes: &[u8]) -> usize
    ensures count { result ≡ prefix_len is_name_byte bytes.now }
    ensures within { result ≤ length bytes.now }
    ensures ascii { IsAscii (take result bytes.now) }
{
    bytes.iter().take_while(|byte| is_name_byte(**byte)).count()
}

/// A name of at most 255 bytes.
#[tactic(auto, using(crate::proofs::Fronts::ascii_is_utf8, crate::proofs::Fronts::length_chars_ascii, crate::proofs::Fronts::name_long), unfolding(crate::specs::Reading::name_at))]
fn bare_atom_of(alloc: Global, bytes: &[u8]) -> Result<(Term, &[u8]), ReadErr>
    ensures { Gives (λ x. (tree_of x.0, x.1.now)) result (name_at bytes.now) }
{
    let count = name_length(bytes);
    if count > MOST_CHARACTERS {
        return Err(bad(bytes.len() - MOST_CHARACTERS));
    }
    let (name, rest) = bytes.split_at(count);
    match str::from_utf8(name) {
        Ok(name) => Ok((atom_named(alloc, name)?, rest)),
        Err(_) => unreachable!(),
    }
}

/// Behind the first `'`.
#[tactic(auto, unfolding(crate::specs::Reading::quoted_atom_at))]
fn quoted_atom_of(alloc: Global, bytes: &[u8]) -> Result<(Term, &[u8]), ReadErr>
    ensures { Gives (λ x. (tree_of x.0, x.1.now)) result (quoted_atom_at bytes.now) }
{
    let (name, rest) = name_of(alloc, bytes)?;
    Ok((atom_named(alloc, name.as_str())?, rest))
}

/// The atom of so few characters.
fn atom_named(alloc: Global, text: &str) -> Result<Term, ReadErr>
    requires { length (chars text.now) ≤ 255 }
    ensures made { IfOk result (λ term. tree_of term ≡ atom text.now) }
    ensures only_memory { IfErr result (λ error. error ≡ ReadErr.Memory) }
{
    match Atom::new(alloc, text) {
        Ok(atom) => Ok(Term::Atom(atom)),
        Err(TermErr::Memory) => Err(ReadErr::Memory),
        Err(TermErr::AtomTooLong) => unreachable!(),
    }
}

fn begins_character(bytes: &[u8]) -> bool
    ensures { result ≡ begins may_begin_character bytes.now }
{
    match bytes {
        [0x20..=0x7F | 0xC2..=0xF4, ..] => true,
        _ => false,
    }
}

/// Behind the first `"`, where the characters may nest over so many levels.
#[tactic(auto, unfolding(crate::specs::Reading::string_at))]
fn string_of(alloc: Global, levels: u32, bytes: &[u8]) -> Result<(Term, &[u8]), ReadErr>
    ensures { Gives (λ x. (tree_of x.0, x.1.now)) result (string_at levels bytes.now) }
{
    if levels == 0 && behind(b'"', bytes).is_none() && begins_character(bytes) {
        return Err(ReadErr::Fault(Fault::TooDeep(bytes.len())));
    }
    let (items, rest) = code_points_of(alloc, bytes)?;
    Ok((Term::List(items), rest))
}

/// Behind the first `"` within a binary, up to the first `>`.
#[tactic(auto, unfolding(crate::specs::Reading::byte_string_at))]
fn byte_string_of(alloc: Global, bytes: &[u8]) -> Result<(Items<u8>, &[u8]), ReadErr>
    ensures { Gives (λ x. (x.0, x.1.now)) result (byte_string_at bytes.now) }
{
    let (characters, rest) = narrow_characters_of(alloc, bytes)?;
    let rest = byte_of(b'>', unblanked(rest))?;
    Ok((characters, rest))
}

/// The bytes of a binary, up to the first `>`.
#[tactic(auto, unfolding(crate::specs::Reading::bytes_at))]
fn bytes_of(alloc: Global, bytes: &[u8]) -> Result<(Items<u8>, &[u8]), ReadErr>
    ensures { Gives (λ x. (x.0, x.1.now)) result (bytes_at bytes.now) }
{
    if let Some(rest) = behind(b'"', unblanked(bytes)) {
        return byte_string_of(alloc, rest);
    }
    numbers_of(alloc, bytes)
}

/// Behind the first `<`.
#[tactic(auto, unfolding(crate::specs::Reading::binary_at))]
fn binary_of(alloc: Global, bytes: &[u8]) -> Result<(Term, &[u8]), ReadErr>
    ensures { Gives (λ x. (tree_of x.0, x.1.now)) result (binary_at bytes.now) }
{
    let inner = byte_of(b'<', bytes)?;
    let (found, rest) = bytes_of(alloc, inner)?;
    let rest = byte_of(b'>', rest)?;
    Ok((Term::Bin(found), rest))
}
