//! The text of a term, written at the end of a vector.

ghost use Rattle.std.specs.Prelude.{◌≡◌, ◌∷◌, ◌++◌, ◌<◌, ◌≤◌, ℕ, List, [], length, codes, decimal, OnOk, OnErr, IfErr, false};
ghost use Rattle.std.specs.Fmt.{digits, digit_glyph, signed_decimal};
ghost use Rattle.std.specs.List.{flat_map, list_all, list_any};
ghost use Rattle.std.specs.Str.{bytes_eq, chars};
ghost use Rattle.term_core.specs.Tree.{int, atom, bin};
ghost use Rattle.term_core.specs.View.{tree_of, forest_of};
ghost use Rattle.term_text.specs.Appends.{Appends};
ghost use Rattle.term_text.specs.Grammar as grammar;
ghost use Rattle.term_text.specs.Grammar.{IsText};
ghost use Rattle.term_core.specs.Kept.{IsKept, AreKept};
ghost use Rattle.term_text.specs.Printing as text;
ghost use Rattle.term_text.specs.Printing.{comma_before};

use crate::error::TextErr;
use crate::tokens::is_name_byte;
use itoa::Buffer;
use std::alloc::AllocError;
use term_core::{Atom, Term};

/// Adds the text of a term at the end of `out`. An error leaves `out` as it was.
#[tactic(auto, using(crate::proofs::PrintedTexts::printed_is))]
pub fn print_term(term: &Term, out: &mut Vec<u8>) -> Result<(), TextErr>
    ensures ok { OnOk result (out.new.items ≡ out.old.items ++ text.printed (tree_of term.now)) }
    ensures text { OnOk result (IsText (tree_of term.now) (text.printed (tree_of term.now))) }
    ensures err { OnErr result (out.new.items ≡ out.old.items) }
    ensures only_memory { IfErr result (λ error. error ≡ TextErr.Memory) }
{
    let before = out.len();
    match put(term, out) {
        Ok(()) => Ok(()),
        Err(AllocError) => {
            out.truncate(before);
            Err(TextErr::Memory)
        }
    }
}

#[cycle(put)]
#[tactic(auto, using(crate::proofs::Written::tuple_text, crate::proofs::Written::list_text, crate::proofs::Written::tuple_kept, crate::proofs::Written::list_kept))]
fn put(term: &Term, out: &mut Vec<u8>) -> Result<(), AllocError>
    ensures text { Appends result out.old.items out.new.items (text.printed (tree_of term.now)) }
    ensures kept { OnOk result (IsKept (tree_of term.now)) }
{
    match term {
        Term::Int(number) => put_int(*number, out),
        Term::Atom(name) => put_atom(name, out),
        Term::Tuple(items) => put_within(b"{", items.as_slice(), b"}", out),
        Term::List(items) => put_within(b"[", items.as_slice(), b"]", out),
        Term::Bin(bytes) => put_binary(bytes.as_slice(), out),
    }
}

fn put_int(number: i128, out: &mut Vec<u8>) -> Result<(), AllocError>
    ensures text { Appends result out.old.items out.new.items (signed_decimal number) }
    ensures kept { IsKept (int number) }
{
    out.extend_from_slice(Buffer::new().format(number).as_bytes())
}

#[cycle(put)]
fn put_within(
    before: &[u8],
    items: &[Term],
    behind: &[u8],
    out: &mut Vec<u8>,
) -> Result<(), AllocError>
    ensures text { Appends result out.old.items out.new.items (before.now ++ (text.trees_text (forest_of items.now) ++ behind.now)) }
    ensures kept { OnOk result (AreKept (forest_of items.now)) }
{
    out.extend_from_slice(before)?;
    put_all(items, out)?;
    out.extend_from_slice(behind)
}

/// The terms, with commas between.
#[cycle(put)]
fn put_all(items: &[Term], out: &mut Vec<u8>) -> Result<(), AllocError>
    ensures text { Appends result out.old.items out.new.items (text.trees_text (forest_of items.now)) }
    ensures kept { OnOk result (AreKept (forest_of items.now)) }
{
    for (i, item) in items.iter().enumerate() {
        put_comma(i, out)?;
        put(item, out)?;
    }
    Ok(())
}

/// The comma before an element, unless it is the first.
fn put_comma(i: usize, out: &mut Vec<u8>) -> Result<(), AllocError>
    ensures { Appends result out.old.items out.new.items (comma_before i) }
{
    if i == 0 {
        return Ok(());
    }
    out.extend_from_slice(b",")
}

fn put_binary(bytes: &[u8], out: &mut Vec<u8>) -> Result<(), AllocError>
    ensures text { Appends result out.old.items out.new.items (codes "<<" ++ (text.bytes_text bytes.now ++ codes ">>")) }
    ensures kept { IsKept (bin bytes.now) }
{
    out.extend_from_slice(b"<<")?;
    put_bytes(bytes, out)?;
    out.extend_from_slice(b">>")
}

fn put_byte(byte: u8, out: &mut Vec<u8>) -> Result<(), AllocError>
    ensures { Appends result out.old.items out.new.items (decimal byte) }
{
    out.extend_from_slice(Buffer::new().format(byte).as_bytes())
}

/// The bytes as numbers, with commas between.
fn put_bytes(bytes: &[u8], out: &mut Vec<u8>) -> Result<(), AllocError>
    ensures { Appends result out.old.items out.new.items (text.bytes_text bytes.now) }
{
    for (i, byte) in bytes.iter().enumerate() {
        put_comma(i, out)?;
        put_byte(*byte, out)?;
    }
    Ok(())
}

/// The bytes of a name are not tested for UTF-8 again.
fn put_atom(name: &Atom, out: &mut Vec<u8>) -> Result<(), AllocError>
    ensures text { Appends result out.old.items out.new.items (text.atom_text name.now) }
    ensures kept { IsKept (atom name.now) }
{
    let bytes = name.as_bytes();
    if is_name(bytes) && !is_reserved(bytes) {
        return out.extend_from_slice(bytes);
    }
    put_quoted(name.text(), out)
}

fn put_quoted(name: &str, out: &mut Vec<u8>) -> Result<(), AllocError>
    ensures { Appends result out.old.items out.new.items (39 ∷ (flat_map text.character_text (chars name.now) ++ 39 ∷ [])) }
{
    out.extend_from_slice(b"'")?;
    put_characters(name, out)?;
    out.extend_from_slice(b"'")
}

fn put_characters(name: &str, out: &mut Vec<u8>) -> Result<(), AllocError>
    ensures { Appends result out.old.items out.new.items (flat_map text.character_text (chars name.now)) }
{
    for character in name.chars() {
        put_character(character, out)?;
    }
    Ok(())
}

/// A character between the quotes of an atom.
fn put_character(character: char, out: &mut Vec<u8>) -> Result<(), AllocError>
    ensures { Appends result out.old.items out.new.items (text.character_text character) }
{
    match character {
        '\\' => out.extend_from_slice(b"\\\\"),
        '\'' => out.extend_from_slice(b"\\'"),
        '\n' => out.extend_from_slice(b"\\n"),
        '\r' => out.extend_from_slice(b"\\r"),
        '\t' => out.extend_from_slice(b"\\t"),
        '\0'..='\x1f' | '\x7f' => put_number(character as u8, out),
        _ => out.extend_from_slice(character.encode_utf8(&mut [0; 4]).as_bytes()),
    }
}

/// A character by its number.
fn put_number(character: u8, out: &mut Vec<u8>) -> Result<(), AllocError>
    ensures { Appends result out.old.items out.new.items (text.numbered character) }
{
    out.extend_from_slice(b"\\x{")?;
    put_hex(character, out)?;
    out.extend_from_slice(b"}")
}

#[tactic(auto, using(std::proofs::lemmas::Fmt::hex_one_digit, std::proofs::lemmas::Fmt::hex_two_digits))]
fn put_hex(number: u8, out: &mut Vec<u8>) -> Result<(), AllocError>
    ensures { Appends result out.old.items out.new.items (digits 16 false number) }
{
    if number < 16 {
        return out.extend_from_slice(&[hex_digit(number)]);
    }
    out.extend_from_slice(&[hex_digit(number / 16), hex_digit(number % 16)])
}

fn hex_digit(digit: u8) -> u8
    requires { digit < 16 }
    ensures { result ≡ digit_glyph false digit }
{
    if digit < 10 {
        b'0' + digit
    } else {
        b'a' + (digit - 10)
    }
}

fn is_name(bytes: &[u8]) -> bool
    ensures { result ≡ grammar.is_name bytes.now }
{
    match bytes {
        [] => false,
        [first, others @ ..] => first.is_ascii_lowercase() && are_name_bytes(others),
    }
}

fn are_name_bytes(bytes: &[u8]) -> bool
    ensures { result ≡ list_all grammar.is_name_byte bytes.now }
{
    bytes.iter().all(|byte| is_name_byte(*byte))
}

fn is_reserved(name: &[u8]) -> bool
    ensures { result ≡ text.is_reserved name.now }
{
    match name {
        [first, ..] => reserved_from(*first).contains(&name),
        [] => false,
    }
}

/// The words that Erlang keeps for itself and that begin with this byte.
fn reserved_from(first: u8) -> &'static [&'static [u8]]
    ensures { (others : List ℕ)
        → list_any (λ word. bytes_eq word.now (first ∷ others)) result.now ≡ text.is_reserved (first ∷ others) }
{
    match first {
        b'a' => &[b"after", b"and", b"andalso"],
        b'b' => &[b"band", b"begin", b"bnot", b"bor", b"bsl", b"bsr", b"bxor"],
        b'c' => &[b"case", b"catch", b"cond"],
        b'd' => &[b"div"],
        b'e' => &[b"end"],
        b'f' => &[b"fun"],
        b'i' => &[b"if"],
        b'l' => &[b"let"],
        b'm' => &[b"maybe"],
        b'n' => &[b"not"],
        b'o' => &[b"of", b"or", b"orelse"],
        b'r' => &[b"receive", b"rem"],
        b't' => &[b"try"],
        b'w' => &[b"when"],
        b'x' => &[b"xor"],
        _ => &[],
    }
}
