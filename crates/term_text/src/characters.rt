//! Characters between quotes.

ghost use Rattle.std.specs.Prelude.{◌≡◌, ◌≤◌, ◌<◌, ◌+◌, true, false, length, take, slice_index, string_bytes, map, pos, IfOk, MatchOption};
ghost use Rattle.std.specs.Char.{is_ascii_hexdigit};
ghost use Rattle.std.specs.List.{prefix_len};
ghost use Rattle.std.specs.Str.{chars, is_utf8, continuation_len, IsAscii};
ghost use Rattle.std.specs.Str.Parse.{IsNumeral, digits_value};
ghost use Rattle.term_core.specs.Tree.{int};
ghost use Rattle.term_core.specs.View.{tree_of};
ghost use Rattle.term_text.specs.Grammar.{escaped};
ghost use Rattle.term_text.specs.Reading.{Gives, as_numbers, is_scalar, utf8_at, hex_digits_at, hex_at, escape_at, character_at, narrow_at, quoted_at};

use crate::fault::ReadErr;
use crate::tokens::{bad, behind, byte_of};
use sqlite_items::Items;
use std::alloc::Global;
use term_core::Term;

/// The characters of the longest atom.
pub const MOST_CHARACTERS: usize = 255;

/// How many bytes a character has that begins with this one.
fn character_length(first: u8) -> usize
    ensures { result ≡ continuation_len first + 1 }
{
    match first {
        0..=0x7F => 1,
        0x80..=0xDF => 2,
        0xE0..=0xEF => 3,
        0xF0..=0xFF => 4,
    }
}

/// The first character of these bytes, where all of them are UTF-8.
#[tactic(auto, using(crate::proofs::Utf8::no_utf8, crate::proofs::Utf8::text_is_utf8, crate::proofs::Utf8::first_is))]
fn first_character(bytes: &[u8]) -> Option<char>
    requires { 0 < length bytes.now }
    ensures { MatchOption result (is_utf8 bytes.now ≡ false) (λ c. (is_utf8 bytes.now ≡ true) × (c ≡ slice_index (chars bytes.now) 0)) }
{
    match str::from_utf8(bytes) {
        Ok(text) => text.chars().next(),
        Err(_) => None,
    }
}

#[tactic(auto, unfolding(crate::specs::Reading::utf8_at))]
fn utf8_of(bytes: &[u8]) -> Result<(char, &[u8]), ReadErr>
    ensures { Gives (λ x. (x.0, x.1.now)) result (utf8_at bytes.now) }
{
    let [first, ..] = bytes else {
        return Err(bad(0));
    };
    let count = character_length(*first).min(bytes.len());
    let (front, rest) = bytes.split_at(count);
    match first_character(front) {
        Some(character) => Ok((character, rest)),
        None => Err(bad(bytes.len())),
    }
}

/// How many hexadecimal digits are in front, up to six.
#[tactic(auto, using(crate::proofs::Fronts::prefix_within))]
fn hex_digits(bytes: &[u8]) -> usize
    ensures count { result ≡ prefix_len is_ascii_hexdigit (take 6 bytes.now) }
    ensures within { result ≤ length bytes.now }
{
    bytes
        .iter()
        .take(6)
        .take_while(|byte| byte.is_ascii_hexdigit())
        .count()
}

#[tactic(auto, unfolding(crate::specs::Reading::hex_digits_at))]
fn hex_digits_of(bytes: &[u8]) -> Result<(&[u8], &[u8]), ReadErr>
    ensures { Gives (λ x. (x.0.now, x.1.now)) result (hex_digits_at bytes.now) }
{
    let count = hex_digits(bytes);
    if count == 0 {
        return Err(bad(bytes.len()));
    }
    Ok(bytes.split_at(count))
}

/// The character that has this number.
#[tactic(auto, using(crate::proofs::Fronts::ascii_is_utf8))]
fn numbered(digits: &[u8]) -> Option<char>
    requires ascii { IsAscii digits.now }
    requires numeral { IsNumeral 16 digits.now }
    ensures { MatchOption result (is_scalar (digits_value 16 digits.now) ≡ false) (λ c. (is_scalar (digits_value 16 digits.now) ≡ true) × (c ≡ digits_value 16 digits.now)) }
{
    match str::from_utf8(digits) {
        Ok(digits) => match u32::from_str_radix(digits, 16) {
            Ok(number) => char::from_u32(number),
            Err(_) => None,
        },
        Err(_) => None,
    }
}

/// Behind `\x`. A number that no character has is refused at the `\`.
#[tactic(auto, using(crate::proofs::Fronts::hex_numeral, crate::proofs::Fronts::hex_ascii), unfolding(crate::specs::Reading::hex_at))]
fn hex_of(bytes: &[u8]) -> Result<(char, &[u8]), ReadErr>
    requires { length bytes.now + 2 ≤ usize.MAX }
    ensures { Gives (λ x. (x.0, x.1.now)) result (hex_at bytes.now) }
{
    let inner = byte_of(b'{', bytes)?;
    let (digits, rest) = hex_digits_of(inner)?;
    let rest = byte_of(b'}', rest)?;
    match numbered(digits) {
        Some(character) => Ok((character, rest)),
        None => Err(bad(bytes.len() + 2)),
    }
}

/// The character that a letter behind a `\` stands for.
fn escaped(letter: u8) -> Option<char>
    ensures { result ≡ escaped letter }
{
    match letter {
        b'n' => Some('\n'),
        b'r' => Some('\r'),
        b't' => Some('\t'),
        b'\\' | b'\'' | b'"' => Some(char::from(letter)),
        _ => None,
    }
}

/// Behind `\`.
#[tactic(auto, unfolding(crate::specs::Reading::escape_at))]
fn escape_of(bytes: &[u8]) -> Result<(char, &[u8]), ReadErr>
    ensures { Gives (λ x. (x.0, x.1.now)) result (escape_at bytes.now) }
{
    let [letter, rest @ ..] = bytes else {
        return Err(bad(0));
    };
    if *letter == b'x' {
        return hex_of(rest);
    }
    match escaped(*letter) {
        Some(character) => Ok((character, rest)),
        None => Err(bad(bytes.len())),
    }
}

/// A character between quotes.
#[tactic(auto, unfolding(crate::specs::Reading::character_at))]
fn character_of(bytes: &[u8]) -> Result<(char, &[u8]), ReadErr>
    ensures { Gives (λ x. (x.0, x.1.now)) result (character_at bytes.now) }
{
    match bytes {
        [] => Err(bad(0)),
        [b'\\', rest @ ..] => escape_of(rest),
        [0..=0x1F, ..] => Err(bad(bytes.len())),
        [_, ..] => utf8_of(bytes),
    }
}

/// A character up to U+00FF.
#[tactic(auto, unfolding(crate::specs::Reading::narrow_at))]
fn narrow_of(bytes: &[u8]) -> Result<(u8, &[u8]), ReadErr>
    ensures { Gives (λ x. (x.0, x.1.now)) result (narrow_at bytes.now) }
{
    let (character, rest) = character_of(bytes)?;
    if character > '\u{FF}' {
        return Err(bad(bytes.len()));
    }
    Ok((character as u8, rest))
}

/// At most 255 characters, and the `'` behind them.
pub fn name_of(alloc: Global, bytes: &[u8]) -> Result<(String, &[u8]), ReadErr>
    ensures read { Gives (λ x. (chars (string_bytes x.0), x.1.now)) result (quoted_at character_at 39 255 bytes.now) }
    ensures short { IfOk result (λ x. length (chars (string_bytes x.0)) ≤ 255) }
{
    let mut name = String::new(alloc);
    let mut rest = bytes;
    for _ in 0..MOST_CHARACTERS {
        if let Some(after) = behind(b'\'', rest) {
            return Ok((name, after));
        }
        let (character, after) = character_of(rest)?;
        name.push(character)?;
        rest = after;
    }
    let rest = byte_of(b'\'', rest)?;
    Ok((name, rest))
}

fn code_point(character: char) -> Term
    ensures { tree_of result ≡ int (pos character) }
{
    Term::Int(i128::from(u32::from(character)))
}

/// Characters as numbers, and the `"` behind them.
pub fn code_points_of(alloc: Global, bytes: &[u8]) -> Result<(Items<Term>, &[u8]), ReadErr>
    ensures { Gives (λ x. (map tree_of x.0, x.1.now)) result (as_numbers (quoted_at character_at 34 (length bytes.now) bytes.now)) }
{
    let mut items = Items::new(alloc);
    let mut rest = bytes;
    for _ in 0..bytes.len() {
        if let Some(after) = behind(b'"', rest) {
            return Ok((items, after));
        }
        let (character, after) = character_of(rest)?;
        items.push(code_point(character))?;
        rest = after;
    }
    let rest = byte_of(b'"', rest)?;
    Ok((items, rest))
}

/// Characters up to U+00FF, and the `"` behind them.
pub fn narrow_characters_of(alloc: Global, bytes: &[u8]) -> Result<(Items<u8>, &[u8]), ReadErr>
    ensures { Gives (λ x. (x.0, x.1.now)) result (quoted_at narrow_at 34 (length bytes.now) bytes.now) }
{
    let mut items = Items::new(alloc);
    let mut rest = bytes;
    for _ in 0..bytes.len() {
        if let Some(after) = behind(b'"', rest) {
            return Ok((items, after));
        }
        let (character, after) = narrow_of(rest)?;
        items.push(character)?;
        rest = after;
    }
    let rest = byte_of(b'"', rest)?;
    Ok((items, rest))
}
