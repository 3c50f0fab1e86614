//! The spellings without terms inside, behind their tags.

ghost use Rattle.std.specs.Prelude.{◌≡◌, ◌≤◌, true, false, length, IfOk, IfErr, IsTrue, ◌↔◌, nat_le, if◌then◌else◌, ◌^◌, Ok, Err, MatchOption, string_bytes};
ghost use Rattle.std.specs.Str.{is_utf8, chars, encode_utf8_all};
ghost use Rattle.term_core.specs.Tree.{atom, list};
ghost use Rattle.term_core.specs.View.{tree_of, forest_of};
ghost use Rattle.term_wire.specs.Spelling.{low_first, signed};
ghost use Rattle.term_wire.specs.Reading.{Gives, width_of, fits_term, small_at, integer_at, wide_at, atom_at, latin_at, binary_at, numbers, numbers_at, other_at, leaf_at};

use crate::fault::{Fault, ReadErr};
use crate::field::{CountBytes, bad, bytes_of, count_of, four_of, sign_of};
use crate::tag;
use byteorder::{ByteOrder, LittleEndian};
use sqlite_items::Items;
use std::alloc::Global;
use term_core::{Atom, Term, TermErr};

#[tactic(auto, unfolding(crate::specs::Reading::leaf_at))]
pub fn leaf_of(alloc: Global, tag: u8, bytes: &[u8]) -> Result<(Term, &[u8]), ReadErr>
    ensures { Gives (λ x. (tree_of x.0, x.1.now)) result (leaf_at tag bytes.now) }
{
    match tag {
        tag::SMALL_INTEGER => small_of(bytes),
        tag::INTEGER => integer_of(bytes),
        tag::SMALL_BIG => wide_of(CountBytes::One, bytes),
        tag::LARGE_BIG => wide_of(CountBytes::Four, bytes),
        tag::SMALL_ATOM_UTF8 => atom_of(alloc, CountBytes::One, bytes),
        tag::ATOM_UTF8 => atom_of(alloc, CountBytes::Two, bytes),
        tag::SMALL_ATOM => latin_of(alloc, CountBytes::One, bytes),
        tag::ATOM => latin_of(alloc, CountBytes::Two, bytes),
        tag::BINARY => binary_of(alloc, bytes),
        _ => other_of(tag, bytes),
    }
}

#[tactic(auto, unfolding(crate::specs::Reading::small_at))]
fn small_of(bytes: &[u8]) -> Result<(Term, &[u8]), ReadErr>
    ensures { Gives (λ x. (tree_of x.0, x.1.now)) result (small_at bytes.now) }
{
    let (number, rest) = count_of(CountBytes::One, bytes)?;
    Ok((Term::Int(i128::from(number)), rest))
}

#[tactic(auto, unfolding(crate::specs::Reading::integer_at))]
fn integer_of(bytes: &[u8]) -> Result<(Term, &[u8]), ReadErr>
    ensures { Gives (λ x. (tree_of x.0, x.1.now)) result (integer_at bytes.now) }
{
    let (number, rest) = four_of(bytes)?;
    Ok((Term::Int(i128::from(number.cast_signed())), rest))
}

#[tactic(auto, unfolding(crate::specs::Reading::wide_at))]
fn wide_of(size: CountBytes, bytes: &[u8]) -> Result<(Term, &[u8]), ReadErr>
    ensures { Gives (λ x. (tree_of x.0, x.1.now)) result (wide_at (width_of size) bytes.now) }
{
    let (count, rest) = count_of(size, bytes)?;
    let (sign, rest) = sign_of(rest)?;
    let (digits, rest) = bytes_of(count, rest)?;
    let Some(number) = number_in(sign, digits) else {
        return Err(ReadErr::Fault(Fault::WideInt(bytes.len() + 1)));
    };
    Ok((Term::Int(number), rest))
}

/// The number with this sign and these bytes, the lowest first, where it has at most 128 bits.
fn number_in(sign: u8, digits: &[u8]) -> Option<i128>
    ensures { MatchOption result (fits_term (signed sign (low_first digits.now)) ≡ false) (λ n. (n ≡ signed sign (low_first digits.now)) × (fits_term n ≡ true)) }
{
    let size = magnitude(digits)?;
    if sign == 0 {
        0i128.checked_add_unsigned(size)
    } else {
        0i128.checked_sub_unsigned(size)
    }
}

/// The number of these bytes, the lowest first, where it has at most 128 bits.
fn magnitude(digits: &[u8]) -> Option<u128>
    ensures { MatchOption result (2 ^ 128 ≤ low_first digits.now) (λ n. n ≡ low_first digits.now) }
{
    let (low, high) = digits.split_at(digits.len().min(16));
    if !are_noughts(high) {
        return None;
    }
    if low.is_empty() {
        return Some(0);
    }
    Some(LittleEndian::read_uint128(low, low.len()))
}

fn are_noughts(bytes: &[u8]) -> bool
    ensures { IsTrue result ↔ (low_first bytes.now ≡ 0) }
{
    for byte in bytes {
        if *byte != 0 {
            return false;
        }
    }
    true
}

/// The bytes as text, where they are UTF-8.
fn text_in(bytes: &[u8]) -> Option<&str>
    ensures { MatchOption result (is_utf8 bytes.now ≡ false) (λ text. (text.now ≡ bytes.now) × (is_utf8 bytes.now ≡ true)) }
{
    str::from_utf8(bytes).ok()
}

/// The atom of these characters. So many bytes are left from its tag on.
fn atom_named(alloc: Global, text: &str, left: usize) -> Result<Term, ReadErr>
    ensures { Gives tree_of result (if nat_le (length (chars text.now)) 255 then Ok (atom text.now) else Err (Fault.Bad left)) }
{
    match Atom::new(alloc, text) {
        Ok(atom) => Ok(Term::Atom(atom)),
        Err(TermErr::AtomTooLong) => Err(bad(left)),
        Err(TermErr::Memory) => Err(ReadErr::Memory),
    }
}

#[tactic(auto, unfolding(crate::specs::Reading::atom_at))]
fn atom_of(alloc: Global, size: CountBytes, bytes: &[u8]) -> Result<(Term, &[u8]), ReadErr>
    ensures { Gives (λ x. (tree_of x.0, x.1.now)) result (atom_at (width_of size) bytes.now) }
{
    let (count, rest) = count_of(size, bytes)?;
    let (field, rest) = bytes_of(count, rest)?;
    let Some(text) = text_in(field) else {
        return Err(bad(bytes.len() + 1));
    };
    Ok((atom_named(alloc, text, bytes.len() + 1)?, rest))
}

#[tactic(auto, unfolding(crate::specs::Reading::latin_at))]
fn latin_of(alloc: Global, size: CountBytes, bytes: &[u8]) -> Result<(Term, &[u8]), ReadErr>
    ensures { Gives (λ x. (tree_of x.0, x.1.now)) result (latin_at (width_of size) bytes.now) }
{
    let (count, rest) = count_of(size, bytes)?;
    let (field, rest) = bytes_of(count, rest)?;
    if field.len() > 255 {
        return Err(bad(bytes.len() + 1));
    }
    Ok((latin_named(alloc, field)?, rest))
}

/// The atom with a character in each byte.
fn latin_named(alloc: Global, bytes: &[u8]) -> Result<Term, ReadErr>
    requires { length bytes.now ≤ 255 }
    ensures made { IfOk result (λ term. tree_of term ≡ atom (encode_utf8_all bytes.now)) }
    ensures only_memory { IfErr result (λ error. error ≡ ReadErr.Memory) }
{
    let text = latin_text(alloc, bytes)?;
    match Atom::new(alloc, text.as_str()) {
        Ok(atom) => Ok(Term::Atom(atom)),
        Err(TermErr::Memory) => Err(ReadErr::Memory),
        Err(TermErr::AtomTooLong) => unreachable!(),
    }
}

/// The text with a character in each byte.
fn latin_text(alloc: Global, bytes: &[u8]) -> Result<String, ReadErr>
    ensures made { IfOk result (λ text. string_bytes text ≡ encode_utf8_all bytes.now) }
    ensures only_memory { IfErr result (λ error. error ≡ ReadErr.Memory) }
{
    let mut text = String::new(alloc);
    for byte in bytes {
        text.push(char::from(*byte))?;
    }
    Ok(text)
}

#[tactic(auto, unfolding(crate::specs::Reading::binary_at))]
fn binary_of(alloc: Global, bytes: &[u8]) -> Result<(Term, &[u8]), ReadErr>
    ensures { Gives (λ x. (tree_of x.0, x.1.now)) result (binary_at bytes.now) }
{
    let (count, rest) = four_of(bytes)?;
    let (content, rest) = bytes_of(count, rest)?;
    Ok((Term::Bin(Items::from_slice(alloc, content)?), rest))
}

/// A list of numbers of one byte each, where the numbers may nest over so many levels.
#[tactic(auto, unfolding(crate::specs::Reading::numbers_at))]
pub fn numbers_of(alloc: Global, levels: u32, bytes: &[u8]) -> Result<(Term, &[u8]), ReadErr>
    ensures { Gives (λ x. (tree_of x.0, x.1.now)) result (numbers_at levels bytes.now) }
{
    let (count, rest) = count_of(CountBytes::Two, bytes)?;
    let (content, after) = bytes_of(count, rest)?;
    if levels == 0 && count > 0 {
        return Err(ReadErr::Fault(Fault::TooDeep(rest.len())));
    }
    Ok((Term::List(numbers_in(alloc, content)?), after))
}

fn numbers_in(alloc: Global, bytes: &[u8]) -> Result<Items<Term>, ReadErr>
    ensures made { IfOk result (λ items. forest_of items ≡ numbers bytes.now) }
    ensures only_memory { IfErr result (λ error. error ≡ ReadErr.Memory) }
{
    let mut items = Items::new(alloc);
    for byte in bytes {
        items.push(Term::Int(i128::from(*byte)))?;
    }
    Ok(items)
}

/// Behind a tag that no term here has.
#[tactic(auto, unfolding(crate::specs::Reading::other_at))]
fn other_of(tag: u8, bytes: &[u8]) -> Result<(Term, &[u8]), ReadErr>
    ensures { Gives (λ x. (tree_of x.0, x.1.now)) result (other_at tag bytes.now) }
{
    let left = bytes.len() + 1;
    if tag::OUTSIDE.contains(&tag) {
        return Err(ReadErr::Fault(Fault::Outside(tag, left)));
    }
    Err(bad(left))
}
