//! Numbers.

ghost use Rattle.std.specs.Prelude.{◌≡◌, ◌≤◌, ◌<◌, true, false, length, take, drop, IfOk, MatchOption};
ghost use Rattle.std.specs.Str.{IsAscii};
ghost use Rattle.std.specs.Str.Parse.{IsNumeral, digits_value, signed_digits_value, without_leading_sign};
ghost use Rattle.std.specs.Char.{is_ascii_digit};
ghost use Rattle.std.specs.List.{prefix_len};
ghost use Rattle.term_core.specs.View.{tree_of};
ghost use Rattle.term_text.specs.Grammar.{begins};
ghost use Rattle.term_text.specs.Reading.{Gives, fits, is_positive_digit, positive_len, natural_len, number_len, number_at, small_at, elements_at, inner_at};

use crate::fault::{Fault, ReadErr};
use crate::tokens::{bad, behind, more_of, unblanked};
use sqlite_items::Items;
use std::alloc::Global;
use term_core::Term;

fn begins_positive(bytes: &[u8]) -> bool
    ensures { result ≡ begins is_positive_digit bytes.now }
{
    match bytes {
        [first, ..] => first.is_ascii_digit() && *first != b'0',
        [] => false,
    }
}

#[tactic(auto, using(crate::proofs::Fronts::prefix_within))]
fn digits(bytes: &[u8]) -> usize
    ensures count { result ≡ prefix_len is_ascii_digit bytes.now }
    ensures within { result ≤ length bytes.now }
{
    bytes
        .iter()
        .take_while(|byte| byte.is_ascii_digit())
        .count()
}

/// How many bytes a number from 1 on takes: all the digits, of which the first is not 0.
#[tactic(auto, unfolding(crate::specs::Reading::positive_len))]
fn positive_length(bytes: &[u8]) -> Result<usize, ReadErr>
    ensures length { Gives (λ n. n) result (positive_len bytes.now) }
    ensures within { IfOk result (λ n. n ≤ length bytes.now) }
{
    if begins_positive(bytes) {
        return Ok(digits(bytes));
    }
    Err(bad(bytes.len()))
}

/// The same of a number from 0 on.
#[tactic(auto, unfolding(crate::specs::Reading::natural_len))]
fn natural_length(bytes: &[u8]) -> Result<usize, ReadErr>
    ensures length { Gives (λ n. n) result (natural_len bytes.now) }
    ensures within { IfOk result (λ n. n ≤ length bytes.now) }
{
    if behind(b'0', bytes).is_some() {
        return Ok(1);
    }
    positive_length(bytes)
}

/// The same of any number.
#[tactic(auto, unfolding(crate::specs::Reading::number_len))]
fn number_length(bytes: &[u8]) -> Result<usize, ReadErr>
    ensures length { Gives (λ n. n) result (number_len bytes.now) }
    ensures within { IfOk result (λ n. n ≤ length bytes.now) }
{
    if let Some(rest) = behind(b'-', bytes) {
        return match positive_length(rest) {
            Ok(count) => Ok(count + 1),
            Err(error) => Err(error),
        };
    }
    natural_length(bytes)
}

/// The number of a text, where it has 128 bits.
#[tactic(auto, using(crate::proofs::Fronts::ascii_is_utf8))]
fn number_in(text: &[u8]) -> Option<i128>
    requires ascii { IsAscii text.now }
    requires numeral { IsNumeral 10 (without_leading_sign text.now) }
    ensures { MatchOption result (fits (signed_digits_value 10 text.now) ≡ false) (λ n. (n ≡ signed_digits_value 10 text.now) × (fits n ≡ true)) }
{
    match str::from_utf8(text) {
        Ok(text) => text.parse().ok(),
        Err(_) => None,
    }
}

/// The number of a text, where it is at most 255.
#[tactic(auto, using(crate::proofs::Fronts::ascii_is_utf8))]
fn byte_in(text: &[u8]) -> Option<u8>
    requires ascii { IsAscii text.now }
    requires numeral { IsNumeral 10 text.now }
    ensures { MatchOption result (256 ≤ digits_value 10 text.now) (λ n. (n ≡ digits_value 10 text.now) × (n < 256)) }
{
    match str::from_utf8(text) {
        Ok(text) => text.parse().ok(),
        Err(_) => None,
    }
}

/// A number of 128 bits.
#[tactic(auto, using(crate::proofs::Fronts::number_ascii, crate::proofs::Fronts::number_numeral), unfolding(crate::specs::Reading::number_at))]
pub fn number_of(bytes: &[u8]) -> Result<(Term, &[u8]), ReadErr>
    ensures { Gives (λ x. (tree_of x.0, x.1.now)) result (number_at bytes.now) }
{
    let count = number_length(bytes)?;
    let (number, rest) = bytes.split_at(count);
    match number_in(number) {
        Some(number) => Ok((Term::Int(number), rest)),
        None => Err(ReadErr::Fault(Fault::WideInt(bytes.len()))),
    }
}

/// A number from 0 to 255.
#[tactic(auto, using(crate::proofs::Fronts::natural_ascii, crate::proofs::Fronts::natural_numeral), unfolding(crate::specs::Reading::small_at))]
fn small_of(bytes: &[u8]) -> Result<(u8, &[u8]), ReadErr>
    ensures { Gives (λ x. (x.0, x.1.now)) result (small_at bytes.now) }
{
    let count = natural_length(bytes)?;
    let (number, rest) = bytes.split_at(count);
    match byte_in(number) {
        Some(number) => Ok((number, rest)),
        None => Err(bad(bytes.len())),
    }
}

/// Bytes as numbers, behind an opening byte and up to the first `>`.
#[tactic(auto, unfolding(crate::specs::Reading::inner_at))]
pub fn numbers_of(alloc: Global, bytes: &[u8]) -> Result<(Items<u8>, &[u8]), ReadErr>
    ensures { Gives (λ x. (x.0, x.1.now)) result (inner_at small_at 62 bytes.now) }
{
    if let Some(rest) = behind(b'>', unblanked(bytes)) {
        return Ok((Items::new(alloc), rest));
    }
    some_numbers_of(alloc, bytes)
}

/// The same of at least one byte. Each takes room, so that they are no more than the bytes.
fn some_numbers_of(alloc: Global, bytes: &[u8]) -> Result<(Items<u8>, &[u8]), ReadErr>
    ensures { Gives (λ x. (x.0, x.1.now)) result (elements_at small_at 62 (length bytes.now) bytes.now) }
{
    let mut items = Items::new(alloc);
    let mut rest = bytes;
    for _ in 0..bytes.len() {
        let (number, after) = small_of(unblanked(rest))?;
        items.push(number)?;
        let (more, after) = more_of(b'>', unblanked(after))?;
        if !more {
            return Ok((items, after));
        }
        rest = after;
    }
    Err(bad(rest.len()))
}
