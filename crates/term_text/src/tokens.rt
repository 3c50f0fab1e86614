//! Single bytes, and the blanks between tokens.

ghost use Rattle.std.specs.Prelude.{◌≡◌, ◌≤◌, ◌==◌, true, false, drop, length, MatchOption};
ghost use Rattle.std.specs.List.{prefix_len};
ghost use Rattle.term_text.specs.Grammar.{begins, is_blank, is_name_byte};
ghost use Rattle.term_text.specs.Reading.{Gives, byte_at, unblanked, more_at};

use crate::fault::{Fault, ReadErr};

/// No text goes on so where so many bytes are left.
pub fn bad(left: usize) -> ReadErr
    ensures { result ≡ ReadErr.Fault (Fault.Bad left) }
{
    ReadErr::Fault(Fault::Bad(left))
}

/// The bytes behind this one, where it is in front.
pub fn behind(byte: u8, bytes: &[u8]) -> Option<&[u8]>
    ensures { MatchOption result (begins (λ b. b == byte) bytes.now ≡ false) (λ rest. (begins (λ b. b == byte) bytes.now ≡ true) × (rest.now ≡ drop 1 bytes.now)) }
{
    match bytes {
        [first, rest @ ..] if *first == byte => Some(rest),
        _ => None,
    }
}

/// The bytes behind this one, which is due.
#[tactic(auto, unfolding(crate::specs::Reading::byte_at))]
pub fn byte_of(byte: u8, bytes: &[u8]) -> Result<&[u8], ReadErr>
    ensures { Gives (λ rest. rest.now) result (byte_at byte bytes.now) }
{
    match behind(byte, bytes) {
        Some(rest) => Ok(rest),
        None => Err(bad(bytes.len())),
    }
}

/// The bytes behind the blanks in front.
#[tactic(auto, unfolding(crate::specs::Reading::unblanked))]
pub fn unblanked(bytes: &[u8]) -> &[u8]
    ensures { result.now ≡ unblanked bytes.now }
{
    let (_, rest) = bytes.split_at(blanks(bytes));
    rest
}

#[tactic(auto, using(crate::proofs::Fronts::prefix_within))]
fn blanks(bytes: &[u8]) -> usize
    ensures count { result ≡ prefix_len is_blank bytes.now }
    ensures within { result ≤ length bytes.now }
{
    bytes.iter().take_while(|byte| is_blank(**byte)).count()
}

/// A space or a tab.
pub fn is_blank(byte: u8) -> bool
    ensures { result ≡ is_blank byte }
{
    byte == b' ' || byte == b'\t'
}

/// A letter, a digit, `_` or `@`.
pub fn is_name_byte(byte: u8) -> bool
    ensures { result ≡ is_name_byte byte }
{
    byte.is_ascii_alphanumeric() || byte == b'_' || byte == b'@'
}

/// Behind an element: whether a comma follows it, or the closing byte.
#[tactic(auto, unfolding(crate::specs::Reading::more_at))]
pub fn more_of(close: u8, bytes: &[u8]) -> Result<(bool, &[u8]), ReadErr>
    ensures { Gives (λ x. (x.0, x.1.now)) result (more_at close bytes.now) }
{
    if let Some(rest) = behind(b',', bytes) {
        return Ok((true, rest));
    }
    let rest = byte_of(close, bytes)?;
    Ok((false, rest))
}
