//! The fields that a spelling is made of.

ghost use Rattle.std.specs.Prelude.{◌≡◌};
ghost use Rattle.std.specs.Int.{w8, w16, w32};
ghost use Rattle.term_wire.specs.Reading.{Gives, byte_at, bytes_at, number_at, width_of, sign_at, end_at, version_at};

use crate::fault::{Fault, ReadErr};
use crate::tag;

/// How many bytes a count has.
#[derive(Clone, Copy, Debug, PartialEq, Eq)]
pub enum CountBytes {
    One,
    Two,
    Four,
}

/// No text goes on so where so many bytes are left.
pub fn bad(left: usize) -> ReadErr
    ensures { result ≡ ReadErr.Fault (Fault.Bad left) }
{
    ReadErr::Fault(Fault::Bad(left))
}

pub fn byte_of(bytes: &[u8]) -> Result<(u8, &[u8]), ReadErr>
    ensures { Gives (λ x. (x.0, x.1.now)) result (byte_at bytes.now) }
{
    match bytes {
        [byte, rest @ ..] => Ok((*byte, rest)),
        [] => Err(bad(0)),
    }
}

pub fn bytes_of(count: u32, bytes: &[u8]) -> Result<(&[u8], &[u8]), ReadErr>
    ensures { Gives (λ x. (x.0.now, x.1.now)) result (bytes_at count bytes.now) }
{
    let count = count as usize;
    if bytes.len() < count {
        return Err(bad(0));
    }
    Ok(bytes.split_at(count))
}

/// A count, the highest byte first.
pub fn count_of(size: CountBytes, bytes: &[u8]) -> Result<(u32, &[u8]), ReadErr>
    ensures { Gives (λ x. (x.0, x.1.now)) result (number_at (width_of size) bytes.now) }
{
    match size {
        CountBytes::One => one_of(bytes),
        CountBytes::Two => two_of(bytes),
        CountBytes::Four => four_of(bytes),
    }
}

#[tactic(auto, unfolding(crate::specs::Reading::number_at))]
fn one_of(bytes: &[u8]) -> Result<(u32, &[u8]), ReadErr>
    ensures { Gives (λ x. (x.0, x.1.now)) result (number_at w8 bytes.now) }
{
    let (field, rest) = bytes_of(1, bytes)?;
    Ok((u32::from(field[0]), rest))
}

#[tactic(auto, unfolding(crate::specs::Reading::number_at))]
fn two_of(bytes: &[u8]) -> Result<(u32, &[u8]), ReadErr>
    ensures { Gives (λ x. (x.0, x.1.now)) result (number_at w16 bytes.now) }
{
    let (field, rest) = bytes_of(2, bytes)?;
    let number = u16::from_be_bytes([field[0], field[1]]);
    Ok((u32::from(number), rest))
}

#[tactic(auto, unfolding(crate::specs::Reading::number_at))]
pub fn four_of(bytes: &[u8]) -> Result<(u32, &[u8]), ReadErr>
    ensures { Gives (λ x. (x.0, x.1.now)) result (number_at w32 bytes.now) }
{
    let (field, rest) = bytes_of(4, bytes)?;
    let number = u32::from_be_bytes([field[0], field[1], field[2], field[3]]);
    Ok((number, rest))
}

/// The sign of a number, 1 where it is negative.
pub fn sign_of(bytes: &[u8]) -> Result<(u8, &[u8]), ReadErr>
    ensures { Gives (λ x. (x.0, x.1.now)) result (sign_at bytes.now) }
{
    match bytes {
        [] => Err(bad(0)),
        [sign, rest @ ..] => {
            if *sign > 1 {
                return Err(bad(bytes.len()));
            }
            Ok((*sign, rest))
        }
    }
}

/// The end of a list.
pub fn end_of(bytes: &[u8]) -> Result<&[u8], ReadErr>
    ensures { Gives (λ x. x.now) result (end_at bytes.now) }
{
    match bytes {
        [] => Err(bad(0)),
        [tag::NIL, rest @ ..] => Ok(rest),
        [_, ..] => Err(bad(bytes.len())),
    }
}

/// The beginning of a text.
pub fn version_of(bytes: &[u8]) -> Result<&[u8], ReadErr>
    ensures { Gives (λ x. x.now) result (version_at bytes.now) }
{
    match bytes {
        [] => Err(bad(0)),
        [tag::VERSION, rest @ ..] => Ok(rest),
        [_, ..] => Err(bad(bytes.len())),
    }
}
