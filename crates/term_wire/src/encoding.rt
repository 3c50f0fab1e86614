//! The text of a term.

ghost use Rattle.std.specs.Prelude.{◌≡◌, ◌≤◌, ◌<◌, ◌^◌, ◌↔◌, ◌++◌, length, OnOk, OnErr, IsErrOf};
ghost use Rattle.term_core.specs.Tree.{depth};
ghost use Rattle.term_core.specs.View.{tree_of};
ghost use Rattle.term_core.specs.Written.{canon, written};
ghost use Rattle.term_core.specs.Kept.{IsKept};
ghost use Rattle.term_wire.specs.Appends.{Appends};
ghost use Rattle.term_wire.specs.Spelling.{IsText};

use crate::error::EncodeErr;
use crate::tag;
use crate::write::put;
use std::alloc::AllocError;
use term_core::{Term, wire_len};

/// The levels of the deepest term that has a text.
pub const MOST_LEVELS: u32 = 128;

/// The bytes of the longest text.
const MOST_BYTES: u64 = 1 << 28;

/// Adds the text of a term at the end of `out`. An error leaves `out` as it was.
pub fn encode(term: &Term, out: &mut Vec<u8>) -> Result<(), EncodeErr>
    ensures ok { OnOk result (out.new.items ≡ out.old.items ++ canon (tree_of term.now)) }
    ensures fits { OnOk result ((depth (tree_of term.now) ≤ 128) × (length (canon (tree_of term.now)) ≤ 2 ^ 28)) }
    // What is written is a text of the term.
    ensures spells { OnOk result (IsText (canon (tree_of term.now)) (tree_of term.now)) }
    ensures err { OnErr result (out.new.items ≡ out.old.items) }

    // Only a deep term is too deep, and of the others only a long one is too long.
    ensures too_deep { (result ≡ Err EncodeErr.TooDeep) ↔ (128 < depth (tree_of term.now)) }
    ensures too_long { (result ≡ Err EncodeErr.TooLong) ↔ ((depth (tree_of term.now) ≤ 128) × (2 ^ 28 < length (canon (tree_of term.now)))) }
{
    if !term.depth_within(MOST_LEVELS) {
        return Err(EncodeErr::TooDeep);
    }
    if wire_len(term) > MOST_BYTES {
        return Err(EncodeErr::TooLong);
    }
    let before = out.len();
    if put_text(term, out).is_err() {
        out.truncate(before);
        return Err(EncodeErr::Memory);
    }
    Ok(())
}

/// Puts what is written of a term behind the bytes of `out`: its text without byte 131, as it stands inside of other
/// texts. A term is too long where its own text would be, and never too deep. An error leaves `out` as it was.
pub fn put_term(term: &Term, out: &mut Vec<u8>) -> Result<(), EncodeErr>
    ensures ok { OnOk result (out.new.items ≡ out.old.items ++ written (tree_of term.now)) }
    ensures kept { OnOk result (IsKept (tree_of term.now)) }
    ensures err { OnErr result (out.new.items ≡ out.old.items) }
    ensures too_long { (result ≡ Err EncodeErr.TooLong) ↔ (2 ^ 28 < length (canon (tree_of term.now))) }
    ensures never { IsErrOf result EncodeErr.TooDeep → ⊥ }
{
    if wire_len(term) > MOST_BYTES {
        return Err(EncodeErr::TooLong);
    }
    let front = out.len();
    if put(term, out).is_err() {
        out.truncate(front);
        return Err(EncodeErr::Memory);
    }
    Ok(())
}

/// The same where the text is neither too deep nor too long.
fn put_text(term: &Term, out: &mut Vec<u8>) -> Result<(), AllocError>
    requires { length (canon (tree_of term.now)) ≤ 2 ^ 28 }
    ensures adds { Appends result out.old.items out.new.items (canon (tree_of term.now)) }
    ensures kept { OnOk result (IsKept (tree_of term.now)) }
{
    out.push(tag::VERSION)?;
    put(term, out)
}
