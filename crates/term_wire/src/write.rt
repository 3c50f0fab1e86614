//! The spelling of a term, written at the end of a vector.

ghost use Rattle.std.specs.Prelude.{◌≡◌, ◌≤◌, ◌<◌, ◌^◌, ◌∷◌, ◌++◌, [], length, true, OnOk};
ghost use Rattle.std.specs.Int.{w16, w32, to_be_bytes, from_bool};
ghost use Rattle.term_core.specs.Tree as trees;
ghost use Rattle.term_core.specs.Tree.{int, tuple, list, bin};
ghost use Rattle.term_core.specs.View.{tree_of, forest_of};
ghost use Rattle.term_core.specs.Written.{written, all_written, all_bytes, bytes_of, tuple_front};
ghost use Rattle.term_core.specs.Kept.{IsKept, AreKept};
ghost use Rattle.term_wire.specs.Appends.{Appends};

use crate::tag;
use std::alloc::AllocError;
use term_core::{Atom, Term, fits_byte, fits_word, is_string, small_in, without_noughts};

#[cycle(write)]
pub fn put(term: &Term, out: &mut Vec<u8>) -> Result<(), AllocError>
    requires { length (written (tree_of term.now)) < 2 ^ 32 }
    ensures adds { Appends result out.old.items out.new.items (written (tree_of term.now)) }
    ensures kept { OnOk result (IsKept (tree_of term.now)) }
{
    match term {
        Term::Int(number) => put_number(*number, out),
        Term::Atom(atom) => put_atom(atom, out),
        Term::Tuple(items) => put_tuple(items.as_slice(), out),
        Term::List(items) => put_list(items.as_slice(), out),
        Term::Bin(bytes) => put_binary(bytes.as_slice(), out),
    }
}

fn put_number(number: i128, out: &mut Vec<u8>) -> Result<(), AllocError>
    ensures adds { Appends result out.old.items out.new.items (written (int number)) }
    ensures kept { OnOk result (IsKept (int number)) }
{
    if fits_byte(number) {
        out.extend_from_slice(&[tag::SMALL_INTEGER, number.unsigned_abs() as u8])
    } else if fits_word(number) {
        let [a, b, c, d] = (number as i32).to_be_bytes();
        out.extend_from_slice(&[tag::INTEGER, a, b, c, d])
    } else {
        let bytes = number.unsigned_abs().to_le_bytes();
        put_wide(number < 0, without_noughts(&bytes), out)
    }
}

/// A sign, and the bytes of a number, the lowest first.
fn put_wide(negative: bool, digits: &[u8], out: &mut Vec<u8>) -> Result<(), AllocError>
    requires { length digits.now ≤ 255 }
    ensures { Appends result out.old.items out.new.items (110 ∷ length digits.now ∷ from_bool negative ∷ digits.now) }
{
    out.extend_from_slice(&[tag::SMALL_BIG, digits.len() as u8, u8::from(negative)])?;
    out.extend_from_slice(digits)
}

/// Puts what is written of an atom behind the bytes of `out`. Where memory is wanting some of it may stand there.
pub fn put_atom(atom: &Atom, out: &mut Vec<u8>) -> Result<(), AllocError>
    ensures adds { Appends result out.old.items out.new.items (written (trees.atom atom.now)) }
    ensures kept { OnOk result (IsKept (trees.atom atom.now)) }
{
    let text = atom.text();
    if text.len() <= 255 {
        out.extend_from_slice(&[tag::SMALL_ATOM_UTF8, text.len() as u8])?;
    } else {
        let [a, b] = (text.len() as u16).to_be_bytes();
        out.extend_from_slice(&[tag::ATOM_UTF8, a, b])?;
    }
    out.extend_from_slice(text.as_bytes())
}

fn put_binary(bytes: &[u8], out: &mut Vec<u8>) -> Result<(), AllocError>
    requires { length (written (bin bytes.now)) < 2 ^ 32 }
    ensures adds { Appends result out.old.items out.new.items (written (bin bytes.now)) }
    ensures kept { OnOk result (IsKept (bin bytes.now)) }
{
    let [a, b, c, d] = (bytes.len() as u32).to_be_bytes();
    out.extend_from_slice(&[tag::BINARY, a, b, c, d])?;
    out.extend_from_slice(bytes)
}

#[cycle(write)]
fn put_tuple(items: &[Term], out: &mut Vec<u8>) -> Result<(), AllocError>
    requires { length (written (tuple (forest_of items.now))) < 2 ^ 32 }
    ensures adds { Appends result out.old.items out.new.items (written (tuple (forest_of items.now))) }
    ensures kept { OnOk result (AreKept (forest_of items.now)) }
{
    put_tuple_front(items.len() as u32, out)?;
    put_all(items, out)
}

fn put_tuple_front(count: u32, out: &mut Vec<u8>) -> Result<(), AllocError>
    ensures { Appends result out.old.items out.new.items (tuple_front count) }
{
    let [a, b, c, d] = count.to_be_bytes();
    if count <= 255 {
        out.extend_from_slice(&[tag::SMALL_TUPLE, d])
    } else {
        out.extend_from_slice(&[tag::LARGE_TUPLE, a, b, c, d])
    }
}

#[cycle(write)]
fn put_list(items: &[Term], out: &mut Vec<u8>) -> Result<(), AllocError>
    requires { length (written (list (forest_of items.now))) < 2 ^ 32 }
    ensures adds { Appends result out.old.items out.new.items (written (list (forest_of items.now))) }
    ensures kept { OnOk result (AreKept (forest_of items.now)) }
{
    if items.is_empty() {
        out.extend_from_slice(&[tag::NIL])
    } else if is_string(items) {
        put_string(items, out)
    } else {
        put_elements(items, out)
    }
}

fn put_string(items: &[Term], out: &mut Vec<u8>) -> Result<(), AllocError>
    requires few { length items.now ≤ 65535 }
    requires small { all_bytes (forest_of items.now) ≡ true }
    ensures { Appends result out.old.items out.new.items (107 ∷ (to_be_bytes w16 (length items.now) ++ bytes_of (forest_of items.now))) }
{
    let [a, b] = (items.len() as u16).to_be_bytes();
    out.extend_from_slice(&[tag::STRING, a, b])?;
    put_bytes(items, out)
}

fn put_bytes(items: &[Term], out: &mut Vec<u8>) -> Result<(), AllocError>
    requires { all_bytes (forest_of items.now) ≡ true }
    ensures { Appends result out.old.items out.new.items (bytes_of (forest_of items.now)) }
{
    for item in items {
        out.push(small_in(item))?;
    }
    Ok(())
}

#[cycle(write)]
fn put_elements(items: &[Term], out: &mut Vec<u8>) -> Result<(), AllocError>
    requires few { length items.now < 2 ^ 32 }
    requires short { length (all_written (forest_of items.now)) < 2 ^ 32 }
    ensures adds { Appends result out.old.items out.new.items (108 ∷ (to_be_bytes w32 (length items.now) ++ (all_written (forest_of items.now) ++ 106 ∷ []))) }
    ensures kept { OnOk result (AreKept (forest_of items.now)) }
{
    let [a, b, c, d] = (items.len() as u32).to_be_bytes();
    out.extend_from_slice(&[tag::LIST, a, b, c, d])?;
    put_all(items, out)?;
    out.extend_from_slice(&[tag::NIL])
}

/// One after another.
#[cycle(write)]
fn put_all(items: &[Term], out: &mut Vec<u8>) -> Result<(), AllocError>
    requires { length (all_written (forest_of items.now)) < 2 ^ 32 }
    ensures adds { Appends result out.old.items out.new.items (all_written (forest_of items.now)) }
    ensures kept { OnOk result (AreKept (forest_of items.now)) }
{
    for item in items {
        put(item, out)?;
    }
    Ok(())
}
