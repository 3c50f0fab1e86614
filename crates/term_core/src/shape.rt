//! What decides between two forms of a written term.

ghost use Rattle.std.specs.Prelude.{◌≡◌, ◌≤◌, true, length, unsigned_abs};
ghost use Rattle.term_core.specs.View.{tree_of, forest_of};
ghost use Rattle.term_core.specs.Written.{fits_byte, fits_word, is_byte, all_bytes, is_byte_list, byte_of, digits_of, trimmed};

use crate::term::Term;

/// The most numbers of a list that is written a byte each.
const MOST_NUMBERS: usize = 65535;

/// A number from 0 to 255.
pub fn fits_byte(number: i128) -> bool
    ensures { result ≡ fits_byte number }
{
    (0..256).contains(&number)
}

/// A number of 32 bits with a sign.
pub fn fits_word(number: i128) -> bool
    ensures { result ≡ fits_word number }
{
    (-2147483648..2147483648).contains(&number)
}

/// Whether a list of these elements is few enough numbers from 0 to 255.
pub fn is_string(items: &[Term]) -> bool
    ensures { result ≡ is_byte_list (forest_of items.now) }
{
    items.len() <= MOST_NUMBERS && are_bytes(items)
}

fn are_bytes(items: &[Term]) -> bool
    ensures { result ≡ all_bytes (forest_of items.now) }
{
    for item in items {
        if !is_small(item) {
            return false;
        }
    }
    true
}

fn is_small(term: &Term) -> bool
    ensures { result ≡ is_byte (tree_of term.now) }
{
    match term {
        Term::Int(number) => fits_byte(*number),
        Term::Atom(_) | Term::Tuple(_) | Term::List(_) | Term::Bin(_) => false,
    }
}

/// The number itself.
pub fn small_in(term: &Term) -> u8
    requires { is_byte (tree_of term.now) ≡ true }
    ensures { result ≡ byte_of (tree_of term.now) }
{
    match term {
        Term::Int(number) => number.unsigned_abs() as u8,
        Term::Atom(_) | Term::Tuple(_) | Term::List(_) | Term::Bin(_) => unreachable!(),
    }
}

/// The bytes without the noughts at the end.
pub fn without_noughts(bytes: &[u8]) -> &[u8]
    ensures bytes { result.now ≡ trimmed bytes.now }
    ensures within { length result.now ≤ length bytes.now }
{
    let mut count = bytes.len();
    while count > 0 && bytes[count - 1] == 0 {
        count -= 1;
    }
    &bytes[..count]
}
