//! How long the written text of a term is.

ghost use Rattle.std.specs.Prelude.{◌≡◌, ◌+◌, ◌<◌, ◌≤◌, ◌^◌, if◌then◌else◌, length, nat_le, MatchOption};
ghost use Rattle.term_core.specs.Tree.{tuple, list};
ghost use Rattle.term_core.specs.View.{tree_of, forest_of};
ghost use Rattle.term_core.specs.Written.{written, all_written, canon, number_written, digits_of};

use crate::shape::{fits_byte, fits_word, is_string, without_noughts};
use crate::term::Term;

/// The bytes of the longest text.
const MOST_BYTES: usize = 1 << 28;

/// How many bytes the written text of the term has, or 2^28 + 1 where it has more than 2^28.
pub fn wire_len(term: &Term) -> u64
    ensures fits { length (canon (tree_of term.now)) ≤ 2 ^ 28 → result ≡ length (canon (tree_of term.now)) }
    ensures long { 2 ^ 28 < length (canon (tree_of term.now)) → result ≡ 2 ^ 28 + 1 }
{
    match room_after(term, MOST_BYTES - 1) {
        Some(left) => (MOST_BYTES - left) as u64,
        None => MOST_BYTES as u64 + 1,
    }
}

/// The room that the term leaves behind its tag and fields, or `None` where it does not fit.
#[cycle(length)]
fn room_after(term: &Term, room: usize) -> Option<usize>
    ensures { MatchOption result (room < length (written (tree_of term.now))) (λ left. left + length (written (tree_of term.now)) ≡ room) }
{
    match term {
        Term::Int(number) => room.checked_sub(number_len(*number)),
        Term::Atom(atom) => room
            .checked_sub(front_len(2, 3, atom.as_bytes().len()))?
            .checked_sub(atom.as_bytes().len()),
        Term::Tuple(items) => room_after_tuple(items.as_slice(), room),
        Term::List(items) => room_after_list(items.as_slice(), room),
        Term::Bin(bytes) => room.checked_sub(5)?.checked_sub(bytes.len()),
    }
}

/// The same for a tuple of these elements.
#[cycle(length)]
fn room_after_tuple(items: &[Term], room: usize) -> Option<usize>
    ensures { MatchOption result (room < length (written (tuple (forest_of items.now)))) (λ left. left + length (written (tuple (forest_of items.now))) ≡ room) }
{
    room_after_all(items, room.checked_sub(front_len(2, 5, items.len()))?)
}

/// The same for a list of these elements.
#[cycle(length)]
fn room_after_list(items: &[Term], room: usize) -> Option<usize>
    ensures { MatchOption result (room < length (written (list (forest_of items.now)))) (λ left. left + length (written (list (forest_of items.now))) ≡ room) }
{
    if items.is_empty() {
        return room.checked_sub(1);
    }
    if is_string(items) {
        return room.checked_sub(3 + items.len());
    }
    room_after_all(items, room.checked_sub(6)?)
}

/// The same for terms that are written one after another.
#[cycle(length)]
fn room_after_all(items: &[Term], mut room: usize) -> Option<usize>
    ensures { MatchOption result (room < length (all_written (forest_of items.now))) (λ left. left + length (all_written (forest_of items.now)) ≡ room) }
{
    for item in items {
        room = room_after(item, room)?;
    }
    Some(room)
}

/// The tag and the count in front of so many bytes or terms: a short form up to 255, and else a long one.
fn front_len(short: usize, long: usize, count: usize) -> usize
    ensures { result ≡ (if nat_le count 255 then short else long) }
{
    if count <= 255 { short } else { long }
}

fn number_len(number: i128) -> usize
    ensures { result ≡ length (number_written number) }
{
    if fits_byte(number) {
        2
    } else if fits_word(number) {
        5
    } else {
        3 + digits_len(number)
    }
}

fn digits_len(number: i128) -> usize
    ensures count { result ≡ length (digits_of number) }
    ensures short { result ≤ 16 }
{
    without_noughts(&number.unsigned_abs().to_le_bytes()).len()
}
