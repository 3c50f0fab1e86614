//! A reader from the left.

ghost use Rattle.std.specs.Prelude.{◌≡◌};
ghost use Rattle.term_core.specs.View.{tree_of, forest_of};
ghost use Rattle.term_wire.specs.Reading.{Gives, width_of, term_at, tagged_at, tuple_at, list_at, items_at, text_at};

use crate::encoding::MOST_LEVELS;
use crate::fault::{Fault, ReadErr};
use crate::field::{CountBytes, bad, byte_of, count_of, end_of, four_of, version_of};
use crate::leaf::{leaf_of, numbers_of};
use crate::tag;
use sqlite_items::Items;
use std::alloc::Global;
use term_core::Term;

/// The term that all of the bytes spell.
#[tactic(auto, unfolding(crate::specs::Reading::text_at))]
pub fn text_of(alloc: Global, bytes: &[u8]) -> Result<Term, ReadErr>
    ensures { Gives tree_of result (text_at bytes.now) }
{
    let rest = version_of(bytes)?;
    let (term, rest) = term_of(alloc, MOST_LEVELS, rest)?;
    if !rest.is_empty() {
        return Err(bad(rest.len()));
    }
    Ok(term)
}

/// A term at the front, which may nest over so many levels.
#[cycle(term)]
#[tactic(auto, using(crate::proofs::Loop::term_at_below, crate::proofs::Loop::term_at_zero))]
fn term_of(alloc: Global, levels: u32, bytes: &[u8]) -> Result<(Term, &[u8]), ReadErr>
    ensures { Gives (λ x. (tree_of x.0, x.1.now)) result (term_at levels bytes.now) }
{
    let (tag, rest) = byte_of(bytes)?;
    if levels == 0 {
        return Err(ReadErr::Fault(Fault::TooDeep(bytes.len())));
    }
    tagged_of(alloc, levels - 1, tag, rest)
}

/// The same behind its tag, where the terms inside may nest over so many levels.
#[cycle(term)]
#[tactic(auto, unfolding(crate::specs::Reading::tagged_at))]
fn tagged_of(alloc: Global, levels: u32, tag: u8, bytes: &[u8]) -> Result<(Term, &[u8]), ReadErr>
    ensures { Gives (λ x. (tree_of x.0, x.1.now)) result (tagged_at levels (term_at levels) tag bytes.now) }
{
    match tag {
        tag::SMALL_TUPLE => tuple_of(alloc, levels, CountBytes::One, bytes),
        tag::LARGE_TUPLE => tuple_of(alloc, levels, CountBytes::Four, bytes),
        tag::NIL => Ok((Term::List(Items::new(alloc)), bytes)),
        tag::STRING => numbers_of(alloc, levels, bytes),
        tag::LIST => list_of(alloc, levels, bytes),
        _ => leaf_of(alloc, tag, bytes),
    }
}

#[cycle(term)]
#[tactic(auto, unfolding(crate::specs::Reading::tuple_at))]
fn tuple_of(
    alloc: Global,
    levels: u32,
    size: CountBytes,
    bytes: &[u8],
) -> Result<(Term, &[u8]), ReadErr>
    ensures { Gives (λ x. (tree_of x.0, x.1.now)) result (tuple_at (term_at levels) (width_of size) bytes.now) }
{
    let (count, rest) = count_of(size, bytes)?;
    let (items, rest) = items_of(alloc, levels, count, rest)?;
    Ok((Term::Tuple(items), rest))
}

#[cycle(term)]
#[tactic(auto, unfolding(crate::specs::Reading::list_at))]
fn list_of(alloc: Global, levels: u32, bytes: &[u8]) -> Result<(Term, &[u8]), ReadErr>
    ensures { Gives (λ x. (tree_of x.0, x.1.now)) result (list_at (term_at levels) bytes.now) }
{
    let (count, rest) = four_of(bytes)?;
    let (items, rest) = items_of(alloc, levels, count, rest)?;
    let rest = end_of(rest)?;
    Ok((Term::List(items), rest))
}

/// So many terms, one after another. No room is made for a count, which may promise more than follows.
#[cycle(term)]
fn items_of(
    alloc: Global,
    levels: u32,
    count: u32,
    bytes: &[u8],
) -> Result<(Items<Term>, &[u8]), ReadErr>
    ensures { Gives (λ x. (forest_of x.0, x.1.now)) result (items_at (term_at levels) count bytes.now) }
{
    let mut items = Items::new(alloc);
    let mut rest = bytes;
    for _ in 0..count {
        let (term, after) = term_of(alloc, levels, rest)?;
        items.push(term)?;
        rest = after;
    }
    Ok((items, rest))
}
