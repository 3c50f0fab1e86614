//! What a crash leaves, by a word.

use file_mem::{Choice, Effect, Tail, Taken};
use std::alloc::{AllocError, Global};

const ALL: u64 = u64::MAX;

fn all_of_the_directory(alloc: Global, others: Taken) -> Choice {
    Choice {
        dir: ALL,
        others,
        own: Vec::new(alloc),
    }
}

// The same is left of each pending operation of a file: whether a mark is done, and what stands in place of an append.
fn each(alloc: Global, done: bool, tail: Tail) -> Choice {
    all_of_the_directory(alloc, Taken::Each(Vec::new(alloc), Effect { done, tail }))
}

// Each append leaves as many bytes that have this value.
fn filled(alloc: Global, byte: u8) -> Choice {
    each(alloc, true, Tail::Fill(byte, ALL))
}

// The first pending operation of a file leaves zeros, where it is an append, and all others are done.
fn first_as_zeros(alloc: Global) -> Result<Choice, AllocError> {
    let first = Effect {
        done: true,
        tail: Tail::Fill(0, ALL),
    };
    let later = Effect {
        done: true,
        tail: Tail::Front(ALL),
    };
    let others = Taken::Each(vec![in alloc; first]?, later);
    Ok(all_of_the_directory(alloc, others))
}

// The first operations of the directory, the first of each file, and the first bytes of the next append.
fn front(alloc: Global, dir: u64, ops: u64, bytes: u64) -> Choice {
    Choice {
        dir,
        others: Taken::Front(ops, bytes),
        own: Vec::new(alloc),
    }
}

// The front that these three numbers name.
fn front_of(alloc: Global, text: &str) -> Option<Choice> {
    let (dir, rest) = text.split_once(' ')?;
    let (ops, bytes) = rest.split_once(' ')?;
    Some(front(
        alloc,
        dir.parse().ok()?,
        ops.parse().ok()?,
        bytes.parse().ok()?,
    ))
}

/// The choice that leaves all.
pub fn everything(alloc: Global) -> Choice {
    front(alloc, ALL, ALL, ALL)
}

/// The choice that these words name.
pub fn choice_of(alloc: Global, text: &str) -> Option<Choice> {
    match text {
        "nothing" => Some(front(alloc, 0, 0, 0)),
        "everything" => Some(everything(alloc)),
        "zeros" => Some(filled(alloc, 0)),
        "other-bytes" => Some(filled(alloc, 170)),
        "first-as-zeros" => first_as_zeros(alloc).ok(),
        "appends-alone" => Some(each(alloc, false, Tail::Front(ALL))),
        "marks-alone" => Some(each(alloc, true, Tail::Front(0))),
        _ => front_of(alloc, text.strip_prefix("front ")?),
    }
}
