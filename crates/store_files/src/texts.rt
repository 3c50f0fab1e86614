//! The terms of contents.

ghost use Rattle.std.specs.Prelude.{◌≡◌, IfOk, MatchOption, None};
ghost use Rattle.term_core.specs.Tree.{Tree};
ghost use Rattle.term_core.specs.View.{tree_of};
ghost use Rattle.term_wire.specs.Spelling.{IsText};

use std::alloc::{AllocError, Global};
use term_core::Term;
use term_wire::{WireErr, decode};

/// The term that a content is a text of, where it is one.
pub(crate) fn term_of(alloc: Global, content: &[u8]) -> Result<Option<Term>, AllocError>
    ensures { IfOk result (λ found. MatchOption found ((term : Tree) → IsText content.now term → ⊥)
        (λ term. IsText content.now (tree_of term))) }
{
    match decode(alloc, content) {
        Ok(term) => Ok(Some(term)),
        Err(error) => no_term(error),
    }
}

/// A content that cannot be read is no text, but want of memory tells nothing.
fn no_term(error: WireErr) -> Result<Option<Term>, AllocError>
    ensures { IfOk result (λ found. (found ≡ None) × (error ≡ WireErr.Memory → ⊥)) }
{
    match error {
        WireErr::Memory => Err(AllocError),
        WireErr::Bad(_) | WireErr::Outside(_, _) | WireErr::WideInt(_) | WireErr::TooDeep(_) => Ok(
            None,
        ),
    }
}
