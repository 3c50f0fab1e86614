//! The first item of a log.

ghost use Rattle.std.specs.Prelude.{◌≡◌, ◌↔◌, false, IfOk, IsTrue};
ghost use Rattle.term_core.specs.Tree as trees;
ghost use Rattle.term_core.specs.View.{tree_of};
ghost use Rattle.txn_log.specs.Commits as commits;

use sqlite_items::Items;
use std::alloc::{AllocError, Global};
use term_core::{Atom, Term};
use term_wire::{WireErr, decode};

/// The text that is written of the first item of a log, `{log1}`.
pub(crate) const HEAD_TEXT: [u8; 9] = [131, 104, 1, 119, 4, 108, 111, 103, 49];

/// Whether an item's content is a text of `{log1}`.
pub(crate) fn is_head(alloc: Global, content: &[u8]) -> Result<bool, AllocError>
    ensures { IfOk result (λ is. IsTrue is ↔ commits.IsHead content.now) }
{
    match decode(alloc, content) {
        Ok(term) => is_log_head(alloc, &term),
        Err(error) => no_head(error),
    }
}

/// A content that cannot be read is no text, but want of memory tells nothing.
fn no_head(error: WireErr) -> Result<bool, AllocError>
    ensures { IfOk result (λ is. (is ≡ false) × (error ≡ WireErr.Memory → ⊥)) }
{
    match error {
        WireErr::Memory => Err(AllocError),
        WireErr::Bad(_) | WireErr::Outside(_, _) | WireErr::WideInt(_) | WireErr::TooDeep(_) => {
            Ok(false)
        }
    }
}

fn is_log_head(alloc: Global, term: &Term) -> Result<bool, AllocError>
    ensures { IfOk result (λ same. IsTrue same ↔ (tree_of term.now ≡ commits.log_head)) }
{
    let mut parts = Items::new(alloc);
    parts.push(atom(alloc, "log1")?)?;
    Ok(Term::Tuple(parts) == *term)
}

/// The atom of a text of at most 255 characters, so that only memory may be wanting.
fn atom(alloc: Global, text: &str) -> Result<Term, AllocError>
    ensures { IfOk result (λ term. tree_of term ≡ trees.atom text.now) }
{
    match Atom::new(alloc, text) {
        Ok(atom) => Ok(Term::Atom(atom)),
        Err(_) => Err(AllocError),
    }
}
