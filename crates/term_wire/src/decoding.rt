//! The term of a text.

ghost use Rattle.std.specs.Prelude.{◌≡◌, ◌≤◌, ◌^◌, ℕ, List, length, IfOk, Ok};
ghost use Rattle.term_core.specs.Tree.{Tree, depth};
ghost use Rattle.term_core.specs.View.{tree_of};
ghost use Rattle.term_core.specs.Written.{canon};
ghost use Rattle.term_core.specs.Kept.{IsKept};
ghost use Rattle.term_wire.specs.Decoding.{Answers, left_of, placed, read};
ghost use Rattle.term_wire.specs.Spelling.{IsText};

use crate::error::WireErr;
use crate::fault::{Fault, ReadErr};
use crate::reading::text_of;
use std::alloc::Global;
use term_core::Term;

/// The term that all of the bytes are a text of.
pub fn decode(alloc: Global, bytes: &[u8]) -> Result<Term, WireErr>
    // The bytes are a text of the term that is read.
    ensures found { IfOk result (λ term. IsText bytes.now (tree_of term)) }
    // Whatever the bytes are a text of is read, unless memory runs out.
    ensures only { (t : Tree) → IsText bytes.now t → Answers tree_of result (Ok t) }
    // Which refusal it is, and at which place.
    ensures exact { Answers tree_of result (read bytes.now) }
{
    read_all(alloc, bytes)
}

/// No text is that of two trees.
pub fn one_tree()
    ensures { (bytes : List ℕ) (s t : Tree) → IsText bytes s → IsText bytes t → s ≡ t }
{}

/// What is written of a tree is a text of it, where a term can stand for the tree and it is neither too deep nor too long.
pub fn written_text()
    ensures { (t : Tree) → IsKept t → depth t ≤ 128 → length (canon t) ≤ 2 ^ 28 → IsText (canon t) t }
{}

fn read_all(alloc: Global, bytes: &[u8]) -> Result<Term, WireErr>
    ensures { Answers tree_of result (read bytes.now) }
{
    match text_of(alloc, bytes) {
        Ok(term) => Ok(term),
        Err(ReadErr::Fault(fault)) => Err(place(fault, bytes.len())),
        Err(ReadErr::Memory) => Err(WireErr::Memory),
    }
}

/// The refusal for a fault in a text that ends there.
fn place(fault: Fault, end: usize) -> WireErr
    requires { left_of fault ≤ end }
    ensures { result ≡ placed end fault }
{
    match fault {
        Fault::Bad(left) => WireErr::Bad(end - left),
        Fault::Outside(tag, left) => WireErr::Outside(tag, end - left),
        Fault::WideInt(left) => WireErr::WideInt(end - left),
        Fault::TooDeep(left) => WireErr::TooDeep(end - left),
    }
}
