//! What holds of all texts.

ghost use Rattle.std.specs.Prelude.{◌≡◌, ◌≤◌, ◌<◌, ◌+◌, ◌++◌, ℕ, suc, List, length};
ghost use Rattle.term_core.specs.Tree.{Tree, depth};
ghost use Rattle.term_text.specs.Grammar.{IsText, Stops};
ghost use Rattle.term_core.specs.Kept.{IsKept};
ghost use Rattle.term_text.specs.Places.{read};
ghost use Rattle.term_text.specs.Viable.{IsLate, IsWide, NoText};
ghost use Rattle.term_text.specs.declared.error.TextErr.TheVariants.{Bad, TooDeep, WideInt};
ghost use Rattle.term_text.specs.Printing.{printed};

/// What is printed of a term is a text of it.
#[tactic(auto, using(crate::proofs::PrintedTexts::printed_is))]
pub fn printed_is_text()
    ensures { (t : Tree) → IsKept t → IsText t (printed t) }
{}

/// What was printed of a term of at most so many levels is read again, wherever it stands.
#[tactic(auto, using(crate::proofs::PrintedTexts::printed_again))]
pub fn printed_is_read()
    ensures { (levels : ℕ) (t : Tree) (front rest : List ℕ) → IsKept t → depth t ≤ levels → Stops t (printed t) rest
        → read levels (front ++ (printed t ++ rest)) (length front) ≡ Ok (t, length front + length (printed t)) }
{}

/// No text is that of two trees.
#[tactic(auto, using(crate::proofs::Again::one_tree))]
pub fn one_tree()
    ensures { (s t : Tree) (text : List ℕ) → IsText s text → IsText t text → s ≡ t }
{}

/// Where a text is refused, what stands before the place may go on as a text of a term, of however many levels.
#[tactic(auto, using(crate::proofs::RefusedTerms::is_late, crate::proofs::RefusedTerms::is_late_wide, crate::proofs::RefusedTerms::is_late_deep))]
pub fn refused_late()
    ensures bad { (levels : ℕ) (text : List ℕ) (at place : ℕ) → at ≤ length text
        → read levels text at ≡ Err (Bad place) → IsLate text at place }
    ensures wide { (levels : ℕ) (text : List ℕ) (at place : ℕ) → at ≤ length text
        → read levels text at ≡ Err (WideInt place) → IsLate text at place }
    ensures deep { (levels : ℕ) (text : List ℕ) (at place : ℕ) → at ≤ length text
        → read levels text at ≡ Err (TooDeep place) → IsLate text at place }
{}

/// And with what stands at the place it may not as one of at most so many levels, unless what follows continues a
/// character that the text ends in. Of a text that ends too early, which is `Bad` at its end, this is not said.
#[tactic(auto, using(crate::proofs::Cut::is_early, crate::proofs::Cut::is_early_wide, crate::proofs::Cut::is_early_deep))]
pub fn refused_early()
    ensures bad { (levels : ℕ) (text : List ℕ) (at place : ℕ) → at ≤ length text
        → read levels text at ≡ Err (Bad place) → place < length text → NoText levels text at }
    ensures wide { (levels : ℕ) (text : List ℕ) (at place : ℕ) → at ≤ length text
        → read levels text at ≡ Err (WideInt place) → NoText levels text at }
    ensures deep { (levels : ℕ) (text : List ℕ) (at place : ℕ) → at ≤ length text
        → read levels text at ≡ Err (TooDeep place) → NoText levels text at }
{}

/// A number of more than 128 bits is refused at its first byte, which is its `-` where it has one, whatever stands before and
/// behind it, where it is on no level too many.
#[tactic(auto, using(crate::proofs::Wide::wide_refused))]
pub fn refused_wide()
    ensures { (levels : ℕ) (front text more : List ℕ) → IsWide text
        → read (suc levels) (front ++ (text ++ more)) (length front) ≡ Err (WideInt (length front)) }
{}
