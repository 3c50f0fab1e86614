//! What holds of every line, over any table of forms.

ghost use Rattle.std.specs.Prelude.{◌≡◌, ◌≢◌, ℕ, true, List, []};
ghost use Rattle.mn_script.specs.Forms.{Shape, is_table};
ghost use Rattle.mn_script.specs.Grammar.{IsMeant, Said};
ghost use Rattle.mn_script.specs.Reading.{said};

/// What is said of a line is what is meant by it, over any table of forms, and nothing else is: `IsMeant` says which
/// lines say nothing, which are of which form, and at which place each other line is refused.
#[tactic(auto, using(crate::proofs::Meaning::said_means))]
pub fn line_laws()
    ensures means { (forms : List Shape) (later : List (List ℕ)) → is_table forms ≡ true → forms ≢ []
        → (line : List ℕ) → IsMeant forms later line (said forms later line) }
    ensures only { (forms : List Shape) (later : List (List ℕ)) → is_table forms ≡ true → forms ≢ []
        → (line : List ℕ) (what : Said) → IsMeant forms later line what → said forms later line ≡ what }
{}
