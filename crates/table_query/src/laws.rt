//! The laws of patterns.

ghost use Rattle.std.specs.Prelude.{◌≡◌, ◌⊎◌, ◌↔◌, true, Some, IsTrue};
ghost use Rattle.term_core.specs.Tree.{Tree, key_of};
ghost use Rattle.table_query.specs.Patterns.{Matches, IsPlain};
ghost use Rattle.table_query.specs.Values.{is_match};

/// Whether a term matches a pattern can be told, and the test tells it. A pattern without wildcards and variables
/// matches itself alone.
#[tactic(none)]
pub fn pattern_law()
    ensures told { (pattern term : Tree) → Matches pattern term ⊎ (Matches pattern term → ⊥) }
    ensures test { (pattern term : Tree) → IsTrue (is_match pattern term) ↔ Matches pattern term }
    ensures plain { (pattern term : Tree) → IsPlain pattern → Matches pattern term ↔ (term ≡ pattern) }
{}

/// The law of bound keys: what matches a pattern whose key has no wildcard and no variable has that key.
#[tactic(none)]
pub fn bound_key_law()
    ensures { (pattern row key : Tree) → key_of pattern ≡ Some key → IsPlain key
        → IsTrue (is_match pattern row) → key_of row ≡ Some key }
{}
