//! The laws of the order of terms, which is that of their trees.

ghost use Rattle.std.specs.Prelude.{◌≡◌, ◌⊎◌, ◌↔◌, ℕ, List};
ghost use Rattle.std.specs.Str.{encode_utf8_all};
ghost use Rattle.std.specs.declared.cmp.Ordering.TheVariants.{Less, Equal};
ghost use Rattle.term_core.specs.Tree.{Tree, tree_cmp};
ghost use Rattle.term_core.specs.Less.{Before, IsLess};

/// Terms compare as `Less` exactly where the one comes before the other, and as `Equal` exactly where their trees are the
/// same. Of two trees that differ one comes before the other; none comes before itself; and what comes before a tree comes
/// before all that come after that tree.
#[tactic(none)]
pub fn order_law()
    ensures less { (x y : Tree) → (tree_cmp x y ≡ Less) ↔ IsLess x y }
    ensures same { (x y : Tree) → (tree_cmp x y ≡ Equal) ↔ (x ≡ y) }
    ensures total { (x y : Tree) → IsLess x y ⊎ (x ≡ y) ⊎ IsLess y x }
    ensures irreflexive { (x : Tree) → IsLess x x → ⊥ }
    ensures transitive { (x y z : Tree) → IsLess x y → IsLess y z → IsLess x z }
{}

/// Texts in UTF-8 come in the order of their characters, so atoms do.
#[tactic(none)]
pub fn character_law()
    ensures { (characters others : List ℕ) → Before (encode_utf8_all characters) (encode_utf8_all others) ↔ Before characters others }
{}
