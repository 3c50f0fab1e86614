//! How deep a term nests.

ghost use Rattle.std.specs.Prelude.{◌≤◌, ◌↔◌, IsTrue};
ghost use Rattle.term_core.specs.Tree.{depth, greatest_depth};
ghost use Rattle.term_core.specs.View.{tree_of, forest_of};

use crate::term::Term;

impl Term {
    /// Whether the term nests at most so deep. A term with no elements has depth 1, and any other tuple
    /// or list is 1 deeper than the deepest of its elements.
    #[cycle(depth)]
    pub fn depth_within(&self, most: u32) -> bool
        ensures { IsTrue result ↔ (depth (tree_of self.now) ≤ most) }
    {
        if most == 0 {
            return false;
        }
        match self {
            Term::Int(_) | Term::Atom(_) | Term::Bin(_) => true,
            Term::Tuple(items) => all_within(items.as_slice(), most - 1),
            Term::List(items) => all_within(items.as_slice(), most - 1),
        }
    }
}

#[cycle(depth)]
fn all_within(items: &[Term], most: u32) -> bool
    ensures { IsTrue result ↔ (greatest_depth (forest_of items.now) ≤ most) }
{
    for item in items {
        if !item.depth_within(most) {
            return false;
        }
    }
    true
}
