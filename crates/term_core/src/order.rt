//! The order of terms, which is that of their trees, and their equality, which is sameness of trees.

ghost use Rattle.std.specs.Prelude.{◌≡◌, ◌↔◌, IsTrue, refl};
ghost use Rattle.std.specs.Ordering.{nat_cmp, eq_by_cmp, as_partial_cmp, on};
ghost use Rattle.std.specs.Cmp.{on_total, partial_order_from_agreeing_total, partial_equiv_from_equiv, eq_by_cmp_equiv};
ghost use Rattle.term_core.specs.Tree.{tree_cmp, trees_cmp};
ghost use Rattle.term_core.specs.Order.{tree_total};
ghost use Rattle.term_core.specs.View.{tree_of, forest_of};

use crate::term::Term;
use std::cmp::Ordering;

impl PartialEq for Term {
    ghost eq = { eq_by_cmp (on tree_of tree_cmp) };

    ghost laws = { partial_equiv_from_equiv (eq_by_cmp_equiv (on_total tree_of tree_total)) };

    fn eq(&self, other: &Term) -> bool
        ensures by_order { result ≡ eq_by_cmp (on tree_of tree_cmp) self.now other.now }
        ensures same { IsTrue result ↔ (tree_of self.now ≡ tree_of other.now) }
    {
        compare(self, other).is_eq()
    }
}

impl Eq for Term {
    ghost laws = { eq_by_cmp_equiv (on_total tree_of tree_total) };
}

impl Ord for Term {
    ghost cmp = { on tree_of tree_cmp };

    ghost total = { on_total tree_of tree_total };

    ghost matches_partial_cmp = { λ x y. refl };

    ghost matches_eq = { λ x y. refl };

    fn cmp(&self, other: &Term) -> Ordering {
        compare(self, other)
    }
}

impl PartialOrd for Term {
    ghost partial_cmp = { as_partial_cmp (on tree_of tree_cmp) };

    ghost laws = { partial_order_from_agreeing_total (on tree_of tree_cmp) (on_total tree_of tree_total) (λ x y. refl) (λ x y. refl) };

    fn partial_cmp(&self, other: &Term) -> Option<Ordering> {
        Some(compare(self, other))
    }
}

#[cycle(compare)]
#[tactic(auto, using(crate::proofs::Forests::tuple_order, crate::proofs::Forests::none_below))]
fn compare(left: &Term, right: &Term) -> Ordering
    ensures { result ≡ tree_cmp (tree_of left.now) (tree_of right.now) }
{
    match left {
        Term::Int(m) => match right {
            Term::Int(n) => m.cmp(n),
            Term::Atom(_) | Term::Tuple(_) | Term::List(_) | Term::Bin(_) => Ordering::Less,
        },
        Term::Atom(a) => match right {
            Term::Int(_) => Ordering::Greater,
            Term::Atom(b) => a.cmp(b),
            Term::Tuple(_) | Term::List(_) | Term::Bin(_) => Ordering::Less,
        },
        Term::Tuple(a) => match right {
            Term::Int(_) | Term::Atom(_) => Ordering::Greater,
            Term::Tuple(b) => match a.len().cmp(&b.len()) {
                Ordering::Less => Ordering::Less,
                Ordering::Equal => compare_all(a.as_slice(), b.as_slice()),
                Ordering::Greater => Ordering::Greater,
            },
            Term::List(_) | Term::Bin(_) => Ordering::Less,
        },
        Term::List(a) => match right {
            Term::Int(_) | Term::Atom(_) | Term::Tuple(_) => Ordering::Greater,
            Term::List(b) => compare_all(a.as_slice(), b.as_slice()),
            Term::Bin(_) => Ordering::Less,
        },
        Term::Bin(a) => match right {
            Term::Bin(b) => a.as_slice().cmp(b.as_slice()),
            Term::Int(_) | Term::Atom(_) | Term::Tuple(_) | Term::List(_) => Ordering::Greater,
        },
    }
}

/// Element by element. A proper prefix is less.
#[cycle(compare)]
#[tactic(auto, using(crate::proofs::Forests::tuple_order, crate::proofs::Forests::none_below))]
fn compare_all(left: &[Term], right: &[Term]) -> Ordering
    ensures { result ≡ trees_cmp (forest_of left.now) (forest_of right.now) }
{
    for (i, x) in left.iter().enumerate() {
        if i >= right.len() {
            return Ordering::Greater;
        }
        match compare(x, &right[i]) {
            Ordering::Less => return Ordering::Less,
            Ordering::Equal => {}
            Ordering::Greater => return Ordering::Greater,
        }
    }
    if left.len() < right.len() {
        Ordering::Less
    } else {
        Ordering::Equal
    }
}
