//! Records in the order of contents.

ghost use Rattle.std.specs.Prelude.{◌≡◌, true, MatchOption};
ghost use Rattle.std.specs.Option.{option_copied};
ghost use Rattle.term_core.specs.View.{tree_of};
ghost use Rattle.store_files.specs.Tables.{is_before};

use db_model::Kind;
use std::cmp::Ordering;
use term_core::Term;

/// Whether a record may stand behind the last one.
pub(crate) fn follows(kind: Kind, last: Option<&Term>, row: &Term) -> bool
    ensures { MatchOption (option_copied last.entry) (result ≡ true)
        (λ last. result ≡ is_before kind (tree_of last) (tree_of row.now)) }
{
    match last {
        Some(last) => is_before(kind, last, row),
        None => true,
    }
}

/// Whether a record comes before another: its key does, or in a bag it has that key and comes before it itself.
fn is_before(kind: Kind, row: &Term, other: &Term) -> bool
    ensures { result ≡ is_before kind (tree_of row.now) (tree_of other.now) }
{
    let (Some(key), Some(next)) = (row.key(), other.key()) else {
        return false;
    };
    match key.cmp(next) {
        Ordering::Less => true,
        Ordering::Equal => match kind {
            Kind::Bag => row < other,
            Kind::Set | Kind::OrderedSet => false,
        },
        Ordering::Greater => false,
    }
}
