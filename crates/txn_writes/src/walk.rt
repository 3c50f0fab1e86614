//! Walks over the keys of a table and those of own ops, in order.

ghost use Rattle.std.specs.Prelude.{◌≡◌};
ghost use Rattle.std.specs.Option.{option_map, option_copied};
ghost use Rattle.term_core.specs.View.{tree_of};
ghost use Rattle.txn_writes.specs.Walks.{IsNext, IsOneOf, live_keys, own_keys, all_keys, lesser};

use crate::key_places::KeyPlaces;
use ram_table::RamTable;
use term_core::Term;

/// The least key above the last one, or the least of all, among those of the table and of own ops.
pub fn next_key<'a>(
    own: Option<&'a KeyPlaces>,
    table: &'a RamTable,
    last: Option<&Term>,
) -> Option<&'a Term>
    ensures next { IsNext (option_map tree_of (option_copied last.entry))
        (all_keys (option_copied own.entry) table.now) (option_map tree_of (option_copied result)) }
    ensures one_of { IsOneOf (all_keys (option_copied own.entry) table.now)
        (option_map tree_of (option_copied result)) }
{
    lesser(next_live(table, last), next_own(own, last))
}

/// The least key of the table above the last one.
fn next_live<'a>(table: &'a RamTable, last: Option<&Term>) -> Option<&'a Term>
    ensures next { IsNext (option_map tree_of (option_copied last.entry)) (live_keys table.now)
        (option_map tree_of (option_copied result)) }
    ensures one_of { IsOneOf (live_keys table.now) (option_map tree_of (option_copied result)) }
{
    table.key_law();
    table.next_key(last)
}

/// The least key of own ops above the last one.
fn next_own<'a>(own: Option<&'a KeyPlaces>, last: Option<&Term>) -> Option<&'a Term>
    ensures next { IsNext (option_map tree_of (option_copied last.entry)) (own_keys (option_copied own.entry))
        (option_map tree_of (option_copied result)) }
    ensures one_of { IsOneOf (own_keys (option_copied own.entry)) (option_map tree_of (option_copied result)) }
{
    match own {
        Some(places) => places.next_key(last),
        None => None,
    }
}

/// The lesser of two keys, or the one that there is.
fn lesser<'a>(one: Option<&'a Term>, other: Option<&'a Term>) -> Option<&'a Term>
    ensures { option_map tree_of (option_copied result)
        ≡ lesser (option_map tree_of (option_copied one.entry)) (option_map tree_of (option_copied other.entry)) }
{
    match one {
        Some(key) => match other {
            Some(found) => {
                if found.cmp(key).is_lt() {
                    Some(found)
                } else {
                    Some(key)
                }
            }
            None => Some(key),
        },
        None => other,
    }
}
