//! Which records a table can have.

ghost use Rattle.std.specs.Prelude.{◌≡◌, ◌↔◌, length, IsTrue};
ghost use Rattle.term_core.specs.View.{tree_of};
ghost use Rattle.db_model.specs.Records.{HasElements, IsStorable, Fits, Allows};
ghost use Rattle.db_model.specs.View.{definition, operation};

use crate::definition::TableDef;
use crate::op::Op;
use crate::op_terms::front_atom;
use term_core::{Atom, Term, wire_len};

/// The levels of the deepest record.
const MOST_LEVELS: u32 = 100;

/// The bytes of the longest record's text.
const MOST_BYTES: u64 = 1 << 26;

/// Whether a table of this definition can have this record: a tuple of the record name and an element for each
/// attribute, of at most 100 levels and with a written text of at most 2^26 bytes.
pub fn fits(def: &TableDef, row: &Term) -> bool
    ensures { IsTrue result ↔ Fits (definition def.now) (tree_of row.now) }
{
    has_elements(def, row) && is_storable(row)
}

/// Whether an op may be done on a table of this definition: the record that is written or deleted fits, and a key has
/// at most 100 levels and a written text of at most 2^26 bytes. All records may be deleted always.
pub fn allows(def: &TableDef, op: &Op) -> bool
    ensures { IsTrue result ↔ Allows (definition def.now) (operation op.now) }
{
    match op {
        Op::Write(_, row) => fits(def, row),
        Op::Delete(_, key) => is_storable(key),
        Op::DeleteObject(_, row) => fits(def, row),
        Op::Clear(_) => true,
    }
}

/// Whether it begins with the record name and has an element for each attribute.
fn has_elements(def: &TableDef, row: &Term) -> bool
    ensures { IsTrue result ↔ HasElements (definition def.now) (tree_of row.now) }
{
    let Term::Tuple(parts) = row else {
        return false;
    };
    match front_atom(parts.as_slice()) {
        Some((name, elements)) => is_described(def, name, elements),
        None => false,
    }
}

/// Whether the name is the record name, and there is an element for each attribute.
fn is_described(def: &TableDef, name: &Atom, elements: &[Term]) -> bool
    ensures { IsTrue result ↔ ((name.now ≡ def.now.record_name) × (length elements.now ≡ length def.now.attributes)) }
{
    *name == def.record_name && elements.len() == def.attributes.len()
}

/// Whether a record or a key is small enough to be stored.
fn is_storable(item: &Term) -> bool
    ensures { IsTrue result ↔ IsStorable (tree_of item.now) }
{
    item.depth_within(MOST_LEVELS) && wire_len(item) <= MOST_BYTES
}
