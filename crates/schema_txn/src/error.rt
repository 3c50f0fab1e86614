//! Why a command on a whole table was refused.

ghost use Rattle.std.specs.Prelude.{◌≡◌};
ghost use Rattle.schema_txn.specs.declared.error.SchemaErr.TheVariants.{Memory};

use std::alloc::AllocError;
use term_core::Atom;

/// Why a command on a whole table was refused.
#[derive(Drop)]
pub enum SchemaErr {
    /// A table of this name stands.
    Exists(Atom),
    /// No table of the name stands.
    NoTable,
    /// As many tables stand as may.
    TooManyTables,
    /// There is no version behind that of the database.
    TooManyVersions,
    /// Memory ran out.
    Memory,
}

impl From<AllocError> for SchemaErr {
    ghost from_gives = { λ _ e. e ≡ Memory };

    fn from(_error: AllocError) -> SchemaErr {
        SchemaErr::Memory
    }
}
