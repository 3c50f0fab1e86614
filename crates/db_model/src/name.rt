//! What a table can be called.

ghost use Rattle.std.specs.Prelude.{◌↔◌, IsTrue, All};
ghost use Rattle.db_model.specs.Names.{IsNameByte, IsName, IsTableName};

use term_core::Atom;

/// The most characters of a name.
const MOST_CHARACTERS: usize = 64;

/// Whether the atom is a name: 1 to 64 characters of `A-Z a-z 0-9 _ @`.
pub fn is_name(name: &Atom) -> bool
    ensures { IsTrue result ↔ IsName name.now }
{
    let bytes = name.as_bytes();
    !bytes.is_empty() && bytes.len() <= MOST_CHARACTERS && are_name_bytes(bytes)
}

/// Whether a table can be called so: by any name but `schema`.
pub fn is_table_name(name: &Atom) -> bool
    ensures { IsTrue result ↔ IsTableName name.now }
{
    is_name(name) && name.as_bytes() != b"schema".as_slice()
}

fn are_name_bytes(bytes: &[u8]) -> bool
    ensures { IsTrue result ↔ All IsNameByte bytes.now }
{
    bytes.iter().all(|&byte| is_name_byte(byte))
}

fn is_name_byte(byte: u8) -> bool
    ensures { IsTrue result ↔ IsNameByte byte }
{
    byte.is_ascii_alphanumeric() || byte == b'_' || byte == b'@'
}
