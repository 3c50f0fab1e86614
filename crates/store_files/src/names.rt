//! The names of the files.

ghost use Rattle.std.specs.Prelude.{◌≡◌, ◌+◌, ◌≤◌, ◌++◌, length, take};
ghost use Rattle.file_trait.specs.Name.{IsName};
ghost use Rattle.db_model.specs.Names as tables;
ghost use Rattle.store_files.specs.Names as names;

use file_trait::FileName;
use term_core::Atom;

/// How many bytes stand behind a table's name.
const ENDING: usize = 4;

/// The most bytes of a table's name.
const MOST: usize = 64;

/// `schema.DCD`
#[tactic(auto, using(crate::proofs::FileNames::schema_named))]
pub fn schema_name() -> FileName
    ensures value { result ≡ names.schema_name }
    ensures name { IsName result }
{
    FileName::new(b"schema.DCD").unwrap()
}

/// The name of the file of a table's records: `T.DCD`.
pub fn dcd_name(table: &Atom) -> FileName
    requires { tables.IsTableName table.now }
    ensures value { result ≡ names.dcd_of table.now }
    ensures name { IsName result }
    ensures short { length result ≤ 68 }
{
    with_ending(table, b".DCD")
}

/// The name of the file of the ops that are to be done on a table's records: `T.DCL`.
pub fn dcl_name(table: &Atom) -> FileName
    requires { tables.IsTableName table.now }
    ensures value { result ≡ names.dcl_of table.now }
    ensures name { IsName result }
    ensures short { length result ≤ 68 }
{
    with_ending(table, b".DCL")
}

#[tactic(auto, using(crate::proofs::FileNames::ended))]
fn with_ending(table: &Atom, ending: &[u8; 4]) -> FileName
    requires named { tables.IsTableName table.now }
    requires ending { IsName ending.now }
    ensures value { result ≡ table.now ++ ending.now }
    ensures name { IsName result }
    ensures short { length result ≤ 68 }
{
    let front = table.as_bytes();
    let text = joined(front, ending);
    named(&text[..front.len() + ENDING])
}

/// The front and the ending, with zeros behind them.
fn joined(front: &[u8], ending: &[u8; 4]) -> [u8; 68]
    requires { length front.now ≤ 64 }
    ensures { take (length front.now + 4) result ≡ front.now ++ ending.now }
{
    let mut text = [0; MOST + ENDING];
    let len = front.len();
    text[..len].copy_from_slice(front);
    text[len..len + ENDING].copy_from_slice(ending);
    text
}

fn named(text: &[u8]) -> FileName
    requires { IsName text.now }
    ensures { result ≡ text.now }
{
    FileName::new(text).unwrap()
}
