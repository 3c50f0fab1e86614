//! What the atoms of a pattern stand for.

ghost use Rattle.std.specs.Prelude.{◌≡◌};
ghost use Rattle.std.specs.Char.{is_ascii_digit};
ghost use Rattle.std.specs.List.{list_all};
ghost use Rattle.table_query.specs.Patterns.{is_wildcard, is_variable, are_digits};

use term_core::Atom;

/// Whether the atom is `_`.
pub fn is_wildcard(name: &Atom) -> bool
    ensures { result ≡ is_wildcard name.now }
{
    name.as_bytes() == b"_".as_slice()
}

/// Whether the atom is `$` and one or more decimal digits.
pub fn is_variable(name: &Atom) -> bool
    ensures { result ≡ is_variable name.now }
{
    match name.as_bytes() {
        [b'$', digits @ ..] => are_digits(digits),
        _ => false,
    }
}

/// One or more decimal digits.
fn are_digits(bytes: &[u8]) -> bool
    ensures { result ≡ are_digits bytes.now }
{
    !bytes.is_empty() && all_digits(bytes)
}

fn all_digits(bytes: &[u8]) -> bool
    ensures { result ≡ list_all is_ascii_digit bytes.now }
{
    bytes.iter().all(|byte| byte.is_ascii_digit())
}
