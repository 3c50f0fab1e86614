//! Atoms, and their order.

ghost use Rattle.std.specs.Prelude.{◌≡◌, ◌<◌, ◌≤◌, ◌↔◌, length, refl, IfOk, IfErr, IsTrue};
ghost use Rattle.std.specs.Str.{chars};
ghost use Rattle.std.specs.Ordering.{nat_cmp, eq_by_cmp, as_partial_cmp};
ghost use Rattle.std.specs.Cmp.{partial_equiv_from_equiv, eq_by_cmp_equiv, partial_order_from_agreeing_total};
ghost use Rattle.std.specs.Cmp.Lexicographic.{slice_cmp, nat_list_cmp_total};
ghost use Rattle.std.specs.Hash as fed;
ghost use Rattle.term_core.specs.Hashed.{alike};

use crate::error::TermErr;
use crate::text::Text;
use std::alloc::Global;
use std::cmp::Ordering;
use std::hash::{Hash, Hasher};
use std::marker::Model;

/// The characters of the longest atom.
const MOST_CHARACTERS: usize = 255;

/// A name of at most 255 characters, which contracts see as its bytes in UTF-8.
///
/// Atoms are in the order of their characters, which is that of their bytes.
#[derive(Drop)]
pub struct Atom {
    text: Text,
}

impl Model for Atom {
    ghost use Rattle.std.specs.Prelude.{ℕ, ◌≤◌, List, length};
    ghost use Rattle.std.specs.Str.{chars};

    ghost Value = { List ℕ };

    ghost view = { λ a. a.text };

    ghost invariant = { λ a. length (chars a.text) ≤ 255 };
}

impl Atom {
    /// The atom of these characters.
    pub fn new(alloc: Global, text: &str) -> Result<Atom, TermErr>
        ensures made { IfOk result (λ atom. atom ≡ text.now) }
        ensures too_long { (result ≡ Err TermErr.AtomTooLong) ↔ (255 < length (chars text.now)) }
    {
        if character_count(text) > MOST_CHARACTERS {
            return Err(TermErr::AtomTooLong);
        }
        Ok(Atom {
            text: Text::from_str(alloc, text)?,
        })
    }

    /// The characters.
    pub fn text(&self) -> &str
        ensures text { result.now ≡ self.now }
        ensures short { length (chars self.now) ≤ 255 }
    {
        self.text.as_str()
    }

    /// The bytes of the characters, which take no test of UTF-8.
    pub fn as_bytes(&self) -> &[u8]
        ensures bytes { result.now ≡ self.now }
        ensures short { length (chars self.now) ≤ 255 }
    {
        self.text.as_bytes()
    }

    /// An atom that equals this one.
    pub fn try_clone(&self, alloc: Global) -> Result<Atom, TermErr>
        ensures same { IfOk result (λ atom. atom ≡ self.now) }
        ensures only_memory { IfErr result (λ error. error ≡ TermErr.Memory) }
    {
        Ok(Atom {
            text: self.text.try_clone(alloc)?,
        })
    }
}

/// How many characters a text has.
fn character_count(text: &str) -> usize
    ensures { result ≡ length (chars text.now) }
{
    text.chars().count()
}

impl PartialEq for Atom {
    ghost eq = { eq_by_cmp (slice_cmp nat_cmp) };

    ghost laws = { partial_equiv_from_equiv (eq_by_cmp_equiv nat_list_cmp_total) };

    fn eq(&self, other: &Atom) -> bool
        ensures by_order { result ≡ eq_by_cmp (slice_cmp nat_cmp) self.now other.now }
        ensures same { IsTrue result ↔ (self.now ≡ other.now) }
    {
        self.as_bytes() == other.as_bytes()
    }
}

impl Eq for Atom {
    ghost laws = { eq_by_cmp_equiv nat_list_cmp_total };
}

impl Ord for Atom {
    ghost cmp = { slice_cmp nat_cmp };

    ghost total = { nat_list_cmp_total };

    ghost matches_partial_cmp = { λ x y. refl };

    ghost matches_eq = { λ x y. refl };

    fn cmp(&self, other: &Atom) -> Ordering {
        self.as_bytes().cmp(other.as_bytes())
    }
}

impl PartialOrd for Atom {
    ghost partial_cmp = { as_partial_cmp (slice_cmp nat_cmp) };

    ghost laws = { partial_order_from_agreeing_total (slice_cmp nat_cmp) nat_list_cmp_total (λ x y. refl) (λ x y. refl) };

    fn partial_cmp(&self, other: &Atom) -> Option<Ordering> {
        Some(self.cmp(other))
    }
}

impl Hash for Atom {
    ghost hash_input = { λ a. fed.str a };

    ghost respects_eq = { alike };

    fn hash<H: Hasher>(&self, state: &mut H) {
        // As a `str` is hashed.
        state.write(self.as_bytes());
        state.write_u8(0xff);
    }
}
