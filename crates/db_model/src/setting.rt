//! What one option says of a table.

ghost use Rattle.std.specs.Prelude.{◌≡◌, ◌↔◌, ℕ, List, ◌∷◌, map, All, IsTrue, IfOk, MatchOption};
ghost use Rattle.std.specs.List.{AllPairs};
ghost use Rattle.term_core.specs.Tree as trees;
ghost use Rattle.term_core.specs.Tree.{Tree, no_trees};
ghost use Rattle.term_core.specs.View.{tree_of, trees_of, forest_of};
ghost use Rattle.db_model.specs.Definitions.{IsAtom, Differ, AreAttributes};
ghost use Rattle.db_model.specs.Options.{TableSetting, kind_in, record_name_in, attributes_in, kind_word, word_of, option_shape, IsOptionOf, IsNoOption};
ghost use Rattle.db_model.specs.View.{setting};

use crate::copies::{copied, copied_atom};
use crate::definition::Kind;
use crate::lists::Rows;
use crate::op_terms::front_atom;
use std::alloc::{AllocError, Global};
use term_core::{Atom, Term};

/// The fewest attributes of a table.
const FEWEST_ATTRIBUTES: usize = 2;

/// The most attributes of a table.
const MOST_ATTRIBUTES: usize = 250;

/// What one option says of a table.
#[derive(Drop)]
pub enum Setting {
    Kind(Kind),
    RecordName(Atom),
    Attributes(Rows),
    /// No attribute is indexed.
    NoIndex,
}

impl Setting {
    /// The word of the option that says this.
    pub fn word(&self) -> &'static str
        ensures { result.now ≡ word_of (setting self.now) }
    {
        match self {
            Setting::Kind(_) => "type",
            Setting::RecordName(_) => "record_name",
            Setting::Attributes(_) => "attributes",
            Setting::NoIndex => "index",
        }
    }

    /// Whether the option that says this is of this word.
    pub fn has_word(&self, word: &str) -> bool
        ensures { IsTrue result ↔ (word_of (setting self.now) ≡ word.now) }
    {
        self.word() == word
    }

    /// The kind, where it says one.
    pub fn kind(&self) -> Option<Kind>
        ensures { MatchOption result ((others : List TableSetting)
            → kind_in (setting self.now ∷ others) ≡ kind_in others)
            (λ kind. (others : List TableSetting) → kind_in (setting self.now ∷ others) ≡ kind) }
    {
        match self {
            Setting::Kind(kind) => Some(*kind),
            Setting::RecordName(_) | Setting::Attributes(_) | Setting::NoIndex => None,
        }
    }

    /// The record name, where it says one.
    pub fn record_name(&self) -> Option<&Atom>
        ensures { MatchOption result ((name : List ℕ) (others : List TableSetting)
            → record_name_in name (setting self.now ∷ others) ≡ record_name_in name others)
            (λ found. (name : List ℕ) (others : List TableSetting)
            → record_name_in name (setting self.now ∷ others) ≡ found.now) }
    {
        match self {
            Setting::RecordName(name) => Some(name),
            Setting::Kind(_) | Setting::Attributes(_) | Setting::NoIndex => None,
        }
    }

    /// The attributes, where it says them.
    pub fn attributes(&self) -> Option<&Rows>
        ensures { MatchOption result ((others : List TableSetting)
            → attributes_in (setting self.now ∷ others) ≡ attributes_in others)
            (λ found. (others : List TableSetting) → attributes_in (setting self.now ∷ others)
            ≡ map tree_of found.now) }
    {
        match self {
            Setting::Attributes(attributes) => Some(attributes),
            Setting::Kind(_) | Setting::RecordName(_) | Setting::NoIndex => None,
        }
    }
}

/// What an option says, where it is a pair `{Word,Value}` of a known word and a value that may stand there.
pub fn setting_of(alloc: Global, option: &Term) -> Result<Option<Setting>, AllocError>
    ensures { IfOk result (λ found. MatchOption found (IsNoOption (tree_of option.now))
        (λ made. IsOptionOf (setting made) (tree_of option.now))) }
{
    let Term::Tuple(parts) = option else {
        return Ok(None);
    };
    match front_atom(parts.as_slice()) {
        Some((word, rest)) => setting_of_parts(alloc, word, rest),
        None => Ok(None),
    }
}

/// What the tuple of this word and what is behind it says.
fn setting_of_parts(
    alloc: Global,
    word: &Atom,
    rest: &[Term],
) -> Result<Option<Setting>, AllocError>
    ensures { IfOk result (λ found. MatchOption found (IsNoOption
        (trees.tuple (trees.tree (trees.atom word.now) (forest_of rest.now))))
        (λ made. IsOptionOf (setting made) (trees.tuple (trees.tree (trees.atom word.now) (forest_of rest.now))))) }
{
    match rest {
        [] => Ok(None),
        [value] => setting_of_pair(alloc, word, value),
        _ => Ok(None),
    }
}

fn setting_of_pair(alloc: Global, word: &Atom, value: &Term) -> Result<Option<Setting>, AllocError>
    ensures { IfOk result (λ found. MatchOption found (IsNoOption (option_shape word.now (tree_of value.now)))
        (λ made. IsOptionOf (setting made) (option_shape word.now (tree_of value.now)))) }
{
    match word.text() {
        "type" => Ok(kind_of(value).map(Setting::Kind)),
        "record_name" => Ok(record_name_of(alloc, value)?.map(Setting::RecordName)),
        "attributes" => Ok(attributes_of(alloc, value)?.map(Setting::Attributes)),
        "index" => Ok(if is_empty_list(value) {
            Some(Setting::NoIndex)
        } else {
            None
        }),
        _ => Ok(None),
    }
}

fn kind_of(value: &Term) -> Option<Kind>
    ensures { MatchOption result ((kind : Kind) → tree_of value.now ≡ trees.atom (kind_word kind) → ⊥)
        (λ kind. tree_of value.now ≡ trees.atom (kind_word kind)) }
{
    let Term::Atom(word) = value else {
        return None;
    };
    match word.text() {
        "set" => Some(Kind::Set),
        "ordered_set" => Some(Kind::OrderedSet),
        "bag" => Some(Kind::Bag),
        _ => None,
    }
}

fn record_name_of(alloc: Global, value: &Term) -> Result<Option<Atom>, AllocError>
    ensures { IfOk result (λ found. MatchOption found (IsAtom (tree_of value.now) → ⊥)
        (λ name. tree_of value.now ≡ trees.atom name)) }
{
    match value {
        Term::Atom(name) => Ok(Some(copied_atom(alloc, name)?)),
        Term::Int(_) | Term::Tuple(_) | Term::List(_) | Term::Bin(_) => Ok(None),
    }
}

fn attributes_of(alloc: Global, value: &Term) -> Result<Option<Rows>, AllocError>
    ensures { IfOk result (λ found. MatchOption found ((attributes : List Tree) → AreAttributes attributes
        → tree_of value.now ≡ trees.list (trees_of attributes) → ⊥)
        (λ attributes. AreAttributes (map tree_of attributes)
        × (tree_of value.now ≡ trees.list (trees_of (map tree_of attributes))))) }
{
    let Term::List(attributes) = value else {
        return Ok(None);
    };
    if !are_attributes(attributes.as_slice()) {
        return Ok(None);
    }
    Ok(Some(copied(alloc, attributes)?))
}

fn is_empty_list(value: &Term) -> bool
    ensures { IsTrue result ↔ (tree_of value.now ≡ trees.list no_trees) }
{
    match value {
        Term::List(elements) => elements.is_empty(),
        Term::Int(_) | Term::Atom(_) | Term::Tuple(_) | Term::Bin(_) => false,
    }
}

/// Whether they are 2 to 250 atoms, all different.
#[tactic(auto, using(crate::proofs::Forests::count_trees))]
fn are_attributes(terms: &[Term]) -> bool
    ensures { IsTrue result ↔ AreAttributes (map tree_of terms.now) }
{
    (FEWEST_ATTRIBUTES..=MOST_ATTRIBUTES).contains(&terms.len())
        && are_atoms(terms)
        && are_different(terms)
}

fn are_atoms(terms: &[Term]) -> bool
    ensures { IsTrue result ↔ All IsAtom (map tree_of terms.now) }
{
    for term in terms {
        if !is_atom(term) {
            return false;
        }
    }
    true
}

fn is_atom(term: &Term) -> bool
    ensures { IsTrue result ↔ IsAtom (tree_of term.now) }
{
    match term {
        Term::Atom(_) => true,
        Term::Int(_) | Term::Tuple(_) | Term::List(_) | Term::Bin(_) => false,
    }
}

fn are_different(terms: &[Term]) -> bool
    ensures { IsTrue result ↔ AllPairs Differ (map tree_of terms.now) }
{
    for (i, term) in terms.iter().enumerate() {
        if !is_other_than(term, &terms[..i]) {
            return false;
        }
    }
    true
}

/// Whether it is none of these.
fn is_other_than(term: &Term, others: &[Term]) -> bool
    ensures { IsTrue result ↔ All (λ other. Differ (tree_of other) (tree_of term.now)) others.now }
{
    for other in others {
        if *other == *term {
            return false;
        }
    }
    true
}
