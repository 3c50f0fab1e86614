//! Whether a term matches a pattern.

ghost use Rattle.std.specs.Prelude.{◌≡◌, ◌↔◌, IfOk, IsOk, IsTrue, false};
ghost use Rattle.std.specs.Option.{option_map, option_copied};
ghost use Rattle.term_core.specs.View.{tree_of, forest_of};
ghost use Rattle.table_query.specs.Patterns.{is_variable, AllAtomsOf, HasNoVariable, Matches};
ghost use Rattle.table_query.specs.Values.{values_of, value_of, values_if, with_value, values_after, all_values_after};
ghost use Rattle.table_query.specs.Values.{is_match};

use crate::atoms::{is_variable, is_wildcard};
use std::alloc::{AllocError, Global};
use term_core::{Atom, Term};

/// A variable of the pattern, and what it stands for.
#[derive(Clone, Copy)]
struct Value<'a> {
    name: &'a Atom,
    term: &'a Term,
}

/// Whether the record matches the pattern.
///
/// The atom `'_'` matches any term. An atom of `$` and one or more decimal digits is a variable: it matches any term,
/// the same one at each of its places. A tuple matches a tuple of the same size, element by element, and a list a list
/// of the same length. Every other term matches itself alone.
///
/// It fails only where memory runs out, which it takes for the values of variables alone.
pub fn matches(alloc: Global, pattern: &Term, rec: &Term) -> Result<bool, AllocError>
    ensures matches { IfOk result (λ found. IsTrue found ↔ Matches (tree_of pattern.now) (tree_of rec.now)) }
    ensures test { IfOk result (λ found. found ≡ is_match (tree_of pattern.now) (tree_of rec.now)) }
    ensures no_memory { HasNoVariable (tree_of pattern.now) → IsOk result }
{
    let mut values = Vec::new(alloc);
    match_term(pattern, rec, &mut values)
}

/// Whether the term matches the pattern where variables have these values. The values that are found are added.
#[cycle(terms)]
fn match_term<'a>(
    pattern: &'a Term,
    term: &'a Term,
    values: &mut Vec<Value<'a>>,
) -> Result<bool, AllocError>
    ensures values { IfOk result (λ found. values_if found (values_of values.new.items)
        ≡ values_after (tree_of pattern.now) (tree_of term.now) (values_of values.old.items)) }
    ensures no_memory { HasNoVariable (tree_of pattern.now) → IsOk result }
{
    match pattern {
        Term::Atom(name) => {
            if is_wildcard(name) {
                return Ok(true);
            }
            if is_variable(name) {
                return match_variable(name, term, values);
            }
            Ok(pattern == term)
        }
        Term::Tuple(patterns) => match term {
            Term::Tuple(terms) => match_terms(patterns.as_slice(), terms.as_slice(), values),
            Term::Int(_) | Term::Atom(_) | Term::List(_) | Term::Bin(_) => Ok(false),
        },
        Term::List(patterns) => match term {
            Term::List(terms) => match_terms(patterns.as_slice(), terms.as_slice(), values),
            Term::Int(_) | Term::Atom(_) | Term::Tuple(_) | Term::Bin(_) => Ok(false),
        },
        Term::Int(_) | Term::Bin(_) => Ok(pattern == term),
    }
}

/// The same for as many terms, element by element.
#[cycle(terms)]
#[tactic(auto, using(crate::proofs::Parts::other_length, crate::proofs::Parts::in_one))]
fn match_terms<'a>(
    patterns: &'a [Term],
    terms: &'a [Term],
    values: &mut Vec<Value<'a>>,
) -> Result<bool, AllocError>
    ensures values { IfOk result (λ found. values_if found (values_of values.new.items)
        ≡ all_values_after (forest_of patterns.now) (forest_of terms.now) (values_of values.old.items)) }
    ensures no_memory { AllAtomsOf (λ name. is_variable name ≡ false) (forest_of patterns.now) → IsOk result }
{
    if patterns.len() != terms.len() {
        return Ok(false);
    }
    for (i, pattern) in patterns.iter().enumerate() {
        if !match_term(pattern, &terms[i], values)? {
            return Ok(false);
        }
    }
    Ok(true)
}

/// Whether the variable stands for the term. A variable without a value stands for it from now on.
fn match_variable<'a>(
    name: &'a Atom,
    term: &'a Term,
    values: &mut Vec<Value<'a>>,
) -> Result<bool, AllocError>
    ensures { let before = values_of values.old.items in IfOk result (λ found.
        values_if found (values_of values.new.items)
        ≡ with_value name.now (tree_of term.now) (value_of name.now before) before) }
{
    if let Some(value) = value_of(values.as_slice(), name) {
        return Ok(value == term);
    }
    values.push(Value { name, term })?;
    Ok(true)
}

/// What the variable stands for, where it has a value.
fn value_of<'a>(values: &[Value<'a>], name: &Atom) -> Option<&'a Term>
    ensures { option_map tree_of (option_copied result) ≡ value_of name.now (values_of values.now) }
{
    for value in values {
        if value.name == name {
            return Some(value.term);
        }
    }
    None
}
