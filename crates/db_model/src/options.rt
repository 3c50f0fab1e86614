//! Lists of options, which say how a table is defined.

ghost use Rattle.std.specs.Prelude.{◌≡◌, ◌≢◌, ◌↔◌, map, length, All, IsTrue, IfOk, IfErr, MatchResult};
ghost use Rattle.term_core.specs.View.{tree_of};
ghost use Rattle.db_model.specs.Options as options_of;
ghost use Rattle.db_model.specs.Options.{word_of, AreOptionsOf, IsDefinedBy, IsRefusal, create_tree, option_shape, kind_word, attributes_at, kind_in, record_name_in, attributes_in, made_of};
ghost use Rattle.db_model.specs.View.{definition, setting};

use crate::copies::{copied, copied_atom, copied_term};
use crate::definition::{Kind, TableDef};
use crate::error::DefErr;
use crate::lists::{Positions, Rows};
use crate::name::is_table_name;
use crate::op_terms::word_term;
use crate::setting::{Setting, setting_of};
use sqlite_items::Items;
use std::alloc::{AllocError, Global};
use term_core::{Atom, Term};

/// The table of this name that a list of options defines, with cookie 0. An option is `{type,set}` or another kind,
/// `{record_name,Atom}`, `{attributes,[Atom,..]}` with 2 to 250 different atoms, or `{index,[]}`, each at most once.
/// Without them the table is a set of records of its own name with the attributes `key` and `val`. Errors name the
/// table's name, or the first ill option.
pub fn parse_options(alloc: Global, name: &Atom, list: &Term) -> Result<TableDef, DefErr>
    ensures defined { IfOk result (λ def. (def.name ≡ name.now) × (def.cookie ≡ 0)
        × IsDefinedBy (tree_of list.now) (definition def)) }
    ensures refused { IfErr result (λ error. IsRefusal name.now (tree_of list.now) error) }
{
    if !is_table_name(name) {
        return Err(DefErr::BadName);
    }
    let Term::List(options) = list else {
        return Err(DefErr::BadOption(0));
    };
    let settings = settings_of(alloc, options.as_slice())?;
    let def = defined(alloc, name, settings.as_slice())?;
    Ok(def)
}

/// What the options say, up to the first that is ill.
fn settings_of(alloc: Global, options: &[Term]) -> Result<Items<Setting>, DefErr>
    ensures { MatchResult result (λ settings. AreOptionsOf (map setting settings) (map tree_of options.now))
        (options_of.IsIllOption (map tree_of options.now)) }
{
    let mut settings = Items::new(alloc);
    for (i, option) in options.iter().enumerate() {
        let place = i as u64 + 1;
        let Some(setting) = setting_of(alloc, option)? else {
            return Err(DefErr::BadOption(place));
        };
        if !is_of_other_word(&setting, settings.as_slice()) {
            return Err(DefErr::BadOption(place));
        }
        settings.push(setting)?;
    }
    Ok(settings)
}

/// Whether none of these is of its word.
fn is_of_other_word(one: &Setting, others: &[Setting]) -> bool
    ensures { IsTrue result ↔ All (λ other. word_of (setting other) ≢ word_of (setting one.now)) others.now }
{
    for other in others {
        if other.has_word(one.word()) {
            return false;
        }
    }
    true
}

/// The table of this name with these settings.
fn defined(alloc: Global, name: &Atom, settings: &[Setting]) -> Result<TableDef, AllocError>
    ensures { IfOk result (λ def. definition def ≡ made_of name.now 0 (map setting settings.now)) }
{
    Ok(TableDef {
        name: copied_atom(alloc, name)?,
        kind: kind_in(settings),
        record_name: record_name_in(alloc, name, settings)?,
        attributes: attributes_in(alloc, settings)?,
        index: Positions::new(alloc),
        cookie: 0,
    })
}

fn kind_in(settings: &[Setting]) -> Kind
    ensures { result ≡ kind_in (map setting settings.now) }
{
    for setting in settings {
        if let Some(kind) = setting.kind() {
            return kind;
        }
    }
    Kind::Set
}

fn record_name_in(alloc: Global, name: &Atom, settings: &[Setting]) -> Result<Atom, AllocError>
    ensures { IfOk result (λ found. found ≡ record_name_in name.now (map setting settings.now)) }
{
    for setting in settings {
        if let Some(record_name) = setting.record_name() {
            return copied_atom(alloc, record_name);
        }
    }
    copied_atom(alloc, name)
}

fn attributes_in(alloc: Global, settings: &[Setting]) -> Result<Rows, AllocError>
    ensures { IfOk result (λ found. map tree_of found ≡ attributes_in (map setting settings.now)) }
{
    for setting in settings {
        if let Some(attributes) = setting.attributes() {
            return copied(alloc, attributes);
        }
    }
    let mut attributes = Rows::new(alloc);
    attributes.push(word_term(alloc, "key")?)?;
    attributes.push(word_term(alloc, "val")?)?;
    Ok(attributes)
}

/// The list of all options of a definition:
/// `[{type,Kind},{record_name,Name},{attributes,[Attribute,..]},{index,[Attribute,..]}]`, with the indexed
/// attributes by position.
pub fn create_list(alloc: Global, def: &TableDef) -> Result<Term, AllocError>
    ensures { IfOk result (λ term. tree_of term ≡ create_tree (definition def.now)) }
{
    let kind = word_term(alloc, kind_text(def.kind))?;
    let record_name = Term::Atom(copied_atom(alloc, &def.record_name)?);
    let attributes = Term::List(copied(alloc, &def.attributes)?);
    let index = Term::List(indexed(alloc, def)?);
    let mut options = Rows::new(alloc);
    options.push(option_term(alloc, "type", kind)?)?;
    options.push(option_term(alloc, "record_name", record_name)?)?;
    options.push(option_term(alloc, "attributes", attributes)?)?;
    options.push(option_term(alloc, "index", index)?)?;
    Ok(Term::List(options))
}

/// `{Word,Value}`
fn option_term(alloc: Global, word: &str, value: Term) -> Result<Term, AllocError>
    ensures { IfOk result (λ term. tree_of term ≡ option_shape word.now (tree_of value)) }
{
    let mut parts = Items::new(alloc);
    parts.push(word_term(alloc, word)?)?;
    parts.push(value)?;
    Ok(Term::Tuple(parts))
}

fn kind_text(kind: Kind) -> &'static str
    ensures { result.now ≡ kind_word kind }
{
    match kind {
        Kind::Set => "set",
        Kind::OrderedSet => "ordered_set",
        Kind::Bag => "bag",
    }
}

/// The attributes that are indexed, in the order of their positions.
fn indexed(alloc: Global, def: &TableDef) -> Result<Rows, AllocError>
    ensures { IfOk result (λ found.
        map tree_of found ≡ attributes_at (definition def.now).attributes (definition def.now).index) }
{
    let mut found = Rows::new(alloc);
    for position in def.index.as_slice() {
        // The first attribute has position 2.
        let Some(attribute) = def.attributes.get(position.saturating_sub(2) as usize) else {
            continue;
        };
        found.push(copied_term(alloc, attribute)?)?;
    }
    Ok(found)
}
