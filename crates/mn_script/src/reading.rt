//! A reader of lines over a table of forms.

ghost use Rattle.std.specs.Prelude.{◌≡◌, ◌≤◌, ◌<◌, length, List, [], ℕ, map, codes, true, false};
ghost use Rattle.std.specs.List.{list_all, position_or_len};
ghost use Rattle.std.specs.Str.{bytes_eq};
ghost use Rattle.term_core.specs.View.{tree_of};
ghost use Rattle.term_text.specs.Grammar.{begins, is_blank, is_name_byte};
ghost use Rattle.term_text.specs.Reading.{unblanked};
ghost use Rattle.mn_script.specs.Forms.{shape_of, fits, is_file_name, is_name, may_begin};
ghost use Rattle.mn_script.specs.Grammar.{HasArgument, bad, first_word, is_later};
ghost use Rattle.mn_script.specs.Inside.Parts.{Gives, BeginsFirst, BeginsFormed, BeginsNext, BeginsSome};
ghost use Rattle.mn_script.specs.Reading.{Says, argument_at, arguments_at, at_end, behind_blanks, field_at, formed_at, line_at, placed, said, text_at};

use crate::forms::{Form, Kind};
use sqlite_items::Items;
use std::alloc::{AllocError, Global};
use term_core::Term;
use term_text::{TextErr, is_blank, read_term, unblanked};

/// Why a line is no command's.
#[derive(Clone, Copy, Debug, PartialEq, Eq)]
pub enum LineErr {
    /// The argument at this place is wrong, or no command's line has the byte there, or more is due there.
    Badarg(u64),
    /// Memory was wanting.
    Memory,
}

/// Why a part of a line is none.
#[derive(Clone, Copy)]
enum PartErr {
    /// No line goes on so from where so many bytes are left.
    Bad(usize),
    /// Memory was wanting.
    Memory,
}

impl From<AllocError> for PartErr {
    ghost use Rattle.mn_script.specs.declared.reading.PartErr.TheVariants.{Memory};

    ghost from_gives = { λ _ e. e ≡ Memory };

    fn from(_error: AllocError) -> PartErr {
        PartErr::Memory
    }
}

/// The form of a line by its number in the table, and its arguments; `None` for a line of blanks or a comment.
/// A line that is no form's is refused at 0 where its first word is one of `later`, and else at its place.
#[tactic(auto, using(crate::proofs::Memory::lines), unfolding(crate::specs::Reading::said, crate::specs::Reading::is_none))]
pub fn read_line(
    alloc: Global,
    forms: &[Form],
    later: &[&[u8]],
    line: &[u8],
) -> Result<Option<(usize, Items<Term>)>, LineErr>
    ensures said { Says result (said (map shape_of forms.now) (map (λ word. word.now) later.now) line.now) }
    // Memory is taken only where an argument is due and may begin.
    ensures memory { result ≡ Err LineErr.Memory → HasArgument (map shape_of forms.now) line.now }
{
    match unblanked(line).first() {
        None | Some(b'%') => return Ok(None),
        Some(_) => {}
    }
    match read_forms(alloc, forms, line) {
        Ok(found) => Ok(Some(found)),
        Err(PartErr::Bad(left)) => Err(LineErr::Badarg(place(later, line, left))),
        Err(PartErr::Memory) => Err(LineErr::Memory),
    }
}

/// Where a line is refused: at the first of its last `left` bytes, or at once if its command is to come.
fn place(later: &[&[u8]], line: &[u8], left: usize) -> u64
    requires { left ≤ length line.now }
    ensures { bad result ≡ placed (map (λ word. word.now) later.now) line.now (Err left) }
{
    if is_later(later, line) {
        return 0;
    }
    (line.len() - left) as u64
}

#[tactic(auto, using(crate::proofs::Tables::any_map), unfolding(crate::specs::Grammar::is_later))]
fn is_later(later: &[&[u8]], line: &[u8]) -> bool
    ensures { result ≡ is_later (map (λ word. word.now) later.now) line.now }
{
    later.contains(&first_word(line))
}

fn first_word(line: &[u8]) -> &[u8]
    ensures { result.now ≡ first_word line.now }
{
    let rest = unblanked(line);
    let (word, _) = rest.split_at(word_len(rest));
    word
}

/// How many bytes there are before the first blank.
#[tactic(auto, using(crate::proofs::Blanks::prefix_within))]
fn word_len(line: &[u8]) -> usize
    ensures count { result ≡ position_or_len is_blank line.now }
    ensures within { result ≤ length line.now }
{
    line.iter().take_while(|byte| !is_blank(**byte)).count()
}

fn begins_blank(line: &[u8]) -> bool
    ensures { result ≡ begins is_blank line.now }
{
    match line {
        [first, ..] => is_blank(*first),
        [] => false,
    }
}

/// The first form that reads the line, or the place of the one that gets furthest.
#[tactic(auto, using(crate::proofs::Tables::turns))]
fn read_forms(alloc: Global, forms: &[Form], line: &[u8]) -> Result<(usize, Items<Term>), PartErr>
    ensures part { Gives (λ x. (x.0, map tree_of x.1)) result (line_at (map shape_of forms.now) line.now) }
    ensures memory { result ≡ Err PartErr.Memory → BeginsSome (map shape_of forms.now) line.now }
{
    let rest = unblanked(line);
    let mut left = line.len();
    for (i, form) in forms.iter().enumerate() {
        match read_form(alloc, form, rest) {
            Ok(arguments) => return Ok((i, arguments)),
            Err(PartErr::Bad(other)) => left = left.min(other),
            Err(PartErr::Memory) => return Err(PartErr::Memory),
        }
    }
    Err(PartErr::Bad(left))
}

/// The arguments of a line of this form, without the blanks in front.
fn read_form(alloc: Global, form: &Form, line: &[u8]) -> Result<Items<Term>, PartErr>
    ensures part { Gives (λ x. map tree_of x) result (formed_at (shape_of form.now) line.now) }
    ensures memory { result ≡ Err PartErr.Memory → BeginsFormed (shape_of form.now) line.now }
{
    let rest = read_text(line, form.word)?;
    read_arguments(alloc, form.kinds, rest)
}

/// Arguments of these kinds to the line's end.
#[tactic(auto, using(crate::proofs::Memory::arguments))]
fn read_arguments(alloc: Global, kinds: &[Kind], line: &[u8]) -> Result<Items<Term>, PartErr>
    ensures part { Gives (λ x. map tree_of x) result (arguments_at kinds.now [] line.now) }
    ensures memory { result ≡ Err PartErr.Memory → BeginsFirst kinds.now line.now }
{
    let mut arguments = Items::new(alloc);
    let mut rest = line;
    for kind in kinds {
        let (argument, behind) = read_next(alloc, *kind, rest)?;
        arguments.push(argument)?;
        rest = behind;
    }
    read_end(arguments, rest)
}

/// Blanks to the line's end.
#[tactic(auto, unfolding(crate::specs::Reading::behind_blanks))]
fn read_end(arguments: Items<Term>, line: &[u8]) -> Result<Items<Term>, PartErr>
    ensures part { Gives (λ x. map tree_of x) result (behind_blanks false (at_end (map tree_of arguments)) line.now) }
    ensures memory { result ≡ Err PartErr.Memory → ⊥ }
{
    let rest = unblanked(line);
    if !rest.is_empty() {
        return Err(PartErr::Bad(rest.len()));
    }
    Ok(arguments)
}

/// Blanks and an argument of this kind.
#[tactic(auto, unfolding(crate::specs::Reading::behind_blanks))]
fn read_next(alloc: Global, kind: Kind, line: &[u8]) -> Result<(Term, &[u8]), PartErr>
    ensures part { Gives (λ x. (tree_of x.0, x.1.now)) result (behind_blanks true (argument_at kind) line.now) }
    ensures memory { result ≡ Err PartErr.Memory → BeginsNext kind line.now }
{
    if !begins_blank(line) {
        return Err(PartErr::Bad(line.len()));
    }
    read_argument(alloc, kind, unblanked(line))
}

/// An argument of this kind.
#[tactic(auto, unfolding(crate::specs::Reading::argument_at))]
fn read_argument(alloc: Global, kind: Kind, line: &[u8]) -> Result<(Term, &[u8]), PartErr>
    ensures part { Gives (λ x. (tree_of x.0, x.1.now)) result (argument_at kind line.now) }
    ensures memory { result ≡ Err PartErr.Memory → begins (may_begin kind) line.now ≡ true }
{
    if !begins_as(kind, line) {
        return Err(PartErr::Bad(line.len()));
    }
    let (term, rest) = read_field(alloc, line)?;
    if !is_of(kind, &term) {
        return Err(PartErr::Bad(line.len()));
    }
    Ok((term, rest))
}

fn begins_as(kind: Kind, line: &[u8]) -> bool
    ensures { result ≡ begins (may_begin kind) line.now }
{
    match (kind, line) {
        (_, []) => false,
        (Kind::Term, [byte, ..]) => !is_blank(*byte),
        (Kind::Atom | Kind::Name, [byte, ..]) => byte.is_ascii_lowercase() || *byte == b'\'',
        (Kind::Number(_, _), [byte, ..]) => byte.is_ascii_digit(),
    }
}

/// Whether a term is of this kind.
fn is_of(kind: Kind, term: &Term) -> bool
    ensures { result ≡ fits kind (tree_of term.now) }
{
    match (kind, term) {
        (Kind::Term, _) => true,
        (Kind::Atom, Term::Atom(_)) => true,
        (Kind::Name, Term::Atom(name)) => is_file_name(name.text().as_bytes()),
        (Kind::Number(low, high), Term::Int(number)) => {
            i128::from(low) <= *number && *number <= i128::from(high)
        }
        _ => false,
    }
}

fn is_file_name(name: &[u8]) -> bool
    ensures { result ≡ is_file_name name.now }
{
    is_name(name) && !is_fallback(name)
}

/// Whether it has 1 to 64 name bytes and no others.
fn is_name(name: &[u8]) -> bool
    ensures { result ≡ is_name name.now }
{
    are_name_bytes(name) && 1 <= name.len() && name.len() <= 64
}

fn are_name_bytes(name: &[u8]) -> bool
    ensures { result ≡ list_all is_name_byte name.now }
{
    name.iter().all(|byte| is_name_byte(*byte))
}

fn is_fallback(name: &[u8]) -> bool
    ensures { result ≡ bytes_eq name.now (codes "FALLBACK") }
{
    name == b"FALLBACK".as_slice()
}

fn is_name_byte(byte: u8) -> bool
    ensures { result ≡ is_name_byte byte }
{
    byte.is_ascii_alphanumeric() || byte == b'_' || byte == b'@'
}

/// What follows the text in front.
#[tactic(auto, using(crate::proofs::Texts::turns))]
fn read_text<'a>(line: &'a [u8], text: &[u8]) -> Result<&'a [u8], PartErr>
    ensures part { Gives (λ rest. rest.now) result (text_at text.now line.now) }
    ensures memory { result ≡ Err PartErr.Memory → ⊥ }
{
    for (i, byte) in text.iter().enumerate() {
        if i >= line.len() {
            return Err(PartErr::Bad(0));
        }
        if line[i] != *byte {
            return Err(PartErr::Bad(line.len() - i));
        }
    }
    let (_, rest) = line.split_at(text.len());
    Ok(rest)
}

/// Any term.
#[tactic(auto, unfolding(crate::specs::Reading::field_at))]
fn read_field(alloc: Global, line: &[u8]) -> Result<(Term, &[u8]), PartErr>
    ensures { Gives (λ x. (tree_of x.0, x.1.now)) result (field_at line.now) }
{
    match read_term(alloc, line, 0) {
        Ok((term, behind)) => {
            let (_, rest) = line.split_at(behind);
            Ok((term, rest))
        }
        Err(TextErr::Bad(at)) => Err(PartErr::Bad(line.len() - at)),
        Err(TextErr::WideInt(at)) => Err(PartErr::Bad(line.len() - at)),
        Err(TextErr::TooDeep(at)) => Err(PartErr::Bad(line.len() - at)),
        Err(TextErr::Memory) => Err(PartErr::Memory),
    }
}
