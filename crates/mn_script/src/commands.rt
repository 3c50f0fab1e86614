//! The commands of a script.

ghost use Rattle.std.specs.Prelude.{◌≡◌, ◌≢◌, ◌≤◌, ℕ, List, [], map, true};
ghost use Rattle.std.specs.Option.{option_map};
ghost use Rattle.term_core.specs.View.{tree_of};
ghost use Rattle.mn_script.specs.Forms.{shape_of, is_table};
ghost use Rattle.mn_script.specs.Grammar.{HasArgument};
ghost use Rattle.mn_script.specs.Commands as commands;
ghost use Rattle.mn_script.specs.Commands.{Answers, Asked, IsMeant, asked, seen};

use crate::arguments::{atom_and_term, no_argument, one_atom, two_atoms, two_atoms_and_term};
use crate::forms::{Form, Kind};
use crate::reading::{LineErr, read_line};
use sqlite_items::Items;
use std::alloc::Global;
use term_core::{Atom, Term};

/// What a line asks for.
#[derive(Drop)]
pub enum Command {
    /// To start a node that is down.
    Start,
    /// To stop a node that is up.
    Stop,
    /// To make the log durable.
    SyncLog,
    /// To write this record into the table.
    Put(Atom, Term),
    /// The records of the table with this key.
    Get(Atom, Term),
    /// To make a table of this name with these options.
    CreateTable(Atom, Term),
    /// To take the table away.
    DeleteTable(Atom),
    /// The names of the tables.
    Tables,
    /// The options of the table, and how many records it has.
    TableInfo(Atom),
    /// To begin a transaction of this name. In each command of a transaction its name comes first.
    Begin(Atom),
    /// To write this record into the table.
    Write(Atom, Atom, Term),
    /// To delete the records of the table with this key.
    Delete(Atom, Atom, Term),
    /// To delete this record of the table.
    DeleteObject(Atom, Atom, Term),
    /// The records of the table with this key, as the transaction has them.
    Read(Atom, Atom, Term),
    /// The records of the table that match this pattern, as the transaction has them.
    MatchObject(Atom, Atom, Term),
    /// The keys of the table, as the transaction has them.
    AllKeys(Atom, Atom),
    /// To do all that the transaction wrote.
    Commit(Atom),
    /// To drop the transaction.
    Abort(Atom),
}

/// The forms of the commands, each with the number by which `command_of` knows it.
const FORMS: [Form<'static>; 18] = [
    Form {
        word: b"start",
        kinds: &[],
    },
    Form {
        word: b"stop",
        kinds: &[],
    },
    Form {
        word: b"sync_log",
        kinds: &[],
    },
    Form {
        word: b"put",
        kinds: &[Kind::Atom, Kind::Term],
    },
    Form {
        word: b"get",
        kinds: &[Kind::Atom, Kind::Term],
    },
    Form {
        word: b"create_table",
        kinds: &[Kind::Atom, Kind::Term],
    },
    Form {
        word: b"delete_table",
        kinds: &[Kind::Atom],
    },
    Form {
        word: b"tables",
        kinds: &[],
    },
    Form {
        word: b"table_info",
        kinds: &[Kind::Atom],
    },
    Form {
        word: b"begin",
        kinds: &[Kind::Atom],
    },
    Form {
        word: b"write",
        kinds: &[Kind::Atom, Kind::Atom, Kind::Term],
    },
    Form {
        word: b"delete",
        kinds: &[Kind::Atom, Kind::Atom, Kind::Term],
    },
    Form {
        word: b"delete_object",
        kinds: &[Kind::Atom, Kind::Atom, Kind::Term],
    },
    Form {
        word: b"read",
        kinds: &[Kind::Atom, Kind::Atom, Kind::Term],
    },
    Form {
        word: b"match_object",
        kinds: &[Kind::Atom, Kind::Atom, Kind::Term],
    },
    Form {
        word: b"all_keys",
        kinds: &[Kind::Atom, Kind::Atom],
    },
    Form {
        word: b"commit",
        kinds: &[Kind::Atom],
    },
    Form {
        word: b"abort",
        kinds: &[Kind::Atom],
    },
];

/// The words of commands that are not here yet.
const LATER: [&[u8]; 17] = [
    b"dump_log",
    b"add_table_index",
    b"del_table_index",
    b"transform_table",
    b"index_read",
    b"activate_checkpoint",
    b"deactivate_checkpoint",
    b"checkpoint_read",
    b"checkpoint_keys",
    b"checkpoint_retained",
    b"backup_checkpoint",
    b"traverse_backup",
    b"jobs",
    b"restore",
    b"install_fallback",
    b"uninstall_fallback",
    b"generate",
];

/// The command that a line asks for; `None` for a line of blanks and for a comment. A line that is no
/// command's is refused at its place.
pub fn read_command(alloc: Global, line: &[u8]) -> Result<Option<Command>, LineErr>
    ensures command { Answers result (asked line.now) }
    // Memory is taken only where an argument is due and may begin.
    ensures memory { result ≡ Err LineErr.Memory → HasArgument commands.forms line.now }
{
    match read_line(alloc, command_forms(), later_words(), line) {
        Ok(Some((number, arguments))) => Ok(command_of(number, arguments)),
        Ok(None) => Ok(None),
        Err(error) => Err(error),
    }
}

/// What a line asks for is what is meant by it, and nothing else is: `IsMeant` says which lines ask for nothing, which
/// for which command, and at which place each other line is refused.
pub fn command_laws()
    ensures means { (line : List ℕ) → IsMeant line (asked line) }
    ensures only { (line : List ℕ) (what : Asked) → IsMeant line what → asked line ≡ what }
{}

/// The command of the form of this number. There is none where the form has other arguments.
///
/// Forms with the same kinds of arguments are told apart in a function of their own, since a function makes room for
/// all of its arms, whichever of them is taken.
fn command_of(number: usize, arguments: Items<Term>) -> Option<Command>
    ensures { option_map seen result ≡ commands.made number (map tree_of arguments) }
{
    match number {
        0 => no_argument(&arguments).map(|()| Command::Start),
        1 => no_argument(&arguments).map(|()| Command::Stop),
        2 => no_argument(&arguments).map(|()| Command::SyncLog),
        3..=5 => of_atom_and_term(number, arguments),
        6 => one_atom(arguments).map(Command::DeleteTable),
        7 => no_argument(&arguments).map(|()| Command::Tables),
        8 => one_atom(arguments).map(Command::TableInfo),
        9 => one_atom(arguments).map(Command::Begin),
        10..=14 => of_two_atoms_and_term(number, arguments),
        15 => two_atoms(arguments).map(|(name, table)| Command::AllKeys(name, table)),
        16 => one_atom(arguments).map(Command::Commit),
        17 => one_atom(arguments).map(Command::Abort),
        _ => None,
    }
}

/// The same where an atom and a term are due.
fn of_atom_and_term(number: usize, arguments: Items<Term>) -> Option<Command>
    requires { (3 ≤ number) × (number ≤ 5) }
    ensures { option_map seen result ≡ commands.made number (map tree_of arguments) }
{
    match number {
        3 => atom_and_term(arguments).map(|(table, record)| Command::Put(table, record)),
        4 => atom_and_term(arguments).map(|(table, key)| Command::Get(table, key)),
        5 => atom_and_term(arguments).map(|(name, options)| Command::CreateTable(name, options)),
        _ => unreachable!(),
    }
}

/// The same where two atoms and a term are due.
fn of_two_atoms_and_term(number: usize, arguments: Items<Term>) -> Option<Command>
    requires { (10 ≤ number) × (number ≤ 14) }
    ensures { option_map seen result ≡ commands.made number (map tree_of arguments) }
{
    match number {
        10 => two_atoms_and_term(arguments).map(|(name, table, record)| Command::Write(
            name, table, record,
        )),
        11 => two_atoms_and_term(arguments).map(|(name, table, key)| Command::Delete(
            name, table, key,
        )),
        12 => two_atoms_and_term(arguments).map(|(name, table, record)| Command::DeleteObject(
            name, table, record,
        )),
        13 => two_atoms_and_term(arguments).map(|(name, table, key)| Command::Read(
            name, table, key,
        )),
        14 => two_atoms_and_term(arguments).map(|(name, table, pattern)| Command::MatchObject(
            name, table, pattern,
        )),
        _ => unreachable!(),
    }
}

/// The forms of the commands.
fn command_forms() -> &'static [Form<'static>]
    ensures { map shape_of result.now ≡ commands.forms }
{
    &FORMS
}

fn later_words() -> &'static [&'static [u8]]
    ensures { map (λ word. word.now) result.now ≡ commands.later }
{
    &LATER
}

/// The commands' forms are a table, as the laws of lines ask.
pub fn forms_law()
    ensures table { is_table commands.forms ≡ true }
    ensures some { commands.forms ≢ [] }
{}
