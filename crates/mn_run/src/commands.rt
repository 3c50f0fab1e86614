//! Lines as events of the machine.

ghost use Rattle.std.specs.Prelude.{◌≡◌, ◌⊎◌, IfOk, OnErr, Err};
ghost use Rattle.term_core.specs.View.{tree_of};
ghost use Rattle.mn_script.specs.Commands as script;
ghost use Rattle.mn_script.specs.Grammar.{HasArgument};
ghost use Rattle.mn_run.specs.Commands.{request_of, IsAskedAs};
ghost use Rattle.mn_run.specs.Seen.{event, IsAskableLine, IsReadAs};

use db_model::{DefErr, TableDef, parse_options};
use mn_node::Command;
use mn_script::{LineErr, read_command};
use sqlite_items::Boxed;
use std::alloc::{AllocError, Global};
use term_core::{Atom, Term};

/// What a line asks.
#[derive(Drop)]
pub enum Line {
    /// To start a node that is down.
    Start,
    Do(Command),
    /// The line is no command, from this byte on.
    Refused(u64),
}

/// What a line asks, which comes without its line break. A line of blanks and a comment ask nothing. Memory is taken
/// only where an argument is due, and where it is wanting for a table's options the node answers that.
pub fn read_line(alloc: Global, line: &[u8]) -> Result<Option<Line>, AllocError>
    ensures event { IfOk result (IsReadAs (request_of line.now)) }
    ensures memory { OnErr result (HasArgument script.forms line.now) }
{
    match read_command(alloc, line) {
        Ok(Some(command)) => Ok(Some(line_of(alloc, command))),
        Ok(None) => Ok(None),
        Err(LineErr::Badarg(at)) => Ok(Some(Line::Refused(at))),
        Err(LineErr::Memory) => Err(AllocError),
    }
}

/// What a command of the script asks of the node.
fn line_of(alloc: Global, command: mn_script::Command) -> Line
    ensures event { IsAskedAs (script.seen command) (event result) }
    ensures askable { IsAskableLine result }
{
    match command {
        mn_script::Command::Start => Line::Start,
        mn_script::Command::Stop => Line::Do(Command::Stop),
        mn_script::Command::SyncLog => Line::Do(Command::SyncLog),
        mn_script::Command::Put(table, record) => Line::Do(Command::Put(table, record)),
        mn_script::Command::Get(table, key) => Line::Do(Command::Get(table, key)),
        mn_script::Command::CreateTable(name, options) => creation(alloc, name, &options),
        mn_script::Command::DeleteTable(name) => Line::Do(Command::DeleteTable(name)),
        mn_script::Command::Tables => Line::Do(Command::Tables),
        mn_script::Command::TableInfo(name) => Line::Do(Command::TableInfo(name)),
        mn_script::Command::Begin(name) => Line::Do(Command::Begin(name)),
        mn_script::Command::Write(name, table, record) => Line::Do(Command::Write(
            name, table, record,
        )),
        mn_script::Command::Delete(name, table, key) => Line::Do(Command::Delete(name, table, key)),
        mn_script::Command::DeleteObject(name, table, record) => Line::Do(Command::DeleteObject(
            name, table, record,
        )),
        mn_script::Command::Read(name, table, key) => Line::Do(Command::Read(name, table, key)),
        mn_script::Command::MatchObject(name, table, pattern) => Line::Do(Command::MatchObject(
            name, table, pattern,
        )),
        mn_script::Command::AllKeys(name, table) => Line::Do(Command::AllKeys(name, table)),
        mn_script::Command::Commit(name) => Line::Do(Command::Commit(name)),
        mn_script::Command::Abort(name) => Line::Do(Command::Abort(name)),
    }
}

/// To make a table of this name with these options.
fn creation(alloc: Global, name: Atom, options: &Term) -> Line
    ensures event { IsAskedAs (script.create_table name (tree_of options.now)) (event result) }
    ensures askable { IsAskableLine result }
{
    let read = parse_options(alloc, &name, options);
    Line::Do(Command::CreateTable(name, boxed(alloc, read)))
}

/// The same definition in a box, which takes memory.
fn boxed(alloc: Global, read: Result<TableDef, DefErr>) -> Result<Boxed<TableDef>, DefErr>
    ensures { (result ≡ read) ⊎ (result ≡ Err DefErr.Memory) }
{
    match Boxed::new(alloc, read?) {
        Ok(def) => Ok(def),
        Err(_) => Err(DefErr::Memory),
    }
}
