//! The lines of a script as commands, by a table of forms: a form is a word and the kinds of its arguments.
//!
//! `specs/Grammar.antt` says which lines a table of forms has and where each other line is refused, and
//! `specs/Commands.antt` which commands there are: a row of its table is a word, the kinds, and the command that such
//! arguments make. The laws are proved once, over any table; `specs/Inside.antt` is for this crate alone.
//!
//! A command is added by
//!
//! - a variant of `Command`, a constructor of its twin in `specs/Commands.antt`, and the case of `seen` that leads
//!   from the one to the other;
//! - a row of `rows` there and the same row of `FORMS`, at the same number;
//! - an arm of `command_of` at that number;
//! - taking its word out of `later` there and out of `LATER`, if it is one of these.
//!
//! No proof names a command. Where no function of `arguments.rt` takes its arguments apart, one is written there.
#![tactic(auto)]

mod arguments;
mod commands;
mod forms;
mod laws;
mod reading;

pub use commands::{Command, command_laws, forms_law, read_command};
pub use forms::{Form, Kind};
pub use laws::line_laws;
pub use reading::{LineErr, read_line};

#[cfg(test)]
mod tests;
