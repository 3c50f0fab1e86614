//! Commands on whole tables as commits: the lawful commit that does what a command says, or why there is none.
//!
//! `specs/Commands.antt` says what each command makes of a database, and where it is refused.
#![tactic(auto)]

mod commands;
mod error;

pub use commands::{create_table, delete_table};
pub use error::SchemaErr;
