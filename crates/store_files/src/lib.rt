//! The files of the schema and of the tables: `schema.DCD` has the definitions, and of each table `T.DCD` records and
//! `T.DCL` the ops that are to be done on them.
//!
//! `specs/Forms.antt` says what files of items are whose first item says a number, `specs/Schema.antt` and
//! `specs/Tables.antt` which forms these files have and what they stand for.
#![tactic(auto)]

mod dcd_writer;
mod dcl_writer;
mod defining;
mod filling;
mod headed;
mod heads;
mod items;
mod laws;
mod load;
mod names;
mod order;
mod removal;
mod replacement;
mod schema;
mod texts;

pub use dcd_writer::DcdWriter;
pub use dcl_writer::DclWriter;
pub use heads::{dcd_head, dcl_head, schema_head};
pub use items::{change_item, record_item, table_item};
pub use laws::{names_law, schema_law, table_law};
pub use load::{TableFiles, load_table};
pub use names::{dcd_name, dcl_name, schema_name};
pub use removal::remove_table;
pub use schema::read_schema;
