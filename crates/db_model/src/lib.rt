//! The values of the database: definitions of tables, ops on their records, and commits.
//!
//! `specs/View.antt` leads from each of them to plain data over trees of terms, and `op_tree` of `specs/Ops.antt` is the term of
//! an op.
#![tactic(auto)]

mod commit;
mod copies;
mod definition;
mod error;
mod laws;
mod lists;
mod name;
mod op;
mod op_terms;
mod options;
mod record;
mod schema_op_terms;
mod setting;

pub use commit::{Commit, SchemaOp};
pub use definition::{Kind, Schema, TableDef};
pub use error::DefErr;
pub use laws::{definition_law, history_law, op_law, schema_op_law, taken_law};
pub use lists::{Defs, Ops, Positions, Rows, SchemaOps};
pub use name::{is_name, is_table_name};
pub use op::Op;
pub use op_terms::{op_of_term, op_term};
pub use options::{create_list, parse_options};
pub use record::{allows, fits};
pub use schema_op_terms::{schema_op_of_term, schema_op_term};
