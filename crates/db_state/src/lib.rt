//! The live database: the schema, and each table in memory.
//!
//! `specs/Live.antt` says which database it is, and `specs/Plans.antt` what a plan of a commit is: all memory that the
//! commit may take is taken when it is planned. `specs/Inside.antt` is for this crate alone.
#![tactic(auto)]

mod applies;
mod arrangement;
mod live;
mod ops;
mod parts;
mod plan;
mod positions;
mod slots;
mod taking;

pub use live::Live;
pub use plan::Plan;
