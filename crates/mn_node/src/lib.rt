//! The node: what one command, a start and the stop at the end do to a directory and its database.
//!
//! `specs/Effects.antt` and `specs/Machine.antt` say what they are to do: a machine over a durable state, whose step is
//! the effect of a command but for want of memory, faults of the disk and what a start finds kept. `specs/Inside.antt`
//! is for this crate alone.
#![tactic(auto)]

mod command;
mod laws;
mod node;
mod open;
mod reply;
mod starting;
mod terms;
mod transacting;

pub use command::Command;
pub use laws::{directory_law, transactions_law};
pub use node::{Node, State};
pub use open::Open;
pub use reply::Reply;
