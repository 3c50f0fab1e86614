//! A whole run: the node is started on a disk, a script is read, the replies to its commands are written, and the
//! node is stopped.
#![tactic(auto)]

mod asks;
mod commands;
mod gathered;
mod laws;
mod lines;
mod marks;
mod outcome;
mod replies;
mod running;
mod session;
mod terms;
mod words;

pub use laws::transactions_law;
pub use marks::Marks;
pub use mn_node::directory_law;
pub use mn_script::{command_laws, line_laws};
pub use outcome::{Mark, Outcome, Status};
pub use running::run;
