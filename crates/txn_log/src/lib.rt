//! The log of the commits: `LATEST.LOG`, a log file whose items are a head and one commit each, and `PREVIOUS.LOG`, the
//! one before it.
#![tactic(auto)]

mod commit_file;
mod commit_items;
mod commit_text;
mod heads;
mod laws;
mod log;
mod names;

pub use commit_file::CommitFile;
pub use commit_items::{CommitItem, decode_commit, encode_commit};
pub use laws::{commit_law, item_law, log_law, logs_law};
pub use log::TxnLog;
pub use names::{latest, previous};
