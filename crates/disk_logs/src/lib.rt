//! Log files over a disk: a head and whole items.
#![tactic(auto)]

mod error;
mod laws;
mod log;
mod log_file;
mod reading;
mod removal;

pub use error::LogErr;
pub use laws::{frame_law, rename_law, rests_law, sound_law, standing_law};
pub use log::Log;
pub use log_file::LogFile;
pub use removal::discard;
