//! The dumper of the log: laws of the whole directory that it works on.
//!
//! A call on some files of the directory says what becomes of these, and at each moment what a crash leaves of them.
//! The laws say the same of the whole directory.
#![tactic(auto)]

mod carried;
mod directories;
mod images;
mod loads;
mod ordered;

pub use carried::{carried_law, carrying_law};
pub use directories::directory_law;
pub use images::{image_law, says_law};
pub use loads::loads_law;
pub use ordered::{ordered_law, stands_law};
