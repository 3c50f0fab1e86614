//! The outside of the operating system: a directory as a disk, and readers and writers of std as a source and a sink. It tells
//! nothing of its bytes, and counts each error that std answers.
#![tactic(auto)]

mod disk;
mod folder;
mod input;
mod output;
mod path;

pub use disk::HostDisk;
pub use input::HostIn;
pub use output::HostOut;

#[cfg(test)]
mod tests;
#[cfg(test)]
mod watched;
