//! The items of a log file: how they are laid out in bytes, and how they are found there.
#![tactic(auto)]

mod error;
mod first;
mod header;
mod laws;
mod put;
mod scanning;
mod spans;

pub use error::ItemErr;
pub use first::first_item;
pub use laws::{item_law, place_law, span_law, written_law};
pub use put::{head, put_head, put_item};
pub use scanning::scan;
pub use spans::{Scan, Span};
