//! Terms as text, as Erlang writes them.
//!
//! `specs/Grammar.antt` says which bytes are a text of a term's tree, `specs/Reading.antt` what reading from
//! the left gives, and `specs/Printing.antt` which of the texts is written.
#![tactic(auto)]

mod characters;
mod error;
mod fault;
mod laws;
mod numbers;
mod printing;
mod reading;
mod tokens;

pub use error::TextErr;
pub use laws::{
    one_tree, printed_is_read, printed_is_text, refused_early, refused_late, refused_wide,
};
pub use printing::print_term;
pub use reading::{read_term, read_term_within};
pub use tokens::{is_blank, unblanked};
