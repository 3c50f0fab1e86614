//! Terms as bytes, in Erlang's external term format.
//!
//! A text is byte 131 and then the spelling of one term. The format has more than one spelling of a
//! term: `IsText` of `specs/Spelling.antt` says which bytes are a text of which tree. What is written
//! is one of them, `canon` of term_core.
#![tactic(auto)]

mod decoding;
mod encoding;
mod error;
mod fault;
mod field;
mod leaf;
mod reading;
mod tag;
mod write;

pub use decoding::{decode, one_tree, written_text};
pub use encoding::{encode, put_term};
pub use error::{EncodeErr, WireErr};
pub use term_core::wire_len;
pub use write::put_atom;
