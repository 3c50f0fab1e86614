//! What a transaction has written, and what it reads through that.
//!
//! `specs/Seen.antt` says what a transaction sees, `specs/Places.antt` where the ops on a key stand,
//! `specs/Replays.antt` what they make of its records, and `specs/Walks.antt` how all keys are gone through in order.
#![tactic(auto)]

mod copies;
mod key_places;
mod places;
mod replay;
mod walk;
mod writes;

pub use writes::Writes;
