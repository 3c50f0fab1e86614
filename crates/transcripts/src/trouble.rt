//! Why a transcript is not as it is played.

use std::alloc::{AllocError, AllocFailed, Global};
use std::fmt;

/// Why a transcript is not as it is played.
#[derive(Debug, Drop)]
pub enum Trouble {
    /// At this line, from 1, and why.
    At(usize, String),
    Memory,
}

impl Trouble {
    /// The line is none of a transcript, or not at this place.
    pub fn ill(alloc: Global, line: usize, why: &str) -> Trouble {
        match String::from_str(alloc, why) {
            Ok(why) => Trouble::At(line, why),
            Err(_) => Trouble::Memory,
        }
    }

    /// What the line says is not what came.
    pub fn differs(alloc: Global, line: usize, expected: &str, came: &str) -> Trouble {
        match format!(in alloc; "expected {expected}, came {came}") {
            Ok(why) => Trouble::At(line, why),
            Err(_) => Trouble::Memory,
        }
    }
}

impl fmt::Display for Trouble {
    fn fmt<W: fmt::Write>(&self, f: &mut fmt::Formatter<W>) -> fmt::Result {
        match self {
            Trouble::At(line, why) => write!(f, "line {line}: {why}"),
            Trouble::Memory => write!(f, "out of memory"),
        }
    }
}

impl From<AllocError> for Trouble {
    fn from(_error: AllocError) -> Trouble {
        Trouble::Memory
    }
}

impl<T: Drop> From<AllocFailed<T>> for Trouble {
    fn from(_error: AllocFailed<T>) -> Trouble {
        Trouble::Memory
    }
}
