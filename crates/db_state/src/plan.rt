//! Plans of commits.

use crate::arrangement::Arrangement;
use crate::parts::Part;

/// What a commit does to the database, with all memory that it may take.
#[derive(Drop)]
pub struct Plan {
    pub(crate) version: u64,
    /// The tables in a new arrangement, where there are schema ops.
    pub(crate) arrangement: Option<Arrangement>,
    /// What is done to tables in that arrangement.
    pub(crate) parts: Vec<Part>,
}
