//! Laws of a directory whose log is folded into files of tables while commits go on.
//!
//! Such a directory has a schema file, which says the definitions at some version; of a table `T` the files `T.DCD`,
//! its
//! records, and `T.DCL`, ops that were done on them since, each with the table's cookie; and two logs: `LATEST.LOG`, to
//! which commits are appended, and `PREVIOUS.LOG`, which was it until a dump began. The dump carries the ops of
//! `PREVIOUS.LOG` into the `T.DCL`, puts a draft of new records, written while commits go on, in the place of a `T.DCD`
//! whose `T.DCL` has grown, writes the schema file, and drops `PREVIOUS.LOG`. A crash may leave an image of all this in
//! which each file is as it was at a moment of its own, and the end of `LATEST.LOG` is lost.
//!
//! There is no code here: each function is a law, and its contract is the statement.
#![tactic(auto)]

mod directories;
mod dumps;
mod images;
mod lists;
mod tables;

pub use directories::{closed_laws, directory_laws, live_laws};
pub use dumps::step_laws;
pub use images::{image_laws, standing_laws, stays_on_laws, strict_laws};
pub use lists::{lists_laws, meaning_laws};
pub use tables::{between_laws, carrying_laws, contents_laws, draft_laws};
