//! The contents of a table of any kind: records in the order of their keys, held in pages.
//!
//! `specs/Contents.antt` says what a table holds and what ops make of it, and `specs/Plans.antt` what a plan is: all
//! memory that ops may take is taken when they are planned. `specs/Inside.antt` is for this crate alone.
#![tactic(auto)]

mod page;
mod pages;
mod rows;
mod step;
mod table;

pub use table::{RamTable, TablePlan};
