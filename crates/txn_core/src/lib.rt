//! Pending transactions: their calls, their locks and what they read, and the law that they are serial.
#![tactic(auto)]

mod error;
mod laws;
mod pending;
mod read_locks;
mod request;
mod table_reads;
#[cfg(test)]
mod tests;
mod txns;

pub use error::TxnErr;
pub use laws::{own_calls_law, serial_law, sound_law, transactions_law};
pub use txns::Txns;
