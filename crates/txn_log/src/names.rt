//! The names of the log files.

ghost use Rattle.std.specs.Prelude.{◌≡◌};
ghost use Rattle.file_trait.specs.Name.{IsName};
ghost use Rattle.txn_log.specs.Logs as logs;

use file_trait::FileName;

/// The name of the log.
#[tactic(auto, using(crate::proofs::LogName::latest_name))]
pub fn latest() -> FileName
    ensures value { result ≡ logs.latest }
    ensures name { IsName result }
{
    FileName::new(b"LATEST.LOG").unwrap()
}

/// The other name of the log, which it gets when a new one takes its place.
#[tactic(auto, using(crate::proofs::LogName::previous_name))]
pub fn previous() -> FileName
    ensures value { result ≡ logs.previous }
    ensures name { IsName result }
{
    FileName::new(b"PREVIOUS.LOG").unwrap()
}
