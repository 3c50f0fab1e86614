//! Tests over a disk in memory: of whole runs of one script while the disk stops, or fails once, at each of its calls in
//! turn, and of scripts that a number makes; what the runs reply is compared with plain lists that the tests keep. And
//! of a log that is rotated, in the same way.
#![tactic(auto)]

#[cfg(test)]
mod faults;
#[cfg(test)]
mod images;
#[cfg(test)]
mod kinds;
#[cfg(test)]
mod lines;
#[cfg(test)]
mod locks;
#[cfg(test)]
mod plain;
#[cfg(test)]
mod plain_logs;
#[cfg(test)]
mod refusals;
#[cfg(test)]
mod replies;
#[cfg(test)]
mod rotation;
#[cfg(test)]
mod runs;
#[cfg(test)]
mod schedules;
#[cfg(test)]
mod steps;
#[cfg(test)]
mod stops;
