//! A run of commands.

use crate::lines::script_of;
use crate::steps::{STEPS, Step};
use file_mem::{MemDisk, MemSink, MemSource};
use mn_run::{Outcome, Status, run};
use std::alloc::{AllocError, Global};
use std::test::Fail;
use std::vec;

/// A run of these commands: its outcome, and what it wrote.
pub fn ran(
    alloc: Global,
    disk: &mut MemDisk,
    steps: &[Step],
) -> Result<(Outcome, Vec<u8>), AllocError> {
    let words = vec![in alloc; String::from_str(alloc, "data")?]?;
    let script = script_of(alloc, steps)?;
    let mut source = MemSource::new(script.as_bytes(), 4096, None);
    let mut sink = MemSink::new(alloc, 4096, None);
    let outcome = run(alloc, &words, disk, &mut source, &mut sink);
    Ok((outcome, sink.bytes().to_vec(alloc)?))
}

/// How many calls of the disk a run of the script takes.
pub fn calls_of_a_run(alloc: Global) -> Result<u64, Fail> {
    let mut disk = MemDisk::new(alloc);
    let (outcome, _) = ran(alloc, &mut disk, &STEPS)?;
    if outcome.status == Status::Done {
        Ok(disk.calls())
    } else {
        Err("the status of a run without faults".into())
    }
}
