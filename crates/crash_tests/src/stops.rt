//! A disk that stops at each of its calls.

use crate::images::{IMAGES, wrong_image};
use crate::plain::Plain;
use crate::runs::{calls_of_a_run, ran};
use crate::steps::STEPS;
use file_mem::MemDisk;
use file_trait::Disk;
use mn_run::{Outcome, Status};
use std::test::Fail;

// How many of the commits since the last good start are durable by the last mark.
fn synced_by(outcome: &Outcome) -> Option<u64> {
    match outcome.marks.last() {
        Some(mark) => Some(mark.synced),
        None => None,
    }
}

// Nothing is done to the disk after the stop, so that its images are those of a crash there.
#[test]
fn stopped_at_each_call(rt: HostRuntime) -> Result<(), Fail> {
    let count = calls_of_a_run(rt.alloc())?;
    for call in 0..=count {
        let mut disk = MemDisk::new(rt.alloc());
        disk.stop_after(call);
        let (outcome, replies) = ran(rt.alloc(), &mut disk, &STEPS)?;
        let mut plain = Plain::new(rt.alloc());
        assert_eq!(rt;
            plain.wrong_line(rt.alloc(), &STEPS, &replies)?,
            None,
            "replies at {call}"
        );
        assert_eq!(rt; disk.faults() == 0, call == count, "faults at {call}");
        plain.end(rt.alloc(), outcome.status == Status::Done)?;
        let synced = plain.durable.saturating_sub(plain.base) as u64;
        assert_eq!(rt; synced_by(&outcome), Some(synced), "mark at {call}");
        assert_eq!(rt;
            wrong_image(rt.alloc(), &IMAGES, &disk, &plain)?,
            None,
            "image at {call}"
        );
    }
    Ok(())
}
