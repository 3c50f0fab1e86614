//! A disk of which each call in turn fails.

use crate::images::{IMAGES, IMAGES_OF_A_LOSS, wrong_image};
use crate::plain::Plain;
use crate::runs::{calls_of_a_run, ran};
use crate::steps::{QUESTIONS, STEPS, Step};
use file_mem::MemDisk;
use file_trait::Disk;
use mn_run::Status;
use std::alloc::{AllocError, Global};
use std::test::Fail;

// How many calls behind a fault the disk is stopped at: more than a start takes that renews the log.
const CALLS_BEHIND: u64 = 15;

// The script, a start, and all that the database has then.
fn longer(alloc: Global) -> Result<Vec<Step>, AllocError> {
    let mut steps = STEPS.to_vec(alloc)?;
    steps.push(Step::Start)?;
    steps.extend_from_slice(&QUESTIONS)?;
    Ok(steps)
}

// After the fault the node is down until a start, and then it has all commits that were answered. The fault is replied
// to the command that it befell, or befell the stop at the script's end. A crash after the run leaves what is durable.
#[test]
fn failed_at_each_call(rt: HostRuntime) -> Result<(), Fail> {
    let count = calls_of_a_run(rt.alloc())?;
    let steps = longer(rt.alloc())?;
    for call in 1..=count {
        let mut disk = MemDisk::new(rt.alloc());
        disk.fail_at(call, 5)?;
        let (outcome, replies) = ran(rt.alloc(), &mut disk, &steps)?;
        let mut plain = Plain::new(rt.alloc());
        assert_eq!(rt;
            plain.wrong_line(rt.alloc(), &steps, &replies)?,
            None,
            "replies at {call}"
        );
        assert!(rt; plain.is_up, "state at {call}");
        let (status, faults) = (outcome.status, plain.faults);
        let at_the_end = status == Status::DiskFault && faults == 0;
        assert!(rt;
            at_the_end || (status == Status::Done && faults == 1),
            "end at {call}"
        );
        assert_eq!(rt; disk.faults(), 1, "faults at {call}");
        plain.end(rt.alloc(), status == Status::Done)?;
        assert_eq!(rt;
            wrong_image(rt.alloc(), &IMAGES, &disk, &plain)?,
            None,
            "image at {call}"
        );
    }
    Ok(())
}

// What is wrong, if anything, of a run in which a sync fails and loses what was pending, though later syncs answer Ok,
// and the disk stops at a call behind it: what was answered durable is to be there in each image.
fn wrong_loss(
    alloc: Global,
    steps: &[Step],
    call: u64,
    stop: u64,
) -> Result<Option<&'static str>, Fail> {
    let mut disk = MemDisk::new(alloc);
    disk.lose_at(call)?;
    disk.stop_after(stop);
    let (outcome, replies) = ran(alloc, &mut disk, steps)?;
    let mut plain = Plain::new(alloc);
    if plain.wrong_line(alloc, steps, &replies)?.is_some() {
        return Ok(Some("replies"));
    }
    plain.end(alloc, outcome.status == Status::Done)?;
    if wrong_image(alloc, &IMAGES_OF_A_LOSS, &disk, &plain)?.is_some() {
        return Ok(Some("image"));
    }
    Ok(None)
}

// The first of these calls, and a stop at it or behind it, at which something is wrong.
fn first_wrong_loss(
    alloc: Global,
    first: u64,
    last: u64,
    count: u64,
) -> Result<Option<(u64, u64, &'static str)>, Fail> {
    let steps = longer(alloc)?;
    for call in first..=last {
        for stop in call..=count.min(call.saturating_add(CALLS_BEHIND)) {
            if let Some(what) = wrong_loss(alloc, &steps, call, stop)? {
                return Ok(Some((call, stop, what)));
            }
        }
    }
    Ok(None)
}

// Two tests, as the runs are many.
#[test]
fn lost_at_each_call_of_the_first_half(rt: HostRuntime) -> Result<(), Fail> {
    let count = calls_of_a_run(rt.alloc())?;
    let wrong = first_wrong_loss(rt.alloc(), 1, count / 2, count)?;
    assert_eq!(rt; wrong, None, "call, stop and what is wrong");
    Ok(())
}

#[test]
fn lost_at_each_call_of_the_second_half(rt: HostRuntime) -> Result<(), Fail> {
    let count = calls_of_a_run(rt.alloc())?;
    let wrong = first_wrong_loss(rt.alloc(), (count / 2).saturating_add(1), count, count)?;
    assert_eq!(rt; wrong, None, "call, stop and what is wrong");
    Ok(())
}
