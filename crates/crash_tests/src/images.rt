//! What a crash may leave of a disk, and whether a run that starts on it finds the writes.

use crate::plain::Plain;
use crate::runs::ran;
use crate::steps::QUESTIONS;
use file_mem::{Choice, Effect, MemDisk, Tail, Taken};
use file_trait::Disk;
use std::alloc::{AllocError, Global};
use std::test::Fail;

/// Each of what is pending.
pub const ALL: u64 = u64::MAX;

/// What an image has of the operations that are pending.
#[derive(Clone, Copy, Debug, PartialEq, Eq)]
pub enum Image {
    /// The first so many of the directory's, the first so many of each file's, and so many bytes of the next append.
    Front(u64, u64, u64),
    /// All, but each append as zeros.
    Zeros,
    /// All, but the first append as zeros.
    FirstAsZeros,
    /// All, but each append as other bytes.
    OtherBytes,
    /// All, but of each append only the first so many bytes.
    Short(u64),
    /// The appends, but no mark.
    AppendsAlone,
    /// The marks, but no append.
    MarksAlone,
}

const EVERYTHING: Image = Image::Front(ALL, ALL, ALL);

/// What may be left of a run. The short appends are whole where they are single writes, and torn where they are
/// transactions of several.
pub const IMAGES: [Image; 12] = [
    Image::Front(0, 0, 0),
    EVERYTHING,
    Image::Front(ALL, 0, 0),
    Image::Front(0, ALL, ALL),
    Image::Front(1, 1, 0),
    Image::Front(1, 1, 5),
    Image::Zeros,
    Image::FirstAsZeros,
    Image::OtherBytes,
    Image::Short(65),
    Image::AppendsAlone,
    Image::MarksAlone,
];

/// Those of them that tell most of what a failed sync lost.
pub const IMAGES_OF_A_LOSS: [Image; 4] = [
    Image::Front(0, 0, 0),
    EVERYTHING,
    Image::AppendsAlone,
    Image::MarksAlone,
];

const WHOLE: Effect = Effect {
    done: true,
    tail: Tail::Front(ALL),
};

// Every operation is done, but each append leaves so many bytes that have this value.
fn filled(byte: u8) -> Effect {
    Effect {
        done: true,
        tail: Tail::Fill(byte, ALL),
    }
}

// The same of each pending operation.
fn each(alloc: Global, done: bool, tail: Tail) -> Taken {
    Taken::Each(Vec::new(alloc), Effect { done, tail })
}

fn taken(alloc: Global, image: Image) -> Result<Taken, AllocError> {
    match image {
        Image::Front(_, ops, bytes) => Ok(Taken::Front(ops, bytes)),
        Image::Zeros => Ok(each(alloc, true, Tail::Fill(0, ALL))),
        Image::FirstAsZeros => Ok(Taken::Each(vec![in alloc; filled(0)]?, WHOLE)),
        Image::OtherBytes => Ok(each(alloc, true, Tail::Fill(170, ALL))),
        Image::Short(bytes) => Ok(each(alloc, true, Tail::Front(bytes))),
        Image::AppendsAlone => Ok(each(alloc, false, Tail::Front(ALL))),
        Image::MarksAlone => Ok(each(alloc, true, Tail::Front(0))),
    }
}

fn choice(alloc: Global, image: Image) -> Result<Choice, AllocError> {
    let dir = match image {
        Image::Front(dir, _, _) => dir,
        _ => ALL,
    };
    Ok(Choice {
        dir,
        others: taken(alloc, image)?,
        own: Vec::new(alloc),
    })
}

/// What a crash leaves now, as a new disk.
pub fn left(alloc: Global, disk: &MemDisk, image: Image) -> Result<MemDisk, Fail> {
    let choice = choice(alloc, image)?;
    Ok(disk.image(disk.clock(), &choice)?.ok_or("moment")?)
}

// What a run wrote that starts on the image, and asks for all that the database has.
fn after_a_crash(alloc: Global, disk: &MemDisk, image: Image) -> Result<Vec<u8>, Fail> {
    let mut left = left(alloc, disk, image)?;
    let (_, replies) = ran(alloc, &mut left, &QUESTIONS)?;
    Ok(replies)
}

/// The first of these images, if any, on which a start finds no front of the commits that were begun, or one that lacks
/// a durable commit, or an answered one where nothing that is pending was lost.
pub fn wrong_image(
    alloc: Global,
    images: &[Image],
    disk: &MemDisk,
    plain: &Plain,
) -> Result<Option<Image>, Fail> {
    for image in images {
        let least = if *image == EVERYTHING {
            plain.answered
        } else {
            plain.durable
        };
        let replies = after_a_crash(alloc, disk, *image)?;
        if !plain.shows_a_front(alloc, least, &replies)? {
            return Ok(Some(*image));
        }
    }
    Ok(None)
}
