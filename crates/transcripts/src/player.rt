//! A transcript as it is played.

use crate::playing::{play_to_end, play_to_reply};
use crate::runs::Run;
use crate::steps::{Step, steps_of};
use crate::trouble::Trouble;
use file_mem::{Choice, MemDisk};
use file_trait::{Disk, FileName};
use std::alloc::{AllocError, Global};
use std::mem;

// A disk as it was when the machine stopped at this moment.
#[derive(Drop)]
struct Crashed {
    disk: MemDisk,
    moment: u64,
}

// What is played: the disk, the run that is being told, and the last crash.
#[derive(Drop)]
struct Player<'a> {
    alloc: Global,
    disk: MemDisk,
    run: Option<Run<'a>>,
    crashed: Option<Crashed>,
}

impl<'a> Player<'a> {
    fn new(alloc: Global) -> Player<'a> {
        Player {
            alloc,
            disk: MemDisk::new(alloc),
            run: Some(Run::new(alloc)),
            crashed: None,
        }
    }

    fn take(&mut self, line: usize, step: Step<'a>) -> Result<(), Trouble> {
        match step {
            Step::Again => self.again(line),
            Step::Anew => self.anew(line),
            Step::File(name, bytes) => self.put_file(line, name, &bytes),
            Step::Holds(name, bytes) => self.compare_file(line, name, Some(&bytes)),
            Step::Lacks(name) => self.compare_file(line, name, None),
            Step::Crash(count, choice) => self.crash(line, count, &choice),
            Step::Or(choice) => self.crash_otherwise(line, &choice),
            step => match &mut self.run {
                Some(run) => run.take(self.alloc, line, step),
                None => Err(Trouble::ill(self.alloc, line, "no run")),
            },
        }
    }

    // Plays the run that was told, if any, to its end.
    fn end(&mut self, line: usize) -> Result<(), Trouble> {
        match self.run.take() {
            Some(run) => play_to_end(self.alloc, &run, &mut self.disk, line),
            None => Ok(()),
        }
    }

    fn again(&mut self, line: usize) -> Result<(), Trouble> {
        self.end(line)?;
        self.run = Some(Run::new(self.alloc));
        Ok(())
    }

    fn anew(&mut self, line: usize) -> Result<(), Trouble> {
        self.again(line)?;
        self.disk = MemDisk::new(self.alloc);
        self.crashed = None;
        Ok(())
    }

    fn put_file(&mut self, line: usize, name: FileName, bytes: &[u8]) -> Result<(), Trouble> {
        if self.disk.clock() != 0 {
            return Err(Trouble::ill(self.alloc, line, "a run has begun"));
        }
        self.disk.put_file(name, bytes)?;
        Ok(())
    }

    fn compare_file(
        &mut self,
        line: usize,
        name: FileName,
        expected: Option<&[u8]>,
    ) -> Result<(), Trouble> {
        self.end(line)?;
        let came = self.disk.contents(name);
        if came == expected {
            return Ok(());
        }
        let expected = shown(self.alloc, expected)?;
        let came = shown(self.alloc, came)?;
        Err(Trouble::differs(self.alloc, line, expected.as_str(), came.as_str()))
    }

    fn crash(&mut self, line: usize, count: u64, choice: &Choice) -> Result<(), Trouble> {
        let Some(run) = self.run.take() else {
            return Err(Trouble::ill(self.alloc, line, "no run"));
        };
        let moment = play_to_reply(self.alloc, &run, &mut self.disk, line)?.saturating_add(count);
        let left = self.left(line, moment, choice)?;
        let disk = mem::replace(&mut self.disk, left);
        self.crashed = Some(Crashed { disk, moment });
        self.run = Some(Run::new(self.alloc));
        Ok(())
    }

    // What the choice leaves of the disk at this moment.
    fn left(&self, line: usize, moment: u64, choice: &Choice) -> Result<MemDisk, Trouble> {
        match self.disk.image(moment, choice)? {
            Some(left) => Ok(left),
            None => Err(Trouble::ill(self.alloc, line, "the run has no such moment")),
        }
    }

    fn crash_otherwise(&mut self, line: usize, choice: &Choice) -> Result<(), Trouble> {
        self.end(line)?;
        let left = match &self.crashed {
            Some(crashed) => crashed.disk.image(crashed.moment, choice)?,
            None => None,
        };
        match left {
            Some(left) => {
                self.disk = left;
                self.run = Some(Run::new(self.alloc));
                Ok(())
            }
            None => Err(Trouble::ill(self.alloc, line, "no crash above")),
        }
    }
}

// A file's bytes in hexadecimal.
fn shown(alloc: Global, file: Option<&[u8]>) -> Result<String, AllocError> {
    match file {
        Some(bytes) => hex::encode(alloc, bytes),
        None => String::from_str(alloc, "no file"),
    }
}

/// Plays a transcript.
pub fn play(alloc: Global, text: &str) -> Result<(), Trouble> {
    let mut player = Player::new(alloc);
    let mut last = 1;
    for numbered in steps_of(alloc, text)? {
        last = numbered.line;
        player.take(numbered.line, numbered.step)?;
    }
    player.end(last)
}
