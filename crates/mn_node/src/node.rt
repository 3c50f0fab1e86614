//! The node: whether it is up, and what it counts.

ghost use Rattle.std.specs.Prelude.{◌≡◌, ◌↔◌, ◌≤◌, ◌<◌, ◌+◌, ◌-◌, ◌^◌, ℕ, None, Some, IsTrue};
ghost use Rattle.file_trait.specs.DiskModel.{Past};
ghost use Rattle.mn_node.specs.Calls.{Owes};
ghost use Rattle.mn_node.specs.Effects as effects;
ghost use Rattle.mn_node.specs.Effects.{IsAskable};
ghost use Rattle.mn_node.specs.Inside.Loads.{start_answer, down_node, up_node};
ghost use Rattle.mn_node.specs.Inside.Tries.{settled_node, failed_node, failed_answer};
ghost use Rattle.mn_node.specs.Machine.{Machine};
ghost use Rattle.mn_node.specs.Machine as machine;
ghost use Rattle.mn_node.specs.Seen as seen;
ghost use Rattle.mn_node.specs.Shown.{Shows, Steps, HasLogOf, IsUpState, IsWhole, IsFew};

use crate::command::Command;
use crate::open::{Done, Open, Trouble};
use crate::reply::Reply;
use crate::starting::{StartErr, start};
use file_trait::Disk;
use std::alloc::Global;

/// Whether the node is up, and why it is down.
#[derive(Drop)]
pub enum State {
    /// It was not started yet.
    Unstarted,
    Up(Open),
    /// It was stopped.
    Stopped,
    /// The disk failed.
    Faulted,
    /// A start wanted memory.
    Starved,
    /// A start found the directory without a meaning.
    Ruined,
}

/// A node.
#[derive(Drop)]
pub struct Node {
    pub state: State,
    /// How many commits the log had at the last good start, none before the first.
    pub base: Option<u64>,
    /// How many commits there were since, with one that a fault left in doubt.
    pub entries: u64,
    /// How many of these are known to be durable.
    pub synced: u64,
}

impl Node {
    /// A node that was not started yet.
    pub fn new() -> Node
        ensures { result ≡ record { state = State.Unstarted; base = None; entries = 0; synced = 0 } }
    {
        Node {
            state: State::Unstarted,
            base: None,
            entries: 0,
            synced: 0,
        }
    }

    /// Starts the node where it is down.
    pub fn start<D: Disk>(&mut self, alloc: Global, disk: &mut D) -> Reply
        requires whole { IsWhole self.old.state }
        requires log { IsTrue D.tells → HasLogOf self.old.state (D.past disk.old) }
        ensures steps { IsTrue D.tells → (first : Past) (old : Machine) → Shows first self.old (D.past disk.old) old
            → Steps first old machine.start (seen.answer result) self.old self.new (D.past disk.old) (D.past disk.new) }
        ensures owes { Owes D.tells (D.faults disk.old) (D.faults disk.new) (D.blamed disk.new) (D.past disk.old)
            (D.past disk.new) self.old self.new (seen.answer result) }
    {
        if let State::Up(_) = self.state {
            return Reply::Up;
        }
        match start(alloc, disk) {
            Ok(live) => self.boot(live),
            Err(error) => self.remain(error),
        }
    }

    /// Brings the node up. The commits that were kept of those since the last good start are told.
    fn boot(&mut self, live: Open) -> Reply
        ensures node { self.new ≡ up_node live }
        ensures first { self.old.base ≡ None → result ≡ Reply.Started 0 }
        ensures later { (base : ℕ) → self.old.base ≡ Some base → result ≡ Reply.Started (live.log.commits - base) }
    {
        let commits = live.log.commits();
        let kept = match self.base {
            Some(base) => commits.saturating_sub(base),
            None => 0,
        };
        self.state = State::Up(live);
        self.base = Some(commits);
        self.entries = 0;
        self.synced = 0;
        Reply::Started(kept)
    }

    /// A start failed.
    fn remain(&mut self, error: StartErr) -> Reply
        ensures reply { seen.answer result ≡ start_answer error }
        ensures node { self.new ≡ down_node self.old error }
    {
        match error {
            StartErr::File(name) => {
                self.state = State::Faulted;
                Reply::Fault(name)
            }
            StartErr::Memory => {
                self.state = State::Starved;
                Reply::Memory
            }
            StartErr::Damaged(name, at) => {
                self.state = State::Ruined;
                Reply::Damaged(name, at)
            }
        }
    }

    /// Answers one command: tests once whether the node is up, tries the command, and settles or fails once.
    pub fn answer<D: Disk>(&mut self, alloc: Global, disk: &mut D, command: Command) -> Reply
        requires whole { IsWhole self.old.state }
        requires log { IsTrue D.tells → HasLogOf self.old.state (D.past disk.old) }
        requires few { (n : ℕ) × (n < 2 ^ 62) × IsFew self.old n }
        requires asked { IsAskable (seen.asked command) }
        ensures steps { IsTrue D.tells → (first : Past) (old : Machine) → Shows first self.old (D.past disk.old) old
            → Steps first old (machine.command (seen.asked command)) (seen.answer result) self.old self.new
            (D.past disk.old) (D.past disk.new) }
        ensures owes { Owes D.tells (D.faults disk.old) (D.faults disk.new) (D.blamed disk.new) (D.past disk.old)
            (D.past disk.new) self.old self.new (seen.answer result) }

        // Down is answered exactly where the node is not up, and a sync takes no memory.
        ensures down { (seen.answer result ≡ effects.is_down) ↔ (IsUpState self.old.state → ⊥) }
        ensures sync { seen.asked command ≡ effects.sync_log → seen.answer result ≡ effects.no_memory → ⊥ }
    {
        let tried = match &mut self.state {
            State::Up(live) => live.attempt(alloc, disk, command),
            _ => return refused(command),
        };
        match tried {
            Ok(done) => self.settle(done),
            Err(trouble) => self.fail(trouble),
        }
    }

    /// Stops the node at the script's end.
    pub fn end<D: Disk>(&mut self, alloc: Global, disk: &mut D) -> Reply
        requires whole { IsWhole self.old.state }
        requires log { IsTrue D.tells → HasLogOf self.old.state (D.past disk.old) }
        requires few { (n : ℕ) × (n < 2 ^ 62) × IsFew self.old n }
        ensures steps { IsTrue D.tells → (first : Past) (old : Machine) → Shows first self.old (D.past disk.old) old
            → Steps first old machine.end (seen.answer result) self.old self.new (D.past disk.old) (D.past disk.new) }
        ensures owes { Owes D.tells (D.faults disk.old) (D.faults disk.new) (D.blamed disk.new) (D.past disk.old)
            (D.past disk.new) self.old self.new (seen.answer result) }
        ensures down { (seen.answer result ≡ effects.is_down) ↔ (IsUpState self.old.state → ⊥) }
    {
        self.answer(alloc, disk, Command::Stop)
    }

    /// What was done counts.
    #[inline(never)]
    fn settle(&mut self, done: Done) -> Reply
        requires few { self.old.entries < 2 ^ 62 }
        ensures reply { result ≡ done.reply }
        ensures node { self.new ≡ settled_node self.old done }
    {
        if done.wrote {
            self.entries += 1;
        }
        if done.settles {
            self.synced = self.entries;
        }
        if done.halts {
            self.state = State::Stopped;
        }
        done.reply
    }

    /// Memory or a file failed.
    #[inline(never)]
    fn fail(&mut self, trouble: Trouble) -> Reply
        requires few { self.old.entries < 2 ^ 62 }
        ensures reply { seen.answer result ≡ failed_answer trouble }
        ensures node { self.new ≡ failed_node self.old trouble }
    {
        match trouble {
            Trouble::Memory => Reply::Memory,
            Trouble::File(name, doubt) => {
                if doubt {
                    self.entries += 1;
                }
                self.state = State::Faulted;
                Reply::Fault(name)
            }
        }
    }
}

/// What a node that is down answers. The command is dropped here, so that one which is tried takes no room for that.
#[inline(never)]
fn refused(_command: Command) -> Reply
    ensures { result ≡ Reply.Down }
{
    Reply::Down
}
