//! One line after another, each with its reply and its mark.

ghost use Rattle.std.specs.Prelude.{◌≡◌, ◌⊎◌, ◌≤◌, ◌<◌, ◌+◌, ◌-◌, ◌^◌, ◌++◌, ◌∷◌, ℕ, [], IsTrue, OnOk, IfErr};
ghost use Rattle.file_trait.specs.Counts.{Rose};
ghost use Rattle.file_trait.specs.DiskModel.{Past};
ghost use Rattle.file_trait.specs.Touched.{Touches};
ghost use Rattle.txn_log.specs.Logs.{IsLogName};
ghost use Rattle.mn_node.specs.Calls.{Owes};
ghost use Rattle.mn_node.specs.Shown.{Shows, Steps, HasLogOf, IsFaulted, IsFew, IsWhole};
ghost use Rattle.mn_node.specs.Machine.{Machine};
ghost use Rattle.mn_node.specs.Seen.{answer as answer_of};
ghost use Rattle.mn_run.specs.Replies.{text_of};
ghost use Rattle.mn_run.specs.Seen as seen;
ghost use Rattle.mn_run.specs.Sessions.{Told, Served, Ended, IsOfAnswering, IsOfEnding, new_node, node_mark};
ghost use Rattle.mn_run.specs.Statuses.{status_of_down};

use crate::commands::Line;
use crate::marks::Marks;
use crate::outcome::{Mark, Status};
use crate::replies::print_reply;
use file_trait::Disk;
use mn_node::{Node, Reply, State};
use std::alloc::Global;

/// Where so many bytes of replies are gathered they are written.
pub const MOST_GATHERED: usize = 65_536;

/// A node, and what it said.
#[derive(Drop)]
pub struct Session {
    pub node: Node,
    /// The lines of replies that are not written yet.
    pub text: Vec<u8>,
    pub marks: Marks,
}

impl Session {
    /// A node that was not started, and said nothing.
    pub fn new(alloc: Global) -> Session
        ensures node { result.node ≡ new_node }
        ensures text { result.text.items ≡ [] }
        ensures marks { result.marks.items ≡ [] }
    {
        Session {
            node: Node::new(),
            text: Vec::new(alloc),
            marks: Marks::new(alloc),
        }
    }

    /// Answers a line, gathers the reply's line, and takes a mark, where so many commands were answered with it. Damage
    /// ends the run without a line.
    pub fn serve<D: Disk>(
        &mut self,
        alloc: Global,
        disk: &mut D,
        line: Line,
        done: u64,
    ) -> Result<(), Status>
        requires whole { IsWhole self.old.node.state }
        requires log { IsTrue D.tells → HasLogOf self.old.node.state (D.past disk.old) }
        requires few { (n : ℕ) × (n < 2 ^ 62) × IsFew self.old.node n }
        requires asked { seen.IsAskableLine line }
        ensures served { IsTrue D.tells
            → (first : Past) (machine : Machine) → Shows first self.old.node (D.past disk.old) machine
            → Served first (record { machine = machine; past = D.past disk.old; faults = D.faults disk.old })
            (seen.event line) done result self.old self.new (D.past disk.new) (D.faults disk.new) }
        ensures whole { OnOk result (IsWhole self.new.node.state) }
        ensures log { IsTrue D.tells → HasLogOf self.new.node.state (D.past disk.new) }
        ensures few { (n : ℕ) → IsFew self.old.node n → IsFew self.new.node (n + 1) }
        ensures down { IsFaulted self.new.node.state
            → IsFaulted self.old.node.state ⊎ Rose (D.faults disk.old) (D.faults disk.new) }
        ensures later { D.faults disk.old ≤ D.faults disk.new }
        ensures touches { IsTrue D.tells → Touches IsLogName (D.past disk.old) (D.past disk.new) }
        ensures only { IfErr result IsOfAnswering }
    {
        let reply = answer(&mut self.node, alloc, disk, line);
        let mark = mark_now(&self.node, disk, done);
        self.tell(&reply, mark)
    }

    fn tell(&mut self, reply: &Reply, mark: Mark) -> Result<(), Status>
        ensures node { self.new.node ≡ self.old.node }
        ensures told { Told (answer_of reply.now) mark result
            self.old.text.items self.new.text.items self.old.marks.items self.new.marks.items }
        ensures only { IfErr result IsOfAnswering }
    {
        if let Reply::Damaged(name, at) = reply {
            return Err(Status::Damaged(*name, *at));
        }
        let Ok(()) = print_reply(reply, &mut self.text) else {
            return Err(Status::Memory);
        };
        match self.marks.push(mark) {
            Ok(()) => Ok(()),
            Err(_) => Err(Status::Memory),
        }
    }

    /// Stops the node at the script's end where it is up, and takes a mark of that. No line is gathered.
    pub fn end<D: Disk>(&mut self, alloc: Global, disk: &mut D, done: u64) -> Status
        requires whole { IsWhole self.old.node.state }
        requires log { IsTrue D.tells → HasLogOf self.old.node.state (D.past disk.old) }
        requires few { (n : ℕ) × (n < 2 ^ 62) × IsFew self.old.node n }
        ensures ended { IsTrue D.tells
            → (first : Past) (machine : Machine) → Shows first self.old.node (D.past disk.old) machine
            → Ended first (record { machine = machine; past = D.past disk.old; faults = D.faults disk.old })
            done result self.old self.new (D.past disk.new) (D.faults disk.new) }
        ensures disk { result ≡ Status.DiskFault
            → IsFaulted self.old.node.state ⊎ Rose (D.faults disk.old) (D.faults disk.new) }
        ensures later { D.faults disk.old ≤ D.faults disk.new }
        ensures touches { IsTrue D.tells → Touches IsLogName (D.past disk.old) (D.past disk.new) }
        ensures only { IsOfEnding result }
    {
        let reply = self.node.end(alloc, disk);
        let mark = mark_now(&self.node, disk, done);
        match reply {
            Reply::Stopped => self.marked(mark, Status::Done),
            Reply::Fault(_) => self.marked(mark, Status::DiskFault),
            Reply::Down => why_down(&self.node),
            _ => Status::Memory,
        }
    }

    /// The status, where the mark was taken.
    fn marked(&mut self, mark: Mark, status: Status) -> Status
        ensures node { self.new.node ≡ self.old.node }
        ensures ok { (result ≡ status) × (self.new.marks.items ≡ self.old.marks.items ++ mark ∷ [])
            ⊎ ((result ≡ Status.Memory) × (self.new.marks.items ≡ self.old.marks.items)) }
    {
        match self.marks.push(mark) {
            Ok(()) => status,
            Err(_) => Status::Memory,
        }
    }
}

/// What the node answers to a line. One that is no command does not come to it.
fn answer<D: Disk>(node: &mut Node, alloc: Global, disk: &mut D, line: Line) -> Reply
    requires whole { IsWhole node.old.state }
    requires log { IsTrue D.tells → HasLogOf node.old.state (D.past disk.old) }
    requires few { (n : ℕ) × (n < 2 ^ 62) × IsFew node.old n }
    requires asked { seen.IsAskableLine line }
    ensures steps { IsTrue D.tells → (first : Past) (old : Machine) → Shows first node.old (D.past disk.old) old
        → Steps first old (seen.event line) (answer_of result) node.old node.new (D.past disk.old)
        (D.past disk.new) }
    ensures owes { Owes D.tells (D.faults disk.old) (D.faults disk.new) (D.blamed disk.new) (D.past disk.old) (D.past disk.new)
        node.old node.new (answer_of result) }
{
    match line {
        Line::Start => node.start(alloc, disk),
        Line::Do(command) => node.answer(alloc, disk, command),
        Line::Refused(at) => Reply::Badarg(at),
    }
}

/// The counts, where so many commands were answered.
fn mark_now<D: Disk>(node: &Node, disk: &D, done: u64) -> Mark
    ensures { IsTrue D.tells → result ≡ node_mark done node.now (D.past disk.now) (D.faults disk.now) }
{
    Mark {
        clock: disk.clock(),
        done,
        entries: node.entries,
        synced: node.synced,
        faults: disk.faults(),
        wants: 0,
    }
}

/// How a run ends whose node is down at the script's end.
fn why_down(node: &Node) -> Status
    ensures { result ≡ status_of_down node.now.state }
{
    match node.state {
        State::Stopped => Status::Done,
        State::Faulted => Status::DiskFault,
        State::Unstarted | State::Up(_) | State::Starved | State::Ruined => Status::Memory,
    }
}
