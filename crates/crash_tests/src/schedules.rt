//! Scripts that a number makes.

use crate::images::{IMAGES_OF_A_LOSS, wrong_image};
use crate::kinds::Kinds;
use crate::plain::Plain;
use crate::runs::ran;
use crate::steps::{Call, Pattern, Row, Step, Table};
use file_mem::MemDisk;
use mn_run::Status;
use std::alloc::{AllocError, Global};
use std::test::Fail;
use std::vec;

// How many commands a script has behind those that make its tables.
const COMMANDS: usize = 300;

// A number that makes a script, and how many transactions its commands name. Where these are more than may be pending,
// most commands begin one.
const SCHEDULES: [(u64, u64); 8] = [
    (1, 2),
    (2, 2),
    (3, 2),
    (4, 3),
    (5, 3),
    (6, 4),
    (7, 5),
    (8, 100),
];

// Numbers that follow from the first one, by Knuth's linear congruential generator of 64 bits.
#[derive(Drop)]
struct Numbers {
    state: u64,
}

impl Numbers {
    // The next number, below this one.
    fn below(&mut self, count: u64) -> u64 {
        self.state = self
            .state
            .wrapping_mul(6364136223846793005)
            .wrapping_add(1442695040888963407);
        (self.state >> 33) % count.max(1)
    }

    // Keys and values are from 1 to 3, so that records come again.
    fn small(&mut self) -> u64 {
        self.below(3).saturating_add(1)
    }

    fn table(&mut self) -> Table {
        match self.below(3) {
            0 => Table::Set,
            1 => Table::Ordered,
            _ => Table::Bag,
        }
    }

    fn row(&mut self) -> Row {
        let (key, value) = (self.small(), self.small());
        match self.below(8) {
            0 => Row::Short(key),
            _ => Row::Pair(key, value),
        }
    }

    fn pattern(&mut self) -> Pattern {
        let part = self.small();
        match self.below(4) {
            0 => Pattern::Any,
            1 => Pattern::Key(part),
            2 => Pattern::Value(part),
            _ => Pattern::Alike,
        }
    }

    fn call(&mut self) -> Call {
        let table = self.table();
        match self.below(10) {
            0..=3 => Call::Write(table, self.row()),
            4 => Call::Delete(table, self.small()),
            5 => Call::DeleteObject(table, self.row()),
            6 | 7 => Call::Read(table, self.small()),
            8 => Call::Match(table, self.pattern()),
            _ => Call::AllKeys(table),
        }
    }

    // A command that is of no transaction.
    fn single(&mut self) -> Step {
        let table = self.table();
        match self.below(24) {
            0..=3 => Step::Make(table),
            4 => Step::MakeBadName,
            5 => Step::MakeBadOption(table),
            6 | 7 => Step::Remove(table),
            8 => Step::Tables,
            9 => Step::Info(table),
            10 => Step::SyncLog,
            11 => Step::Stop,
            12 => Step::Start,
            13 => Step::Unfinished,
            14..=17 => Step::Get(table, self.small()),
            _ => Step::Put(table, self.row()),
        }
    }

    // A command, of one of so many transactions or of none.
    fn step(&mut self, transactions: u64) -> Step {
        let txn = self.below(transactions);
        match self.below(40) {
            0..=9 => self.single(),
            10..=17 => Step::Begin(txn),
            18 | 19 => Step::Commit(txn),
            20 => Step::Abort(txn),
            _ => Step::Call(txn, self.call()),
        }
    }

    // The next command. A node that is down is started soon.
    fn command(&mut self, is_down: bool, transactions: u64) -> Step {
        if is_down && self.below(8) == 0 {
            Step::Start
        } else if transactions > 64 && self.below(4) > 0 {
            Step::Begin(self.below(transactions))
        } else {
            self.step(transactions)
        }
    }
}

// The script that a number makes.
fn script(alloc: Global, seed: u64, transactions: u64) -> Result<Vec<Step>, AllocError> {
    let mut numbers = Numbers { state: seed };
    let mut steps = vec![in alloc;
        Step::Tables,
        Step::Make(Table::Set),
        Step::Make(Table::Ordered),
        Step::Make(Table::Bag),
    ]?;
    let mut is_down = false;
    for _ in 0..COMMANDS {
        let step = numbers.command(is_down, transactions);
        match step {
            Step::Stop => is_down = true,
            Step::Start => is_down = false,
            _ => {}
        }
        steps.push(step)?;
    }
    Ok(steps)
}

// Each reply is the one of the plain lists, and what a later run finds is what they have. Each kind of reply comes, and
// there are transactions that commit several writes.
#[test]
fn replies_are_those_of_plain_lists(rt: HostRuntime) -> Result<(), Fail> {
    let mut kinds = Kinds::new(rt.alloc())?;
    let mut several = 0usize;
    for (seed, transactions) in SCHEDULES {
        let steps = script(rt.alloc(), seed, transactions)?;
        let mut disk = MemDisk::new(rt.alloc());
        let (outcome, replies) = ran(rt.alloc(), &mut disk, &steps)?;
        assert_eq!(rt; outcome.status, Status::Done, "status of {seed}");
        let mut plain = Plain::new(rt.alloc());
        assert_eq!(rt;
            plain.wrong_line(rt.alloc(), &steps, &replies)?,
            None,
            "replies of {seed}"
        );
        kinds.see_all(rt.alloc(), &steps, &replies)?;
        several = several.saturating_add(plain.commits_of_several());
        plain.end(rt.alloc(), true)?;
        assert_eq!(rt;
            wrong_image(rt.alloc(), &IMAGES_OF_A_LOSS, &disk, &plain)?,
            None,
            "image of {seed}"
        );
    }
    assert_eq!(rt; kinds.others(), 0);
    assert_eq!(rt; kinds.missing(), None);
    assert!(rt; several >= 20, "{several} commits of several writes");
    Ok(())
}
