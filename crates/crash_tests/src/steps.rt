//! The commands of the runs.

/// A table: there may be one of each kind.
#[derive(Clone, Copy, Debug, PartialEq, Eq)]
pub enum Table {
    Set,
    Ordered,
    Bag,
}

impl Table {
    pub fn name(self) -> &'static str {
        match self {
            Table::Set => "s",
            Table::Ordered => "o",
            Table::Bag => "b",
        }
    }

    pub fn kind(self) -> &'static str {
        match self {
            Table::Set => "set",
            Table::Ordered => "ordered_set",
            Table::Bag => "bag",
        }
    }
}

/// What is written as a record.
#[derive(Clone, Copy)]
pub enum Row {
    /// A record of this key and this value.
    Pair(u64, u64),
    /// A tuple that has this key and no value: no table can have it.
    Short(u64),
}

impl Row {
    pub fn key(self) -> u64 {
        match self {
            Row::Pair(key, _) | Row::Short(key) => key,
        }
    }
}

/// What a record is looked for by.
#[derive(Clone, Copy)]
pub enum Pattern {
    Any,
    Key(u64),
    Value(u64),
    /// The key and the value are the same.
    Alike,
}

impl Pattern {
    pub fn fits(self, key: u64, value: u64) -> bool {
        match self {
            Pattern::Any => true,
            Pattern::Key(own) => key == own,
            Pattern::Value(own) => value == own,
            Pattern::Alike => key == value,
        }
    }
}

/// A call of a transaction.
#[derive(Clone, Copy)]
pub enum Call {
    Write(Table, Row),
    Delete(Table, u64),
    DeleteObject(Table, Row),
    Read(Table, u64),
    Match(Table, Pattern),
    AllKeys(Table),
}

impl Call {
    pub fn table(self) -> Table {
        match self {
            Call::Write(table, _)
            | Call::Delete(table, _)
            | Call::DeleteObject(table, _)
            | Call::Read(table, _)
            | Call::Match(table, _)
            | Call::AllKeys(table) => table,
        }
    }
}

/// A command. A transaction is called by a number.
#[derive(Clone, Copy)]
pub enum Step {
    Make(Table),
    /// A table is to be made of a name that none can have.
    MakeBadName,
    /// A table is to be made of a kind that there is not.
    MakeBadOption(Table),
    Remove(Table),
    Put(Table, Row),
    Get(Table, u64),
    /// The names of the tables are asked for.
    Tables,
    /// The options of a table are asked for, and how many records it has.
    Info(Table),
    Begin(u64),
    Call(u64, Call),
    Commit(u64),
    Abort(u64),
    SyncLog,
    Stop,
    Start,
    /// A line that stops too early to be a command.
    Unfinished,
}

/// The script that is stopped and failed. No value is put twice, so that each commit that is not refused makes a
/// database that was not there before, and so does each part of one.
pub const STEPS: [Step; 85] = [
    Step::Make(Table::Set),
    Step::Put(Table::Set, Row::Pair(1, 101)),
    Step::Put(Table::Set, Row::Pair(2, 102)),
    Step::SyncLog,
    Step::Put(Table::Set, Row::Pair(1, 103)),
    Step::Put(Table::Bag, Row::Pair(1, 104)),
    Step::Make(Table::Bag),
    Step::Put(Table::Bag, Row::Pair(1, 106)),
    Step::Put(Table::Bag, Row::Pair(1, 105)),
    Step::Get(Table::Bag, 1),
    // Two transactions, of which one commits and the other one is aborted.
    Step::Begin(1),
    Step::Begin(2),
    Step::Begin(1),
    Step::Call(1, Call::Write(Table::Set, Row::Pair(1, 118))),
    Step::Call(1, Call::Write(Table::Bag, Row::Pair(2, 119))),
    Step::Call(2, Call::Read(Table::Set, 1)),
    Step::Put(Table::Set, Row::Pair(1, 120)),
    Step::Put(Table::Set, Row::Pair(3, 107)),
    Step::Call(2, Call::Write(Table::Set, Row::Pair(2, 121))),
    Step::Call(1, Call::Match(Table::Set, Pattern::Any)),
    Step::Call(1, Call::DeleteObject(Table::Bag, Row::Pair(1, 105))),
    Step::Remove(Table::Set),
    Step::Make(Table::Ordered),
    Step::Commit(1),
    Step::Get(Table::Set, 1),
    Step::Call(2, Call::Write(Table::Ordered, Row::Pair(1, 122))),
    Step::Call(2, Call::Delete(Table::Bag, 2)),
    Step::Call(2, Call::AllKeys(Table::Ordered)),
    Step::Get(Table::Bag, 2),
    Step::Abort(2),
    Step::Get(Table::Bag, 2),
    Step::Remove(Table::Set),
    Step::Get(Table::Set, 1),
    Step::Put(Table::Bag, Row::Pair(2, 108)),
    Step::Put(Table::Ordered, Row::Pair(2, 109)),
    Step::Put(Table::Ordered, Row::Pair(1, 110)),
    Step::Make(Table::Set),
    Step::Get(Table::Set, 1),
    Step::Put(Table::Set, Row::Pair(1, 111)),
    // One that is pending at the stop.
    Step::Begin(3),
    Step::Call(3, Call::Write(Table::Set, Row::Pair(2, 123))),
    Step::Stop,
    Step::Commit(3),
    Step::Get(Table::Set, 1),
    Step::Start,
    Step::Commit(3),
    Step::Put(Table::Bag, Row::Pair(1, 112)),
    // Two that commit, the later one first, and then a table is taken away that they had a lock on.
    Step::Begin(1),
    Step::Begin(2),
    Step::Call(1, Call::Write(Table::Bag, Row::Pair(1, 124))),
    Step::Call(2, Call::Write(Table::Ordered, Row::Pair(3, 125))),
    Step::Remove(Table::Bag),
    Step::Call(1, Call::Write(Table::Bag, Row::Pair(3, 126))),
    Step::Call(2, Call::Delete(Table::Ordered, 1)),
    Step::Call(2, Call::Match(Table::Ordered, Pattern::Any)),
    Step::Commit(2),
    Step::Commit(1),
    Step::Remove(Table::Bag),
    Step::Put(Table::Ordered, Row::Pair(2, 113)),
    Step::Make(Table::Bag),
    Step::Make(Table::Bag),
    Step::Put(Table::Bag, Row::Pair(3, 115)),
    Step::Put(Table::Bag, Row::Pair(3, 114)),
    Step::SyncLog,
    // One that commits between writes of others, and one that is pending at the end.
    Step::Begin(4),
    Step::Begin(5),
    Step::Call(4, Call::Write(Table::Set, Row::Pair(1, 127))),
    Step::Call(5, Call::Write(Table::Set, Row::Pair(3, 128))),
    Step::Put(Table::Ordered, Row::Pair(1, 116)),
    Step::Info(Table::Bag),
    Step::Call(4, Call::Write(Table::Ordered, Row::Pair(1, 129))),
    Step::Call(5, Call::Read(Table::Ordered, 1)),
    Step::Call(4, Call::DeleteObject(Table::Bag, Row::Pair(3, 115))),
    Step::Remove(Table::Ordered),
    Step::Commit(4),
    Step::Commit(4),
    Step::Remove(Table::Ordered),
    Step::Tables,
    Step::Put(Table::Set, Row::Pair(2, 117)),
    Step::Call(5, Call::Write(Table::Bag, Row::Pair(2, 130))),
    Step::Begin(6),
    Step::Call(6, Call::Write(Table::Bag, Row::Pair(1, 131))),
    Step::Call(6, Call::Write(Table::Set, Row::Pair(1, 132))),
    Step::Commit(6),
    Step::Call(5, Call::Read(Table::Set, 2)),
];

/// The keys of the records.
pub const KEYS: [u64; 3] = [1, 2, 3];

/// All that the database has.
pub const QUESTIONS: [Step; 10] = [
    Step::Tables,
    Step::Get(Table::Set, 1),
    Step::Get(Table::Set, 2),
    Step::Get(Table::Set, 3),
    Step::Get(Table::Ordered, 1),
    Step::Get(Table::Ordered, 2),
    Step::Get(Table::Ordered, 3),
    Step::Get(Table::Bag, 1),
    Step::Get(Table::Bag, 2),
    Step::Get(Table::Bag, 3),
];
