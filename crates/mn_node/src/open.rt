//! What a node that is up works on: the live database and the log of its commits.

ghost use Rattle.std.specs.Prelude.{◌≡◌, ◌<◌, ◌≤◌, ◌+◌, ◌-◌, ◌^◌, ◌∷◌, [], ℕ, List, map, true, false, None, IsTrue, IfOk, IsSomeAnd, IsErrOf, OnErr, IfErr, MatchOption};
ghost use Rattle.std.specs.Option.{option_copied};
ghost use Rattle.file_trait.specs.DiskModel.{Past};
ghost use Rattle.term_core.specs.Tree.{atom, greatest_depth};
ghost use Rattle.term_core.specs.View.{tree_of};
ghost use Rattle.disk_logs.specs.Logs.{IsLog};
ghost use Rattle.db_model.specs.Commits.{CommitRecord};
ghost use Rattle.db_model.specs.Lawful.{table_in, IsLawful};
ghost use Rattle.db_model.specs.Names.{IsTableName};
ghost use Rattle.db_model.specs.View.{definition, commit_record};
ghost use Rattle.db_model.specs.declared.op.Op.TheVariants.{Write};
ghost use Rattle.db_state.specs.Live.{database, definition_of};
ghost use Rattle.schema_txn.specs.Commands.{RefusesCreate, RefusesDelete};
ghost use Rattle.db_model.specs.Ops as ops;
ghost use Rattle.txn_core.specs.Calls as calls;
ghost use Rattle.txn_core.specs.Pending.{Txn};
ghost use Rattle.txn_log.specs.Commits.{IsLogged, IsItemOf, op_trees};
ghost use Rattle.txn_log.specs.Logs.{handle, latest, TxnStands, IsLogName};
ghost use Rattle.mn_node.specs.Durable.{made};
ghost use Rattle.mn_node.specs.Effects.{IsAskable, effect, pending_after, commits as commit_effect};
ghost use Rattle.mn_node.specs.Effects as machine;
ghost use Rattle.mn_node.specs.Inside.Tries.{IsFileOrMemory, Tries, PendsOut, durable, Appends, Attempts, CommitsTo, only, IsPlain, IsRefusalOf, IsUndefined};
ghost use Rattle.mn_node.specs.Seen as seen;
ghost use Rattle.mn_node.specs.Shown.{OpenShows, Pends, HasPending};

use crate::command::Command;
use crate::reply::Reply;
use crate::terms::{copied_name, copies, named, size_option};
use db_model::{Commit, DefErr, Op, Ops, SchemaOps, TableDef, create_list, fits, is_table_name};
use db_state::Live;
use disk_logs::LogErr;
use file_trait::{Disk, FileName};
use schema_txn::{SchemaErr, create_table, delete_table};
use sqlite_items::{Boxed, Items};
use std::alloc::{AllocError, Global};
use term_core::{Atom, Term};
use txn_core::Txns;
use txn_log::{CommitItem, TxnLog, encode_commit};

/// What a command did.
#[derive(Drop)]
pub struct Done {
    pub reply: Reply,
    /// A commit was appended.
    pub wrote: bool,
    /// All commits are durable.
    pub settles: bool,
    /// The node is to be down.
    pub halts: bool,
}

/// Why a command was not done.
#[derive(Clone, Copy, Debug, PartialEq, Eq)]
pub enum Trouble {
    /// Out of memory.
    Memory,
    /// The disk failed at this file, and the command's commit, where it has one, is in doubt.
    File(FileName, bool),
}

impl From<AllocError> for Trouble {
    ghost from_gives = { λ _ e. e ≡ Memory };

    ghost use Rattle.mn_node.specs.declared.open.Trouble.TheVariants.{Memory};

    fn from(_: AllocError) -> Trouble {
        Trouble::Memory
    }
}

/// The live database, the log that its commits go to, and the transactions that are pending.
#[derive(Drop)]
pub struct Open {
    pub log: TxnLog,
    pub tables: Live,
    pub txns: Txns,
}

/// Only a reply.
pub fn told(reply: Reply) -> Done
    ensures { result ≡ record { reply = reply; wrote = false; settles = false; halts = false } }
{
    Done {
        reply,
        wrote: false,
        settles: false,
        halts: false,
    }
}

/// Why it was not done where the log failed: the disk did, or memory was wanting.
fn why(error: LogErr, doubt: bool) -> Trouble
    requires { IsFileOrMemory error }
    ensures file { (name : List ℕ) → error ≡ LogErr.File name → result ≡ Trouble.File name doubt }
    ensures memory { error ≡ LogErr.Memory → result ≡ Trouble.Memory }
    ensures only { (name : List ℕ) (other : _) → result ≡ Trouble.File name other → error ≡ LogErr.File name }
    ensures only_memory { result ≡ Trouble.Memory → error ≡ LogErr.Memory }
{
    match error {
        LogErr::File(name) => Trouble::File(name, doubt),
        LogErr::Memory => Trouble::Memory,
        LogErr::TooLong | LogErr::Bad(_, _) => unreachable!(),
    }
}

/// Appends a commit, and makes it durable where it settles. Where a sync fails the commit is in doubt.
fn append<D: Disk>(
    alloc: Global,
    log: &mut TxnLog,
    disk: &mut D,
    item: &CommitItem,
    settles: bool,
) -> Result<Done, Trouble>
    requires log { IsTrue D.tells → IsLog (D.past disk.old) (handle log.old) }
    requires few { log.old.commits < 2 ^ 64 - 1 }
    ensures appends { IsTrue D.tells → (commits : List CommitRecord) (synced : ℕ) (commit : CommitRecord)
        → IsItemOf commit item.now → TxnStands (D.past disk.old) log.old commits synced
        → Appends settles commit commits synced result log.new (D.past disk.old) (D.past disk.new) }
    ensures owes { Attempts D.Disk disk.old disk.new log.old log.new result }
    ensures done { IfOk result (λ done.
        done ≡ record { reply = Reply.Done; wrote = true; settles = settles; halts = false }) }
{
    if let Err(error) = log.append(alloc, disk, item) {
        return Err(why(error, true));
    }
    if settles {
        if let Err(error) = log.sync(disk) {
            return Err(why(error, true));
        }
    }
    Ok(Done {
        reply: Reply::Done,
        wrote: true,
        settles,
        halts: false,
    })
}

/// The commit that writes this record, and does nothing else.
fn write_commit(alloc: Global, version: u64, table: Atom, row: Term) -> Result<Commit, AllocError>
    ensures { IfOk result (λ commit.
        commit ≡ record { version = version; schema_ops = []; ops = Write table row ∷ [] }) }
{
    let mut ops = Ops::new(alloc);
    ops.push(Op::Write(table, row))?;
    Ok(Commit {
        version,
        schema_ops: SchemaOps::new(alloc),
        ops,
    })
}

/// What is answered where the options define no table of this name.
fn undefined(error: DefErr, name: Atom) -> Result<Done, Trouble>
    ensures { IsUndefined error name result }
{
    match error {
        DefErr::BadName => Ok(told(Reply::BadName(name))),
        DefErr::BadOption(place) => Ok(told(Reply::BadOption(place))),
        DefErr::Memory => Err(Trouble::Memory),
    }
}

/// What is answered where a command on a whole table was refused.
fn refused(error: SchemaErr, name: Atom) -> Result<Done, Trouble>
    ensures { IsRefusalOf error name result }
{
    match error {
        SchemaErr::Exists(_) => Ok(told(Reply::Exists(name))),
        SchemaErr::NoTable => Ok(told(Reply::NoTable(name))),
        SchemaErr::TooManyTables => Ok(told(Reply::TooManyTables)),
        SchemaErr::TooManyVersions => Ok(told(Reply::TooManyVersions)),
        SchemaErr::Memory => Err(Trouble::Memory),
    }
}

/// The names of these definitions.
fn names_of(alloc: Global, defs: &[TableDef]) -> Result<Items<Term>, AllocError>
    ensures some { OnErr result (defs.now ≡ [] → ⊥) }
    ensures names { IfOk result (λ names. map tree_of names ≡ map (λ def. atom def.name) defs.now) }
{
    let mut names = Items::new(alloc);
    for def in defs {
        names.push(named(alloc, &def.name)?)?;
    }
    Ok(names)
}

/// All options of this definition, and `{size,Count}`.
fn info_of(alloc: Global, def: &TableDef, count: u64) -> Result<Items<Term>, AllocError>
    ensures { IfOk result (λ terms. map tree_of terms ≡ machine.options_of (definition def.now) count) }
{
    match create_list(alloc, def)? {
        Term::List(mut terms) => {
            terms.push(size_option(alloc, count)?)?;
            Ok(terms)
        }
        Term::Int(_) | Term::Atom(_) | Term::Tuple(_) | Term::Bin(_) => unreachable!(),
    }
}

/// What is answered where the transaction of this name has a conflicting lock.
fn locked(alloc: Global, by: &Atom) -> Result<Done, Trouble>
    ensures ok { IfOk result (λ done. done ≡ only (Reply.Locked by.now)) }
    ensures err { IfErr result (λ trouble. trouble ≡ Trouble.Memory) }
{
    Ok(told(Reply::Locked(copied_name(alloc, by)?)))
}

impl Open {
    /// Does one command: one arm each.
    pub fn attempt<D: Disk>(
        &mut self,
        alloc: Global,
        disk: &mut D,
        command: Command,
    ) -> Result<Done, Trouble>
        requires log { IsTrue D.tells → IsLog (D.past disk.old) (handle self.old.log) }
        requires few { self.old.log.commits < 2 ^ 64 - 1 }
        requires asked { IsAskable (seen.asked command) }
        requires pending { HasPending self.old }
        ensures pends { (pending : List Txn) → Pends self.old pending
            → PendsOut result self.new pending (pending_after (durable self.old) pending (seen.asked command)) }
        ensures tries { IsTrue D.tells → (commits : List CommitRecord) (synced : ℕ) (pending : List Txn)
            → OpenShows self.old (D.past disk.old) commits synced → Pends self.old pending
            → Tries (effect (made commits) pending (seen.asked command)) commits synced result self.new
            (D.past disk.old) (D.past disk.new) }
        ensures owes { Attempts D.Disk disk.old disk.new self.old.log self.new.log result }
        ensures sync { seen.asked command ≡ machine.sync_log → IsErrOf result Trouble.Memory → ⊥ }
    {
        match command {
            Command::Put(table, row) => self.put(alloc, disk, table, row),
            Command::Get(table, key) => self.get(alloc, table, &key),
            Command::CreateTable(name, read) => self.create(alloc, disk, name, read),
            Command::DeleteTable(name) => self.delete(alloc, disk, name),
            Command::Tables => self.names(alloc),
            Command::TableInfo(name) => self.info(alloc, name),
            Command::SyncLog => self.settle(disk),
            Command::Stop => self.close(disk),
            Command::Begin(name) => self.begin(alloc, name),
            Command::Write(name, table, row) => self.write(alloc, name, table, row),
            Command::Delete(name, table, key) => self.delete_key(alloc, name, table, key),
            Command::DeleteObject(name, table, row) => self.delete_object(alloc, name, table, row),
            Command::Read(name, table, key) => self.read(alloc, name, table, key),
            Command::MatchObject(name, table, pattern) => {
                self.match_object(alloc, name, table, pattern)
            }
            Command::AllKeys(name, table) => self.all_keys(alloc, name, table),
            Command::Commit(name) => self.commit_txn(alloc, disk, name),
            Command::Abort(name) => self.abort(name),
        }
    }

    /// Puts a record into a table that stands and can have it.
    fn put<D: Disk>(
        &mut self,
        alloc: Global,
        disk: &mut D,
        table: Atom,
        row: Term,
    ) -> Result<Done, Trouble>
        requires log { IsTrue D.tells → IsLog (D.past disk.old) (handle self.old.log) }
        requires few { self.old.log.commits < 2 ^ 64 - 1 }
        ensures tries { IsTrue D.tells → (commits : List CommitRecord) (synced : ℕ) (pending : List Txn)
            → OpenShows self.old (D.past disk.old) commits synced → Pends self.old pending
            → Tries (effect (made commits) pending (machine.put table (tree_of row))) commits synced result self.new
            (D.past disk.old) (D.past disk.new) }
        ensures pends { (pending : List Txn) → Pends self.old pending
            → PendsOut result self.new pending
            (pending_after (durable self.old) pending (machine.put table (tree_of row))) }
        ensures owes { Attempts D.Disk disk.old disk.new self.old.log self.new.log result }
    {
        let Some(def) = self.standing(&table) else {
            return Ok(told(Reply::NoTable(table)));
        };
        if !fits(def, &row) {
            return Ok(told(Reply::BadRecord(row)));
        }
        if let Some(by) = self.write_holder(&table, &row) {
            return locked(alloc, by);
        }
        let commit = write_commit(alloc, self.tables.schema().version, table, row)?;
        self.commit(alloc, disk, &commit, false)
    }

    /// Makes a table, whose options were read.
    fn create<D: Disk>(
        &mut self,
        alloc: Global,
        disk: &mut D,
        name: Atom,
        read: Result<Boxed<TableDef>, DefErr>,
    ) -> Result<Done, Trouble>
        requires log { IsTrue D.tells → IsLog (D.past disk.old) (handle self.old.log) }
        requires few { self.old.log.commits < 2 ^ 64 - 1 }
        requires asked { IsAskable (machine.create_table name (seen.read_as read)) }
        ensures tries { IsTrue D.tells → (commits : List CommitRecord) (synced : ℕ) (pending : List Txn)
            → OpenShows self.old (D.past disk.old) commits synced → Pends self.old pending
            → Tries (effect (made commits) pending (machine.create_table name (seen.read_as read))) commits synced
            result self.new (D.past disk.old) (D.past disk.new) }
        ensures pends { (pending : List Txn) → Pends self.old pending
            → PendsOut result self.new pending
            (pending_after (durable self.old) pending (machine.create_table name (seen.read_as read))) }
        ensures owes { Attempts D.Disk disk.old disk.new self.old.log self.new.log result }
    {
        let def = match read {
            Ok(def) => def,
            Err(error) => return undefined(error, name),
        };
        match create_table(alloc, &self.tables, def.get()) {
            Ok(commit) => self.commit(alloc, disk, &commit, true),
            Err(error) => refused(error, name),
        }
    }

    /// Takes a table that stands away.
    fn delete<D: Disk>(&mut self, alloc: Global, disk: &mut D, name: Atom) -> Result<Done, Trouble>
        requires log { IsTrue D.tells → IsLog (D.past disk.old) (handle self.old.log) }
        requires few { self.old.log.commits < 2 ^ 64 - 1 }
        ensures tries { IsTrue D.tells → (commits : List CommitRecord) (synced : ℕ) (pending : List Txn)
            → OpenShows self.old (D.past disk.old) commits synced → Pends self.old pending
            → Tries (effect (made commits) pending (machine.delete_table name)) commits synced result self.new
            (D.past disk.old) (D.past disk.new) }
        ensures pends { (pending : List Txn) → Pends self.old pending
            → PendsOut result self.new pending (pending_after (durable self.old) pending (machine.delete_table name)) }
        ensures owes { Attempts D.Disk disk.old disk.new self.old.log self.new.log result }
    {
        let Some(_) = self.standing(&name) else {
            return Ok(told(Reply::NoTable(name)));
        };
        if let Some(by) = self.txns.holder(&name) {
            return locked(alloc, by);
        }
        match delete_table(alloc, &self.tables, &name) {
            Ok(commit) => self.commit(alloc, disk, &commit, true),
            Err(error) => refused(error, name),
        }
    }

    /// The definition of the table of this name, where it stands. Only what a table can be called may be one's name,
    /// and a log takes no other.
    fn standing(&self, name: &Atom) -> Option<&TableDef>
        ensures { MatchOption result
            (IsTableName name.now → table_in name.now (database self.now.tables).tables ≡ None)
            (λ def. IsTableName name.now × IsSomeAnd (table_in name.now (database self.now.tables).tables)
            (λ table. definition def.now ≡ definition_of table)) }
    {
        if !is_table_name(name) {
            return None;
        }
        self.tables.def(name)
    }

    /// Takes the memory that the commit needs in the tables, then appends it, makes it durable where it settles, and
    /// then does it, which cannot fail.
    pub fn commit<D: Disk>(
        &mut self,
        alloc: Global,
        disk: &mut D,
        commit: &Commit,
        settles: bool,
    ) -> Result<Done, Trouble>
        requires log { IsTrue D.tells → IsLog (D.past disk.old) (handle self.old.log) }
        requires few { self.old.log.commits < 2 ^ 64 - 1 }
        requires lawful { IsLawful (commit_record commit.now) (database self.old.tables) }
        requires logged { IsLogged (commit_record commit.now) }
        requires levels { greatest_depth (op_trees (commit_record commit.now).operations) ≤ 126 }
        ensures tries { IsTrue D.tells → (commits : List CommitRecord) (synced : ℕ)
            → OpenShows self.old (D.past disk.old) commits synced
            → Tries (commit_effect settles (commit_record commit.now)) commits synced result self.new
            (D.past disk.old) (D.past disk.new) }
        ensures owes { Attempts D.Disk disk.old disk.new self.old.log self.new.log result }
        ensures did { CommitsTo (commit_record commit.now) self.old self.new result }
    {
        let item = match encode_commit(alloc, commit) {
            Ok(item) => item,
            Err(LogErr::TooLong) => return Ok(told(Reply::TooLong)),
            Err(_) => return Err(Trouble::Memory),
        };
        let plan = self.tables.plan(alloc, commit)?;
        match append(alloc, &mut self.log, disk, &item, settles) {
            Ok(done) => {
                self.tables.apply(plan);
                Ok(done)
            }
            Err(trouble) => Err(trouble),
        }
    }

    /// The first pending transaction with a lock that bars a write of the record.
    fn write_holder(&self, table: &Atom, row: &Term) -> Option<&Atom>
        ensures { (pending : List Txn) → Pends self.now pending
            → option_copied result ≡ machine.holder_for (calls.change (ops.write table.now (tree_of row.now))) pending }
    {
        match row.key() {
            Some(key) => self.txns.key_holder(table, key, true),
            None => self.txns.holder(table),
        }
    }

    /// Copies of the records with this key, of a table that stands.
    fn get(&self, alloc: Global, table: Atom, key: &Term) -> Result<Done, Trouble>
        ensures tries { (past : Past) (commits : List CommitRecord) (synced : ℕ) (pending : List Txn)
            → OpenShows self.now past commits synced → Pends self.now pending
            → Tries (effect (made commits) pending (machine.get table (tree_of key.now))) commits synced result self.now
            past past }
        ensures none { (name : List ℕ) (doubt : _) → IsErrOf result (Trouble.File name doubt) → ⊥ }
        ensures plain { IfOk result (λ done. IsPlain (seen.answer done.reply)) }
    {
        let Some(records) = self.tables.table(&table) else {
            return Ok(told(Reply::NoTable(table)));
        };
        if let Some(by) = self.txns.key_holder(&table, key, false) {
            return locked(alloc, by);
        }
        Ok(told(Reply::Found(copies(alloc, records.read(key))?)))
    }

    /// The names of the tables, in their order.
    fn names(&self, alloc: Global) -> Result<Done, Trouble>
        ensures tries { (past : Past) (commits : List CommitRecord) (synced : ℕ) (pending : List Txn)
            → OpenShows self.now past commits synced → Pends self.now pending
            → Tries (effect (made commits) pending (machine.tables)) commits synced result self.now past past }
        ensures none { (name : List ℕ) (doubt : _) → IsErrOf result (Trouble.File name doubt) → ⊥ }
        ensures plain { IfOk result (λ done. IsPlain (seen.answer done.reply)) }
    {
        let defs = self.tables.schema().tables.as_slice();
        Ok(told(Reply::Found(names_of(alloc, defs)?)))
    }

    /// All options of a table that stands, and how many records it has.
    fn info(&self, alloc: Global, name: Atom) -> Result<Done, Trouble>
        ensures tries { (past : Past) (commits : List CommitRecord) (synced : ℕ) (pending : List Txn)
            → OpenShows self.now past commits synced → Pends self.now pending
            → Tries (effect (made commits) pending (machine.table_info name)) commits synced result self.now past past }
        ensures none { (name : List ℕ) (doubt : _) → IsErrOf result (Trouble.File name doubt) → ⊥ }
        ensures plain { IfOk result (λ done. IsPlain (seen.answer done.reply)) }
    {
        match (self.tables.def(&name), self.tables.table(&name)) {
            (Some(def), Some(table)) => {
                let terms = info_of(alloc, def, table.count() as u64)?;
                Ok(told(Reply::Found(terms)))
            }
            _ => Ok(told(Reply::NoTable(name))),
        }
    }

    /// Makes all commits durable.
    fn settle<D: Disk>(&mut self, disk: &mut D) -> Result<Done, Trouble>
        requires log { IsTrue D.tells → IsLog (D.past disk.old) (handle self.old.log) }
        ensures tries { IsTrue D.tells → (commits : List CommitRecord) (synced : ℕ) (pending : List Txn)
            → OpenShows self.old (D.past disk.old) commits synced → Pends self.old pending
            → Tries (effect (made commits) pending machine.sync_log) commits synced result self.new
            (D.past disk.old) (D.past disk.new) }
        ensures owes { Attempts D.Disk disk.old disk.new self.old.log self.new.log result }
        ensures kept { (self.new.tables ≡ self.old.tables) × (self.new.txns ≡ self.old.txns) }
        ensures same { self.new.log.commits ≡ self.old.log.commits }
        ensures never { IsErrOf result Trouble.Memory → ⊥ }
        ensures one { D.moment disk.new ≤ D.moment disk.old + 1 }
    {
        match self.log.sync(disk) {
            Ok(()) => Ok(Done {
                reply: Reply::Synced,
                wrote: false,
                settles: true,
                halts: false,
            }),
            Err(error) => Err(why(error, false)),
        }
    }

    /// Closes the log.
    fn close<D: Disk>(&mut self, disk: &mut D) -> Result<Done, Trouble>
        requires log { IsTrue D.tells → IsLog (D.past disk.old) (handle self.old.log) }
        ensures tries { IsTrue D.tells → (commits : List CommitRecord) (synced : ℕ) (pending : List Txn)
            → OpenShows self.old (D.past disk.old) commits synced → Pends self.old pending
            → Tries (effect (made commits) pending machine.stop) commits synced result self.new
            (D.past disk.old) (D.past disk.new) }
        ensures owes { Attempts D.Disk disk.old disk.new self.old.log self.new.log result }
        ensures kept { (self.new.tables ≡ self.old.tables) × (self.new.txns ≡ self.old.txns) }
        ensures halts { IfOk result (λ done. done.halts ≡ true) }
        ensures same { self.new.log.commits ≡ self.old.log.commits }
        ensures calls_few { D.moment disk.new ≤ D.moment disk.old + 3 }
    {
        match self.log.close(disk) {
            Ok(()) => Ok(Done {
                reply: Reply::Stopped,
                wrote: false,
                settles: true,
                halts: true,
            }),
            Err(error) => Err(why(error, false)),
        }
    }
}
