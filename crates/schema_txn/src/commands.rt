//! The commits of the commands on whole tables.

ghost use Rattle.std.specs.Prelude.{◌≡◌, ◌+◌, ◌<◌, ◌≤◌, ◌^◌, ◌∷◌, [], IfOk, IfErr};
ghost use Rattle.db_model.specs.Database.{do_commit};
ghost use Rattle.db_model.specs.Definitions.{IsDefinition};
ghost use Rattle.db_model.specs.Lawful.{IsLawful};
ghost use Rattle.db_model.specs.View.{definition, commit_record};
ghost use Rattle.db_state.specs.Live.{database};
ghost use Rattle.schema_txn.specs.Commands.{with_cookie, create_commit, delete_commit, created, deleted, RefusesCreate, RefusesDelete};
ghost use Rattle.schema_txn.specs.declared.error.SchemaErr.TheVariants as refusals;

use crate::error::SchemaErr;
use db_model::{Commit, Ops, Schema, SchemaOp, SchemaOps, TableDef};
use db_state::Live;
use std::alloc::{AllocError, Global};
use term_core::Atom;

/// The most tables of a database.
const MOST_TABLES: usize = 1000;

/// The commit that makes this table, without records. Its cookie is the commit's version, whatever the definition's is.
/// It is refused where a table of the name stands, where 1000 tables do, and where there is no next version, in this
/// order.
pub fn create_table(alloc: Global, live: &Live, def: &TableDef) -> Result<Commit, SchemaErr>
    requires { IsDefinition (with_cookie 0 (definition def.now)) }
    ensures lawful { IfOk result (λ commit. IsLawful (commit_record commit) (database live.now)) }
    ensures commit { IfOk result (λ commit.
        commit_record commit ≡ create_commit (definition def.now) (database live.now)) }
    ensures does { IfOk result (λ commit. do_commit (commit_record commit) (database live.now)
        ≡ created (definition def.now) (database live.now)) }
    ensures refused { IfErr result (λ error. RefusesCreate error (definition def.now) (database live.now)) }
{
    if live.def(&def.name).is_some() {
        return Err(SchemaErr::Exists(copied(alloc, &def.name)?));
    }
    if live.schema().tables.len() >= MOST_TABLES {
        return Err(SchemaErr::TooManyTables);
    }
    let version = next_version(live.schema())?;
    let mut made = def.try_clone(alloc)?;
    made.cookie = version;
    Ok(commit_of(alloc, version, SchemaOp::Create(made))?)
}

/// The commit that takes this table away. It is refused where no table of the name stands, and where there is no next
/// version, in this order.
pub fn delete_table(alloc: Global, live: &Live, name: &Atom) -> Result<Commit, SchemaErr>
    ensures lawful { IfOk result (λ commit. IsLawful (commit_record commit) (database live.now)) }
    ensures commit { IfOk result (λ commit. commit_record commit ≡ delete_commit name.now (database live.now)) }
    ensures does { IfOk result (λ commit. do_commit (commit_record commit) (database live.now)
        ≡ deleted name.now (database live.now)) }
    ensures refused { IfErr result (λ error. RefusesDelete error name.now (database live.now)) }
{
    if live.def(name).is_none() {
        return Err(SchemaErr::NoTable);
    }
    let version = next_version(live.schema())?;
    let name = copied(alloc, name)?;
    Ok(commit_of(alloc, version, SchemaOp::DropTable(name))?)
}

/// The version of the next commit with schema ops.
fn next_version(schema: &Schema) -> Result<u64, SchemaErr>
    ensures next { IfOk result (λ version. (version ≡ schema.now.version + 1) × (version < 2 ^ 64)) }
    ensures last { IfErr result (λ error. (error ≡ refusals.TooManyVersions) × (2 ^ 64 ≤ schema.now.version + 1)) }
{
    schema
        .version
        .checked_add(1)
        .ok_or(SchemaErr::TooManyVersions)
}

/// The commit of one schema op alone.
fn commit_of(alloc: Global, version: u64, op: SchemaOp) -> Result<Commit, AllocError>
    ensures { IfOk result (λ commit. commit ≡ record { version = version; schema_ops = op ∷ []; ops = [] }) }
{
    let mut schema_ops = SchemaOps::new(alloc);
    schema_ops.push(op)?;
    Ok(Commit {
        version,
        schema_ops,
        ops: Ops::new(alloc),
    })
}

fn copied(alloc: Global, name: &Atom) -> Result<Atom, AllocError>
    ensures { IfOk result (λ copy. copy ≡ name.now) }
{
    name.try_clone(alloc).map_err(|_| AllocError)
}
