//! The live database.

ghost use Rattle.std.specs.Prelude.{◌≡◌, [], map, All, None, Some, IfOk, MatchOption};
ghost use Rattle.std.specs.Option.{option_map, option_copied};
ghost use Rattle.db_model.specs.Database.{empty_table, do_commit};
ghost use Rattle.db_model.specs.Lawful.{table_in, IsLawful};
ghost use Rattle.db_model.specs.View.{definition, operation, commit_record};
ghost use Rattle.db_model.specs.Taken.{MayTakeOp, Takes};
ghost use Rattle.std.specs.List.{position_from, AllByRecursion};
ghost use Rattle.ram_table.specs.Contents.{contents, IsInOrder};
ghost use Rattle.db_state.specs.Live.{database, definition_of, table_seen, table_shown, HasKey, is_named};
ghost use Rattle.db_state.specs.Live.{AreInOrder, IsKeyedTable};
ghost use Rattle.db_state.specs.Inside.Sources.{IsArranged};
ghost use Rattle.db_state.specs.Inside.Taking.{arranged_tables, TakesOps};
ghost use Rattle.db_state.specs.Plans.{planned, IsMadeFor};

use crate::applies::all_apply;
use crate::arrangement::{Arrangement, defs_of, rearrange};
use crate::ops::plan_ops;
use crate::parts::apply_parts;
use crate::plan::Plan;
use crate::slots::arrange;
use crate::taking::{is_next, may_take_all, plan_due_ops};
use db_model::{Commit, Defs, Schema, TableDef};
use ram_table::RamTable;
use sqlite_items::at;
use std::alloc::{AllocError, Global};
use std::marker::Model;
use term_core::Atom;

/// The database as it stands. Contracts see the schema, and the table of each definition in the same order.
#[derive(Drop)]
pub struct Live {
    schema: Schema,
    tables: Vec<RamTable>,
}

impl Model for Live {
    ghost use Rattle.std.specs.Prelude.{List, refl};
    ghost use Rattle.std.specs.Coded.{code_by, coded×, coded_list};
    ghost use Rattle.db_model.specs.declared.definition.Schema.{Schema};
    ghost use Rattle.db_model.specs.contracts.definition.Schema as definitions;
    ghost use Rattle.ram_table.specs.Contents.{TableRecords};
    ghost use Rattle.ram_table.specs.contracts.table.RamTable as ram_table;
    ghost use Rattle.db_state.specs.Live.{LiveTables, AreTables};

    ghost Value = { LiveTables };

    ghost coded = { code_by (Schema × List TableRecords)
        (coded× definitions.the_row.coded (coded_list ram_table.the_row.coded))
        (λ l. (l.schema, l.tables)) (λ p. record { schema = p.0; tables = p.1 }) (λ _. refl) };

    ghost view = { λ l. record { schema = l.schema; tables = l.tables.items } };

    ghost invariant = { λ l. AreTables l.schema.tables l.tables.items };
}

impl Live {
    /// The database of version 0, without tables.
    pub fn new(alloc: Global) -> Live
        ensures { database result ≡ record { version = 0; tables = [] } }
    {
        Live {
            schema: Schema {
                version: 0,
                tables: Defs::new(alloc),
            },
            tables: Vec::new(alloc),
        }
    }

    /// The database of this schema, with every table empty.
    pub fn with_schema(alloc: Global, schema: &Schema) -> Result<Live, AllocError>
        requires { All HasKey schema.now.tables }
        ensures { IfOk result (λ live. database live ≡ record {
          version = schema.now.version;
          tables = map empty_table (map definition schema.now.tables);
        }) }
    {
        let mut tables = Vec::new(alloc);
        for def in schema.tables.as_slice() {
            tables.push(RamTable::new(alloc, def.kind))?;
        }
        Ok(Live {
            schema: schema.try_clone(alloc)?,
            tables,
        })
    }

    /// The law of keys: a record that a table can have has a key.
    pub fn key_law(&self)
        ensures { AllByRecursion IsKeyedTable (database self.now).tables }
    {
        let _ = &self.schema;
    }

    /// The law of order: the records of each table are in the order of their keys.
    pub fn order_law(&self)
        ensures { AreInOrder (database self.now).tables }
    {
        order_law_of(self.tables.as_slice());
    }

    /// The definitions of the tables, in their order, and the version.
    pub fn schema(&self) -> &Schema
        ensures version { result.now.version ≡ (database self.now).version }
        ensures tables { map definition result.now.tables ≡ map definition_of (database self.now).tables }
    {
        &self.schema
    }

    /// The definition of the first table of this name.
    pub fn def(&self, name: &Atom) -> Option<&TableDef>
        ensures { option_map definition (option_copied result)
            ≡ option_map definition_of (table_in name.now (database self.now).tables) }
    {
        let place = self.place_of(name)?;
        self.schema.tables.get(place)
    }

    /// The first table of this name.
    pub fn table(&self, name: &Atom) -> Option<&RamTable>
        ensures { option_map table_seen (option_copied result)
            ≡ option_map table_shown (table_in name.now (database self.now).tables) }
    {
        let place = self.place_of(name)?;
        at(self.tables.as_slice(), place)
    }

    /// Plans what the commit does.
    pub fn plan(&self, alloc: Global, commit: &Commit) -> Result<Plan, AllocError>
        requires lawful { IsLawful (commit_record commit.now) (database self.now) }
        ensures made_for { IfOk result (IsMadeFor self.now) }
        ensures planned { IfOk result (λ plan.
            planned self.now plan ≡ do_commit (commit_record commit.now) (database self.now)) }
    {
        let arrangement = arrange(alloc, self.schema.tables.as_slice(), &commit.schema_ops)?;
        let defs = defs_of(&self.schema.tables, &arrangement);
        let parts = plan_ops(
            alloc,
            defs,
            self.tables.as_slice(),
            &arrangement,
            &commit.ops,
        )?;
        Ok(Plan {
            version: commit.version,
            arrangement,
            parts,
        })
    }

    /// Plans what a start takes of the commit. There is no plan where it cannot take it.
    pub fn plan_taken(&self, alloc: Global, commit: &Commit) -> Result<Option<Plan>, AllocError>
        ensures { IfOk result (λ found. MatchOption found
            (Takes (commit_record commit.now) (database self.now) None)
            (λ plan. IsMadeFor self.now plan
            × Takes (commit_record commit.now) (database self.now) (Some (planned self.now plan)))) }
    {
        if !is_next(self.schema.version, commit.version) {
            return self.plan_taken_ops(alloc, self.schema.version, None, commit);
        }
        if !all_apply(alloc, self.schema.tables.as_slice(), &commit.schema_ops)? {
            return Ok(None);
        }
        let arrangement = arrange(alloc, self.schema.tables.as_slice(), &commit.schema_ops)?;
        self.plan_taken_ops(alloc, commit.version, arrangement, commit)
    }

    /// Plans what a start takes of the commit's ops in this arrangement, to leave this version.
    fn plan_taken_ops(
        &self,
        alloc: Global,
        version: u64,
        arrangement: Option<Arrangement>,
        commit: &Commit,
    ) -> Result<Option<Plan>, AllocError>
        requires { IsArranged self.now.tables arrangement }
        ensures { IfOk result (λ found. MatchOption found
            (All (MayTakeOp commit.now.version (arranged_tables self.now arrangement))
            (map operation commit.now.ops) → ⊥)
            (TakesOps self.now (commit_record commit.now) version (arranged_tables self.now arrangement))) }
    {
        let defs = defs_of(&self.schema.tables, &arrangement);
        if !may_take_all(defs, commit.version, &commit.ops) {
            return Ok(None);
        }
        let tables = self.tables.as_slice();
        let parts = plan_due_ops(
            alloc,
            defs,
            tables,
            &arrangement,
            commit.version,
            &commit.ops,
        )?;
        Ok(Some(Plan {
            version,
            arrangement,
            parts,
        }))
    }

    /// Does what was planned for this database. Takes no memory.
    pub fn apply(&mut self, plan: Plan)
        requires { IsMadeFor self.old plan }
        ensures { database self.new ≡ planned self.old plan }
    {
        let Plan {
            version,
            arrangement,
            parts,
        } = plan;
        self.schema.version = version;
        rearrange(&mut self.schema.tables, &mut self.tables, arrangement);
        apply_parts(&mut self.tables, parts);
    }

    /// The place of the first table of this name.
    fn place_of(&self, name: &Atom) -> Option<usize>
        ensures { result ≡ position_from (is_named name.now) 0 self.now.schema.tables }
    {
        place_in(self.schema.tables.as_slice(), name)
    }
}

/// The same law of these tables.
fn order_law_of(tables: &[RamTable])
    ensures { AllByRecursion (λ table. IsInOrder (contents table)) tables.now }
{
    for table in tables {
        table.order_law();
    }
}

/// The place of the first definition of this name.
fn place_in(defs: &[TableDef], name: &Atom) -> Option<usize>
    ensures { result ≡ position_from (is_named name.now) 0 defs.now }
{
    for (i, def) in defs.iter().enumerate() {
        if *name == def.name {
            return Some(i);
        }
    }
    None
}
