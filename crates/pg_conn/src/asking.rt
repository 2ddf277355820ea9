//! Which exchange is asked, by the statements that are kept.
ghost use Rattle.std.specs.Prelude.{◌≡◌, ◌≢◌, ◌+◌, ◌-◌, ◌^◌, min, Some, None, map, reverse, option_map, true, IfOk, IfErr, IsSome, OnOk, OnErr};
ghost use Rattle.pg_rule.specs.Rules.{holding, forgotten};
ghost use Rattle.pg_call.specs.declared.statement.Described.{Described as DescribedOf};
ghost use Rattle.pg_rule.specs.Caches.{entry_at};
ghost use Rattle.pg_conn.specs.Statements.{asked_by, describe, entry_of, held_by, held_behind, behind_description, is_named, by_leaving, leaving, prepare_by, query_by, run_or_describe, unmoved};
ghost use Rattle.pg_call.specs.Requests.{declared_for, keeping_of, raw};
ghost use Rattle.pg_request.specs.Asked.{declared_arguments};
ghost use Rattle.pg_conn.specs.Connections.{resolved, resolved_by, unasked, IsUnresolved};

use crate::{PgConnection, Request};
use pg_call::{Bound, Call, Described, Eviction, Extended, Goal, How, Keeping, Prepared, Sort};
use pg_columns::{PgColumns, share_known};
use pg_request::{Arguments, Query};
use pg_rule::{Entry, Rule};
use pg_wire::{Error, Sequence, StatementId, Text};
use std::alloc::Global;

// Whether a statement that is described now gets a name.
fn is_named(rule: &Rule, persistent: bool) -> bool
    ensures { result ≡ is_named persistent rule.now }
{
    persistent && rule.capacity != 0
}

// A statement that is not kept, to be described.
fn describe(rule: &Rule, goal: Goal, sql: Text, arguments: Arguments, persistent: bool) -> Request
    ensures { result ≡ describe goal sql arguments persistent rule.now }
{
    let named = is_named(rule, persistent);
    let number = if named {
        rule.number().unwrap_or(u32::MAX)
    } else {
        0
    };
    let is_numbered = !named || rule.number().is_some();
    Request::Describe(Extended {
        goal,
        statement: StatementId::from_number(number),
        is_numbered,
        sql,
        arguments,
        described: None,
        is_looked_up: false,
        filling: None,
    })
}

// A query with arguments: where a statement of its text is kept, that one is run.
fn run_or_describe(
    rule: &Rule,
    how: How,
    sql: Text,
    arguments: Arguments,
    persistent: bool,
) -> Result<Request, Error>
    ensures ok { IfOk result (λ r. r ≡ run_or_describe rule.now how sql arguments persistent (entry_at sql rule.now.cache.entries)) }
    ensures memory { IfErr result (λ e. e ≡ Error.OutOfMemory) }
{
    match rule.cache.get(sql.as_str()) {
        Some(entry) => {
            let columns = entry.columns.share()?;
            Ok(Request::Run(Bound {
                how,
                statement: entry.statement,
                again: None,
                arguments,
                columns: Some(columns),
                is_looked_up: false,
                keeping: Keeping::Hits(entry.statement.number()),
            }))
        }
        None => Ok(describe(rule, Goal::Run(how), sql, arguments, persistent)),
    }
}

// A query, by its arguments.
fn query_by(rule: &Rule, how: How, query: Query) -> Result<Request, Error>
    ensures ok { IfOk result (λ r. r ≡ query_by rule.now how query query.arguments (raw how query)) }
    ensures memory { IfErr result (λ e. e ≡ Error.OutOfMemory) }
{
    let persistent = query.is_persistent();
    match query.into_extended() {
        Ok((sql, arguments)) => run_or_describe(rule, how, sql, arguments, persistent),
        Err(query) => Ok(Request::raw(how, query)),
    }
}

// A statement that is kept, as it was described.
fn tell(alloc: Global, prepared: Prepared, entry: &Entry) -> Result<Request, Error>
    ensures ok { IfOk result (λ r. r ≡ Request.Prepare (record { sql = prepared.sql; parameters = entry.now.parameters; columns = Some entry.now.columns; keeping = Keeping.Hits entry.now.statement; declared = prepared.declared })) }
    ensures memory { IfErr result (λ e. e ≡ Error.OutOfMemory) }
{
    let parameters = entry.parameters.to_copy(alloc)?;
    let columns = entry.columns.share()?;
    let (sql, declared) = prepared.into_declared();
    Ok(Request::Prepare(Prepared {
        sql,
        parameters,
        columns: Some(columns),
        keeping: Keeping::Hits(entry.statement.number()),
        declared,
    }))
}

// One that is not kept, with the types that its caller declares.
fn describe_declared(alloc: Global, rule: &Rule, prepared: Prepared) -> Result<Request, Error>
    ensures ok { IfOk result (λ r. r ≡ describe Goal.Prepare prepared.sql (declared_arguments (declared_for prepared)) true rule.now) }
    ensures memory { IfErr result (λ e. e ≡ Error.OutOfMemory) }
{
    let arguments = Arguments::declared(alloc, prepared.declared())?;
    let (sql, _) = prepared.into_parts();
    Ok(describe(rule, Goal::Prepare, sql, arguments, true))
}

// A statement to prepare: where one of its text is kept, that one is told.
fn prepare_by(alloc: Global, rule: &Rule, prepared: Prepared) -> Result<Request, Error>
    ensures ok { IfOk result (λ r. r ≡ prepare_by rule.now prepared prepared.columns) }
    ensures err { IfErr result (λ e. (e ≡ Error.OutOfMemory) × (prepared.columns ≡ None)) }
{
    if prepared.columns.is_some() {
        return Ok(Request::Prepare(prepared));
    }
    match rule.cache.get(prepared.sql.as_str()) {
        Some(entry) => tell(alloc, prepared, entry),
        None => describe_declared(alloc, rule, prepared),
    }
}

// What was described, to be kept.
fn entry_of(alloc: Global, extended: &Extended, described: &Described) -> Result<Entry, Error>
    ensures ok { IfOk result (λ e. e ≡ entry_of extended.now described.now) }
    ensures memory { IfErr result (λ e. e ≡ Error.OutOfMemory) }
{
    let sql = extended.sql.to_copy(alloc)?;
    let parameters = described.parameters.to_copy(alloc)?;
    let columns = share_known(&described.columns)?;
    Ok(Entry {
        sql,
        statement: extended.statement,
        parameters,
        columns: columns.unwrap_or_else(PgColumns::none),
    })
}

// Holds what was described, where it has a name. Without memory nothing is held.
fn hold(
    alloc: Global,
    rule: &mut Rule,
    extended: &Extended,
    described: &Described,
) -> Result<(), Error>
    ensures ok { OnOk result (rule.new ≡ holding (entry_of extended.now described.now) rule.old) }
    ensures err { IfErr result (λ e. (e ≡ Error.OutOfMemory) × (rule.new ≡ forgotten rule.old)) }
{
    let entry = entry_of(alloc, extended, described);
    match entry {
        Ok(entry) => hold_entry(rule, entry),
        Err(e) => {
            rule.forget();
            Err(e)
        }
    }
}

// The same of what was made to be held.
fn hold_entry(rule: &mut Rule, entry: Entry) -> Result<(), Error>
    ensures ok { OnOk result (rule.new ≡ holding entry rule.old) }
    ensures err { IfErr result (λ e. (e ≡ Error.OutOfMemory) × (rule.new ≡ forgotten rule.old)) }
{
    match rule.hold(entry) {
        Ok(()) => Ok(()),
        Err(_) => {
            rule.forget();
            Err(Error::OutOfMemory)
        }
    }
}

// The statement that was used longest ago, where as many are kept as may be.
fn leaving(rule: &Rule) -> Option<StatementId>
    ensures { result ≡ option_map (λ e. e.statement) (leaving rule.now) }
{
    if rule.is_full() {
        rule.cache.last().map(|entry| entry.statement)
    } else {
        None
    }
}

// What comes behind a description of a statement with a name: another one is closed first, where one leaves.
fn put_or_evict(extended: Extended, leaving: Option<StatementId>) -> Request
    requires { IsSome extended.described }
    ensures { (d : DescribedOf) → extended.described ≡ Some d → result ≡ by_leaving extended d leaving }
{
    match leaving {
        Some(statement) => {
            let after = extended.into_after(Keeping::Stays);
            Request::Evict(Eviction { statement, after })
        }
        None => extended.into_after(Keeping::Puts).request(),
    }
}

// What comes behind a description.
fn behind_described(rule: &Rule, extended: Extended) -> Request
    requires { IsSome extended.described }
    ensures { result ≡ behind_description rule.now extended extended.described }
{
    if extended.statement.number() == 0 {
        extended.into_after(Keeping::Stays).request()
    } else {
        put_or_evict(extended, leaving(rule))
    }
}

// A statement that is to be described, or was.
fn describe_on(alloc: Global, rule: &mut Rule, extended: Extended) -> Result<Request, Error>
    ensures ok { IfOk result (λ r. (r ≡ behind_description rule.old extended extended.described) × (rule.new ≡ held_behind rule.old extended extended.described)) }
    ensures err { IfErr result (λ e. (e ≡ Error.OutOfMemory) × (rule.new ≡ unmoved (keeping_of (behind_description rule.old extended extended.described)) (held_behind rule.old extended extended.described))) }
{
    let Some(described) = &extended.described else {
        return Ok(Request::Describe(extended));
    };
    if extended.statement.number() != 0 {
        hold(alloc, rule, &extended, described)?;
    }
    Ok(behind_described(rule, extended))
}

// All statements that are kept, the one that was used longest ago first.
fn kept(alloc: Global, rule: &Rule) -> Result<Sequence<StatementId>, Error>
    ensures ok { IfOk result (λ s. s ≡ map (λ e. e.statement) (reverse rule.now.cache.entries)) }
    ensures memory { IfErr result (λ e. e ≡ Error.OutOfMemory) }
{
    let entries = rule.cache.as_slice();
    let statements = entries
        .iter()
        .rev()
        .map(|entry| entry.statement)
        .collect(alloc)?;
    Ok(Sequence::from_vec(statements))
}

/// The exchange that a request is. An `Err` is want of memory, and leaves of the statements what an exchange leaves that has done nothing.
pub(crate) fn asked_by(alloc: Global, rule: &mut Rule, request: Request) -> Result<Request, Error>
    ensures ok { IfOk result (λ r. (r ≡ asked_by rule.old request) × (rule.new ≡ held_by rule.old request)) }
    ensures err { IfErr result (λ e. (e ≡ Error.OutOfMemory) × (rule.new ≡ unmoved (keeping_of (asked_by rule.old request)) (held_by rule.old request))) }
    ensures wants { OnErr result (request ≢ Request.Flush) }
{
    match request.sort() {
        Sort::Query(how, query) => query_by(rule, how, query),
        Sort::Describe(extended) => describe_on(alloc, rule, extended),
        Sort::Prepare(prepared) => prepare_by(alloc, rule, prepared),
        Sort::Clear => Ok(Request::Clear(kept(alloc, rule)?)),
        Sort::Plain(request) => Ok(request),
    }
}

impl<L> PgConnection<L> {
    // The groups of an exchange are counted anew.
    fn count_exchange(&mut self)
        ensures { self.new ≡ record self.old { groups = 0; earlier = min (self.old.earlier + self.old.groups) (2 ^ 64 - 1) } }
    {
        self.earlier = self.earlier.saturating_add(self.groups);
        self.groups = 0;
    }

    // The exchange that is asked begins, and its groups are counted anew.
    fn begin_exchange(&mut self, request: Request) -> Result<(), Error>
        ensures ok { OnOk result (self.new ≡ resolved_by (Call.Asked request) self.old) }
        ensures err { IfErr result (λ e. (e ≡ Error.OutOfMemory) × (self.new ≡ unasked request self.old) × (request ≢ Request.Flush)) }
    {
        self.count_exchange();
        match asked_by(self.alloc, &mut self.rule, request) {
            Ok(request) => {
                self.keeping = request.keeping();
                self.turn_to(Call::Asked(request));
                Ok(())
            }
            Err(e) => {
                self.forget();
                Err(e)
            }
        }
    }

    // What is asked stands as an exchange, whatever it is.
    fn resolve_asked(&mut self) -> Result<(), Error>
        ensures ok { OnOk result (self.new ≡ resolved self.old) }
        ensures err { IfErr result (λ e. (e ≡ Error.OutOfMemory) × IsUnresolved self.old self.new) }
    {
        match self.running.take_asked() {
            Some(request) => self.begin_exchange(request),
            None => Ok(()),
        }
    }

    /// What is asked stands as an exchange. Without memory the call is over. A query without arguments is one as it is, and isn't moved.
    pub(crate) fn resolve(&mut self) -> Result<(), Error>
        ensures ok { OnOk result (self.new ≡ resolved self.old) }
        ensures err { IfErr result (λ e. (e ≡ Error.OutOfMemory) × IsUnresolved self.old self.new) }
    {
        match &self.running.call {
            Call::Asked(request) if request.is_raw() => {
                self.count_exchange();
                self.keeping = Keeping::Stays;
                Ok(())
            }
            Call::Asked(_) => self.resolve_asked(),
            Call::Idle | Call::Waiting(_) | Call::Own(_) | Call::Closing => Ok(()),
        }
    }
}
