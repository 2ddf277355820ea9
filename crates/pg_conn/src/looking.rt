//! What is looked up before a statement is described, and behind that.
ghost use Rattle.std.specs.Prelude.{◌≡◌, ◌≢◌, ◌⊎◌, [], Some, None, false, not, is_some, ◌&&◌, option_map, unwrap_or, IsSome, IfOk, IfErr, OnOk, OnErr};
ghost use Rattle.pg_rule.specs.Caches.{entry_at};
ghost use Rattle.pg_call.specs.Hearing.{asked_in, without_asked};
ghost use Rattle.pg_call.specs.Requests.{CanBeSaid, IsRefusal, declared_for, filled_bound, filled_for, numbered_by};
ghost use Rattle.pg_call.specs.declared.statement.Extended.{Extended as ExtendedOf};
ghost use Rattle.pg_request.specs.Asked.{declared_names};
ghost use Rattle.pg_call.specs.declared.request.Request as request;
ghost use Rattle.pg_learning.specs.Learning.{FailsSeeking, Seeks};
ghost use Rattle.pg_learning.specs.Naming.{oids_under, unknown_name};
ghost use Rattle.pg_learning.specs.Telling.{learnt_columns};
ghost use Rattle.pg_conn.specs.Connections.{ConnOf, cleaned};
ghost use Rattle.pg_conn.specs.Looking.{AsksFirst, AsksNext, FailsFirst, IsUnlooked, IsUnlookedFor, LooksFor, LooksIn, LooksInto, LooksNamed, LooksBehind, LooksUp, MayLook, MayLookFor, MissesName, asks_by, asks_names, asks_query, begun_by, begun_for, columns_told, has_names, holes_for, is_kept, lookup_for, telling, unlooked, wanted_by, wants_names};

use crate::statement::columns_told;
use crate::{PgConnection, Request};
use pg_call::{Bound, Call, Described, Extended, Filling, Goal, Keeping, Lookup, Prepared};
use pg_columns::PgColumns;
use pg_request::{Arguments, Declared, Query, declared_names};
use pg_rule::Rule;
use pg_wire::{Error, Text};
use std::alloc::AllocError;

// Whether the names of columns are told.
fn wants_names(goal: Goal) -> bool
    ensures { result ≡ wants_names goal }
{
    matches!(goal, Goal::Prepare)
}

// What is run has these types by name alone, which are within its arguments.
fn holes_for(goal: Goal, arguments: &Arguments) -> &[Declared]
    ensures { result.now ≡ holes_for goal arguments.now }
{
    match goal {
        Goal::Run(_) => arguments.holes(),
        Goal::Prepare => &[],
    }
}

// The lookup for a statement by this text.
fn lookup(extended: Extended, text: Text) -> Request
    ensures { result ≡ lookup_for (Request.Describe extended) text }
{
    Request::Look(Lookup {
        text,
        extended: extended.looked_up(),
    })
}

// Whether there are any.
fn has_names(names: &[Declared]) -> bool
    ensures { result ≡ has_names names.now }
{
    match names {
        [] => false,
        [_, ..] => true,
    }
}

// Whether a query has types that are known by their names alone: its statement, or its arguments where a statement of its text is kept.
fn query_names(rule: &Rule, query: &Query) -> bool
    ensures { result ≡ asks_query query.now.arguments (entry_at query.now.sql rule.now.cache.entries) }
{
    match rule.cache.get(query.sql()) {
        Some(_) => has_names(query.holes()),
        None => has_names(query.names()),
    }
}

// The same of what is run.
fn run_names(bound: &Bound) -> bool
    ensures { result ≡ is_kept bound.now.keeping && has_names bound.now.arguments.holes }
{
    matches!(bound.keeping, Keeping::Hits(_)) && has_names(bound.arguments.holes())
}

// The same of a statement to prepare that isn't described yet.
fn prepare_names(rule: &Rule, prepared: &Prepared) -> bool
    ensures { result ≡ has_names (declared_names (declared_for prepared.now)) && (not (is_some prepared.now.columns) && not (is_some (entry_at prepared.now.sql rule.now.cache.entries))) }
{
    has_names(declared_names(prepared.declared()))
        && prepared.columns.is_none()
        && rule.cache.get(prepared.sql.as_str()).is_none()
}

// The same of anything that is asked first.
fn asks_names(rule: &Rule, request: &Request) -> bool
    ensures { result ≡ asks_names rule.now request.now }
{
    match request {
        Request::Execute(query)
        | Request::ExecuteMany(query)
        | Request::Fetch(query)
        | Request::FetchMany(query)
        | Request::FetchAll(query)
        | Request::FetchOptional(query)
        | Request::FetchOne(query) => query_names(rule, query),
        Request::Describe(extended) => {
            has_names(extended.arguments.names()) && extended.described.is_none()
        }
        Request::Prepare(prepared) => prepare_names(rule, prepared),
        Request::Run(bound) => run_names(bound),
        _ => false,
    }
}

impl<L> PgConnection<L> {
    // Behind the description itself, lookups begin.
    fn begin_lookups(&mut self, extended: &Extended, described: &Described) -> Result<(), Error>
        ensures ok { OnOk result (self.new ≡ record self.old { learnt = begun_for extended.now described.now self.old.learnt }) }
        ensures err { IfErr result (λ e. (e ≡ Error.OutOfMemory) × (self.new ≡ self.old)) }
    {
        if extended.is_looked_up {
            return Ok(());
        }
        let parameters = described.parameters.as_slice();
        self.learnt
            .begin(self.alloc, parameters, columns_told(&described.columns))
    }

    // The text of the next lookup for a statement that was described.
    fn seek(&mut self, extended: &Extended, described: &Described) -> Result<Option<Text>, Error>
        ensures ok { IfOk result (λ text. (self.new ≡ record self.old { learnt = self.new.learnt }) × Seeks (columns_told described.now.columns) (wants_names extended.now.goal) (begun_for extended.now described.now self.old.learnt) text self.new.learnt) }
        ensures kept { (self.new.learnt.types ≡ self.old.learnt.types) × (self.new.learnt.tables ≡ self.old.learnt.tables) }
        ensures err { IfErr result (λ e. (self.new ≡ record self.old { learnt = self.new.learnt }) × ((e ≡ Error.OutOfMemory) ⊎ FailsSeeking self.new.learnt.seeking e)) }
    {
        self.begin_lookups(extended, described)?;
        let names = wants_names(extended.goal);
        self.learnt
            .seek(self.alloc, columns_told(&described.columns), names)
    }

    // Where nothing was looked up for them yet, lookups begin for types that are known by their names alone.
    fn begin_named(&mut self, is_looked_up: bool, names: &[Declared]) -> Result<(), Error>
        ensures ok { OnOk result (self.new ≡ record self.old { learnt = begun_by is_looked_up names.now self.old.learnt }) }
        ensures err { IfErr result (λ e. (e ≡ Error.OutOfMemory) × (self.new ≡ self.old)) }
    {
        if is_looked_up {
            return Ok(());
        }
        self.learnt.begin_names(self.alloc, names)
    }

    // The text of the next lookup for them.
    fn seek_named(&mut self, is_looked_up: bool, names: &[Declared]) -> Result<Option<Text>, Error>
        ensures ok { IfOk result (λ text. (self.new ≡ record self.old { learnt = self.new.learnt }) × Seeks [] false (begun_by is_looked_up names.now self.old.learnt) text self.new.learnt) }
        ensures kept { (self.new.learnt.types ≡ self.old.learnt.types) × (self.new.learnt.tables ≡ self.old.learnt.tables) }
        ensures err { IfErr result (λ e. (self.new ≡ record self.old { learnt = self.new.learnt }) × ((e ≡ Error.OutOfMemory) ⊎ FailsSeeking self.new.learnt.seeking e)) }
    {
        self.begin_named(is_looked_up, names)?;
        self.learnt.seek(self.alloc, &[], false)
    }

    // The statement with the OIDs of its types, where each is known.
    fn numbered(&self, extended: Extended) -> Result<Request, Error>
        ensures ok { IfOk result (λ next. (unknown_name self.now.learnt.types extended.arguments.names ≡ None) × (next ≡ Request.Describe (numbered_by (oids_under self.now.learnt.types extended.arguments.names) extended))) }
        ensures err { IfErr result (MissesName extended.arguments.names self.now.learnt) }
    {
        let oids = self.learnt.oids(self.alloc, extended.arguments.names())?;
        Ok(Request::Describe(extended.numbered(self.alloc, oids)))
    }

    // The statement with the OIDs that are open within the arguments with which it is run.
    fn filled(&self, extended: Extended) -> Result<Request, Error>
        ensures ok { IfOk result (λ next. (unknown_name self.now.learnt.types (holes_for extended.goal extended.arguments) ≡ None) × (next ≡ Request.Describe (filled_for (oids_under self.now.learnt.types (holes_for extended.goal extended.arguments)) extended))) }
        ensures err { IfErr result (MissesName (holes_for extended.goal extended.arguments) self.now.learnt) }
    {
        let holes = holes_for(extended.goal, &extended.arguments);
        let oids = self.learnt.oids(self.alloc, holes)?;
        let filled = extended.filled(self.alloc, oids.as_slice())?;
        Ok(Request::Describe(filled))
    }

    // The same of what is run.
    fn filled_bound(&self, bound: Bound) -> Result<Request, Error>
        ensures ok { IfOk result (λ next. (unknown_name self.now.learnt.types bound.arguments.holes ≡ None) × (next ≡ Request.Run (filled_bound (oids_under self.now.learnt.types bound.arguments.holes) bound))) }
        ensures err { IfErr result (MissesName bound.arguments.holes self.now.learnt) }
    {
        let oids = self.learnt.oids(self.alloc, bound.arguments.holes())?;
        let filled = bound.filled(self.alloc, oids.as_slice())?;
        Ok(Request::Run(filled))
    }

    // What is asked of a statement whose types are known by their names alone.
    fn look_for_names(&mut self, extended: Extended) -> Result<Request, Error>
        ensures ok { IfOk result (λ next. (self.new ≡ record self.old { learnt = self.new.learnt }) × LooksNamed extended.is_looked_up extended.arguments.names (lookup_for (Request.Describe extended)) (λ oids. Request.Describe (numbered_by oids extended)) self.old.learnt next self.new.learnt) }
        ensures err { IfErr result (IsUnlookedFor extended.arguments.names self.old self.new) }
    {
        match self.seek_named(extended.is_looked_up, extended.arguments.names())? {
            Some(text) => Ok(lookup(extended, text)),
            None => {
                let next = self.numbered(extended)?;
                Ok(next)
            }
        }
    }

    // What is asked of a statement that isn't described yet.
    fn look_for_undescribed(&mut self, extended: Extended) -> Result<Request, Error>
        ensures ok { IfOk result (λ next. (self.new ≡ record self.old { learnt = self.new.learnt }) × LooksFor extended None self.old.learnt next self.new.learnt) }
        ensures err { IfErr result (λ e. IsUnlookedFor extended.arguments.names self.old self.new e × (extended.arguments.names ≢ [])) }
    {
        if !has_names(extended.arguments.names()) {
            return Ok(Request::Describe(extended));
        }
        let next = self.look_for_names(extended)?;
        Ok(next)
    }

    // What is asked of a statement that is run with types within its arguments.
    fn look_for_holes(&mut self, extended: Extended) -> Result<Request, Error>
        ensures ok { IfOk result (λ next. (self.new ≡ record self.old { learnt = self.new.learnt }) × LooksNamed false (holes_for extended.goal extended.arguments) (λ text. Request.Describe (record extended { filling = Some text })) (λ oids. Request.Describe (filled_for oids extended)) self.old.learnt next self.new.learnt) }
        ensures err { IfErr result (IsUnlookedFor (holes_for extended.goal extended.arguments) self.old self.new) }
    {
        match self.seek_named(false, holes_for(extended.goal, &extended.arguments))? {
            Some(text) => Ok(Request::Describe(extended.filling(text))),
            None => {
                let next = self.filled(extended)?;
                Ok(next)
            }
        }
    }

    // What is asked of a statement that was described, by what it is run with.
    fn look_into(&mut self, extended: Extended) -> Result<Request, Error>
        ensures ok { IfOk result (λ next. (self.new ≡ record self.old { learnt = self.new.learnt }) × LooksInto extended self.old.learnt next self.new.learnt) }
        ensures err { IfErr result (IsUnlookedFor (holes_for extended.goal extended.arguments) self.old self.new) }
    {
        if !has_names(holes_for(extended.goal, &extended.arguments)) {
            return Ok(Request::Describe(extended));
        }
        let next = self.look_for_holes(extended)?;
        Ok(next)
    }

    // The columns that were described, with what was looked up of them.
    fn learnt_columns(&self, columns: &Option<PgColumns>) -> Result<Option<PgColumns>, AllocError>
        ensures { IfOk result (λ told. told ≡ option_map (learnt_columns self.now.learnt) columns.now) }
    {
        match columns {
            Some(columns) => {
                let told = self.learnt.columns(self.alloc, columns.as_slice())?;
                Ok(Some(PgColumns::of(self.alloc, told)?))
            }
            None => Ok(None),
        }
    }

    // A statement whose columns tell what was looked up of them. Only want of memory refuses it.
    #[tactic(auto, using(crate::proofs::FirstLaws::told_some, crate::proofs::FirstLaws::told_none))]
    fn told(&self, extended: Extended) -> Result<Extended, Error>
        ensures told { IfOk result (λ x. x ≡ telling self.now.learnt extended) }
        ensures memory { IfErr result (λ e. e ≡ Error.OutOfMemory) }
    {
        let Some(described) = &extended.described else {
            return Ok(extended);
        };
        let columns = self.learnt_columns(&described.columns)?;
        Ok(extended.with_columns(columns))
    }

    // What is asked of a statement that was described, behind the lookups for that.
    fn look_behind(&mut self, extended: Extended) -> Result<Request, Error>
        ensures ok { IfOk result (λ next. (self.new ≡ record self.old { learnt = self.new.learnt }) × LooksBehind extended None self.old.learnt next self.new.learnt) }
        ensures err { IfErr result (IsUnlookedFor (holes_for extended.goal extended.arguments) self.old self.new) }
    {
        let told = self.told(extended)?;
        self.look_into(told)
    }

    // What is asked where an exchange has handed this on, or a call begins by it.
    fn look_for(&mut self, extended: Extended) -> Result<Request, Error>
        ensures ok { IfOk result (λ next. (self.new ≡ record self.old { learnt = self.new.learnt }) × LooksFor extended extended.described self.old.learnt next self.new.learnt) }
        ensures err { IfErr result (λ e. IsUnlookedFor (wanted_by extended extended.described) self.old self.new e × MayLookFor extended extended.described) }
    {
        let Some(described) = &extended.described else {
            return self.look_for_undescribed(extended);
        };
        match self.seek(&extended, described)? {
            Some(text) => Ok(lookup(extended, text)),
            None => self.look_behind(extended),
        }
    }

    // What is asked of what is run with types within its arguments.
    fn look_for_run(&mut self, bound: Bound) -> Result<Request, Error>
        ensures ok { IfOk result (λ next. (self.new ≡ record self.old { learnt = self.new.learnt }) × LooksNamed bound.is_looked_up bound.arguments.holes (lookup_for (Request.Run bound)) (λ oids. Request.Run (filled_bound oids bound)) self.old.learnt next self.new.learnt) }
        ensures err { IfErr result (IsUnlookedFor bound.arguments.holes self.old self.new) }
    {
        match self.seek_named(bound.is_looked_up, bound.arguments.holes())? {
            Some(text) => Ok(Request::Fill(Filling { text, bound })),
            None => {
                let next = self.filled_bound(bound)?;
                Ok(next)
            }
        }
    }

    // What is asked of what is run.
    fn look_for_bound(&mut self, bound: Bound) -> Result<Request, Error>
        ensures ok { IfOk result (λ next. (self.new ≡ record self.old { learnt = self.new.learnt }) × LooksIn (Request.Run bound) self.old.learnt next self.new.learnt) }
        ensures err { IfErr result (λ e. IsUnlookedFor bound.arguments.holes self.old self.new e × (bound.arguments.holes ≢ [])) }
    {
        if !has_names(bound.arguments.holes()) {
            return Ok(Request::Run(bound));
        }
        let next = self.look_for_run(bound)?;
        Ok(next)
    }

    // What is asked of what describes no statement.
    fn look_up_run(&mut self, told: Request) -> Result<Request, Error>
        requires { (x : ExtendedOf) → told ≡ Request.Describe x → ⊥ }
        ensures ok { IfOk result (λ next. (self.new ≡ record self.old { learnt = self.new.learnt }) × LooksIn told self.old.learnt next self.new.learnt) }
        ensures err { IfErr result (λ e. IsUnlooked told self.old self.new e × MayLook told) }
    {
        match told.into_bound() {
            Ok(bound) => self.look_for_bound(bound),
            Err(told) => Ok(told),
        }
    }

    // The same of anything.
    fn look_up(&mut self, told: Request) -> Result<Request, Error>
        ensures ok { IfOk result (λ next. (self.new ≡ record self.old { learnt = self.new.learnt }) × LooksUp told self.old.learnt next self.new.learnt) }
        ensures err { IfErr result (λ e. IsUnlooked told self.old self.new e × MayLook told) }
    {
        match told.into_extended() {
            Ok(extended) => self.look_for(extended),
            Err(told) => self.look_up_run(told),
        }
    }

    // A lookup isn't asked, and the call is over.
    fn end_lookups(&mut self)
        ensures { self.new ≡ unlooked self.old }
    {
        self.earlier = self.earlier.saturating_add(self.groups);
        self.groups = 0;
        self.forget();
    }

    /// What is asked next stands where an exchange has handed this on. An `Err` is a lookup that can't be asked, and then the call is over.
    pub(crate) fn hand_on(&mut self, told: Request) -> Result<(), Error>
        ensures ok { OnOk result ((next : request.Request) × AsksNext told self.old next self.new) }
        ensures err { IfErr result (λ e. MayLook told × ((m : ConnOf L) × IsUnlooked told self.old m e × (self.new ≡ unlooked m))) }
    {
        match self.look_up(told) {
            Ok(next) => {
                self.ask_next(next);
                Ok(())
            }
            Err(e) => {
                self.end_lookups();
                Err(e)
            }
        }
    }

    // Whether what is asked first has types that are known by their names alone.
    fn asks_names(&self) -> bool
        ensures { result ≡ asks_by self.now.rule self.now.call }
    {
        match &self.running.call {
            Call::Asked(request) => asks_names(&self.rule, request),
            Call::Idle | Call::Waiting(_) | Call::Own(_) | Call::Closing => false,
        }
    }

    // What is asked, which is taken out where it was not begun yet.
    fn take_asked(&mut self) -> Option<Request>
        ensures asked { result ≡ asked_in self.old.call }
        ensures now { self.new ≡ record self.old { call = without_asked self.old.call } }
    {
        self.running.take_asked()
    }

    // A statement that a call begins by is asked as if it had been handed on, once frames can say it.
    fn ask_first(&mut self, told: Request) -> Result<(), Error>
        ensures ok { OnOk result (CanBeSaid told × ((next : request.Request) × AsksNext told self.old next self.new)) }
        ensures err { IfErr result (λ e. (IsRefusal told e × (self.new ≡ cleaned self.old)) ⊎ (CanBeSaid told × MayLook told × ((m : ConnOf L) × IsUnlooked told self.old m e × (self.new ≡ unlooked m)))) }
    {
        match told.encode(self.alloc) {
            Ok(frames) => {
                drop(frames);
                self.hand_on(told)
            }
            Err(e) => {
                self.clean();
                Err(e)
            }
        }
    }

    /// Where a call begins by a statement whose types are known by their names alone, that is asked as if it had been handed on. An `Err` is want of memory,
    /// a statement that no frame can say, or a lookup that can't be asked, and then the call is over.
    pub(crate) fn look_first(&mut self) -> Result<(), Error>
        ensures ok { OnOk result (AsksFirst self.old self.new) }
        ensures err { IfErr result (FailsFirst self.old self.new) }
    {
        if !self.asks_names() {
            return Ok(());
        }
        self.resolve()?;
        match self.take_asked() {
            Some(told) => self.ask_first(told),
            None => Ok(()),
        }
    }
}
