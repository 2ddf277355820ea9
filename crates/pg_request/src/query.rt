ghost use Rattle.std.specs.Prelude.{◌≡◌, is_some, IfOk, IfErr};
ghost use Rattle.pg_request.specs.Queries.{extended, holes_by, names_by, plain_text, QueryText};
ghost use Rattle.pg_request.specs.Asked.{sent_as, no_arguments, kept_query, AsksWith};

use crate::{Arguments, Declared};
use pg_arguments::PgArguments;
use pg_wire::{Error, Text};
use std::alloc::Global;
use std::marker::Model;

/// A text of SQL to run, which the query owns, perhaps with arguments.
#[derive(Debug)]
pub struct Query {
    sql: Text,
    arguments: Option<Arguments>,
    is_persistent: bool,
}

// By hand, so that whoever lets one go makes one call, and doesn't go through its parts.
impl Drop for Query {
    fn drop(self) {
        let Query {
            sql: _,
            arguments: _,
            is_persistent: _,
        } = self;
    }
}

impl Model for Query {
    ghost use Rattle.pg_request.specs.Queries.{QueryText};

    ghost Value = { QueryText };

    ghost view = { λ q. record { sql = q.sql; arguments = q.arguments; persistent = q.is_persistent } };
}

// Arguments in a list of their own, where there are any.
fn copied(arguments: &Option<Arguments>, alloc: Global) -> Result<Option<Arguments>, Error>
    ensures copy { IfOk result (λ a. a ≡ arguments.now) }
    ensures memory { IfErr result (λ e. e ≡ Error.OutOfMemory) }
{
    match arguments {
        Some(arguments) => Ok(Some(arguments.to_copy(alloc)?)),
        None => Ok(None),
    }
}

impl Query {
    /// A simple query without arguments: the text may hold several statements. Only want of memory refuses it.
    /// (PostgreSQL manual, "Message Flow", "Simple Query".)
    pub fn raw(alloc: Global, sql: &str) -> Result<Self, Error>
        ensures query { IfOk result (λ q. q ≡ plain_text sql.now) }
        ensures memory { IfErr result (λ e. e ≡ Error.OutOfMemory) }
    {
        let sql = Text::from_str(alloc, sql)?;
        Ok(Query::from_text(sql))
    }

    /// The same of a text that is owned, without taking memory.
    pub fn from_text(sql: Text) -> Self
        ensures { result ≡ plain_text sql }
    {
        Query {
            sql,
            arguments: None,
            is_persistent: false,
        }
    }

    /// An extended query of one statement, without arguments. Only want of memory refuses it.
    /// (PostgreSQL manual, "Message Flow", "Extended Query".)
    pub fn new(alloc: Global, sql: &str) -> Result<Self, Error>
        ensures query { IfOk result (λ q. q ≡ kept_query sql.now no_arguments) }
        ensures memory { IfErr result (λ e. e ≡ Error.OutOfMemory) }
    {
        let sql = Text::from_str(alloc, sql)?;
        let none = Arguments::none(alloc)?;
        Ok(Query {
            sql,
            arguments: Some(none),
            is_persistent: true,
        })
    }

    /// The same with arguments, whose types may be known by their names alone, as may those whose OIDs are open within values. Only want of memory
    /// refuses it.
    pub fn with(alloc: Global, sql: &str, arguments: &PgArguments) -> Result<Self, Error>
        ensures query { IfOk result (λ q. q ≡ kept_query sql.now (sent_as arguments.now)) }
        ensures values { IfOk result (λ q. AsksWith arguments.now q.arguments) }
        ensures memory { IfErr result (λ e. e ≡ Error.OutOfMemory) }
    {
        let arguments = Arguments::of(alloc, arguments)?;
        let sql = Text::from_str(alloc, sql)?;
        Ok(Query {
            sql,
            arguments: Some(arguments),
            is_persistent: true,
        })
    }

    /// The same query, whose statement its connection may keep for later ones, or prepares for it alone, without a name.
    pub fn persistent(self, yes: bool) -> Self
        ensures { result ≡ record self { persistent = yes } }
    {
        let Query {
            sql,
            arguments,
            is_persistent: _,
        } = self;
        Query {
            sql,
            arguments,
            is_persistent: yes,
        }
    }

    /// Whether its statement may be kept for later queries.
    pub fn is_persistent(&self) -> bool
        ensures { result ≡ self.now.persistent }
    {
        self.is_persistent
    }

    pub fn sql(&self) -> &str
        ensures { result.now ≡ self.now.sql }
    {
        self.sql.as_str()
    }

    /// The types of its arguments as they were declared, where one of them is known by its name alone.
    pub fn names(&self) -> &[Declared]
        ensures { result.now ≡ names_by self.now.arguments }
    {
        match &self.arguments {
            Some(arguments) => arguments.names(),
            None => &[],
        }
    }

    /// The types whose OIDs are open within its arguments.
    pub fn holes(&self) -> &[Declared]
        ensures { result.now ≡ holes_by self.now.arguments }
    {
        match &self.arguments {
            Some(arguments) => arguments.holes(),
            None => &[],
        }
    }

    /// Whether it is one of the extended query. Its list of arguments may be empty then.
    pub fn has_arguments(&self) -> bool
        ensures { result ≡ is_some self.now.arguments }
    {
        self.arguments.is_some()
    }

    /// Its text and its arguments, or the query itself where it has none.
    pub fn into_extended(self) -> Result<(Text, Arguments), Query>
        ensures { result ≡ extended self }
    {
        let Query {
            sql,
            arguments,
            is_persistent,
        } = self;
        match arguments {
            Some(arguments) => Ok((sql, arguments)),
            None => Err(Query {
                sql,
                arguments: None,
                is_persistent,
            }),
        }
    }

    /// An equal query. Only want of memory refuses it.
    pub fn to_copy(&self, alloc: Global) -> Result<Self, Error>
        ensures copy { IfOk result (λ q. q ≡ self.now) }
        ensures memory { IfErr result (λ e. e ≡ Error.OutOfMemory) }
    {
        let sql = self.sql.to_copy(alloc)?;
        let arguments = copied(&self.arguments, alloc)?;
        Ok(Query {
            sql,
            arguments,
            is_persistent: self.is_persistent,
        })
    }
}
