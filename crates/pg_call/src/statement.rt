ghost use Rattle.std.specs.Prelude.{◌≡◌, true, IfOk, IfErr, IsSome, Some, option_map};
ghost use Rattle.pg_call.specs.declared.statement.Described.{Described as DescribedOf};
ghost use Rattle.pg_call.specs.Requests.{behind_goal, bound_by, declared_for, filled_bound, filled_for, goal_kind, heading_of, is_parsed_again, looked_behind, named_keeping, numbered_by, parsed_again, told, width_of, with_columns};

use crate::after::{After, Filling};
use crate::heading::heading;
use crate::{How, Keeping, Kind, Request};
use pg_columns::{PgColumns, share_known};
use pg_request::{Arguments, Declared, copy_declared};
use pg_rows::Heading;
use pg_values::PgValueFormat;
use pg_wire::{Error, Oid, Oids, Sequence, StatementId, Text};
use std::alloc::Global;

/// What a statement is described for: to be run, or to be told of.
#[derive(Clone, Copy, Debug, PartialEq, Eq)]
pub enum Goal {
    Run(How),
    Prepare,
}

impl Goal {
    /// The kind of the call.
    pub fn kind(self) -> Kind
        ensures { result ≡ goal_kind self }
    {
        match self {
            Goal::Run(how) => Kind::Run(how),
            Goal::Prepare => Kind::Prepare,
        }
    }
}

/// What a description has told of a statement.
#[derive(Debug)]
pub struct Described {
    /// The types of its parameters.
    pub parameters: Oids,
    /// The columns of its rows.
    pub columns: Option<PgColumns>,
}

// By hand, so that whoever lets one go makes one call, and doesn't go through its parts.
impl Drop for Described {
    fn drop(self) {
        let Described {
            parameters: _,
            columns: _,
        } = self;
    }
}

impl Described {
    // The types and the columns.
    fn into_parts(self) -> (Oids, Option<PgColumns>)
        ensures { result ≡ (self.parameters, self.columns) }
    {
        let Described {
            parameters,
            columns,
        } = self;
        (parameters, columns)
    }

    // The same with other columns.
    fn with_columns(self, columns: Option<PgColumns>) -> Self
        ensures { result ≡ record self { columns = columns } }
    {
        let (parameters, _) = self.into_parts();
        Described {
            parameters,
            columns,
        }
    }

    /// The same again. Only want of memory refuses it.
    pub fn to_copy(&self, alloc: Global) -> Result<Self, Error>
        ensures copy { IfOk result (λ x. x ≡ self.now) }
        ensures memory { IfErr result (λ e. e ≡ Error.OutOfMemory) }
    {
        let parameters = self.parameters.to_copy(alloc)?;
        let columns = share_known(&self.columns)?;
        Ok(Described {
            parameters,
            columns,
        })
    }
}

// A description with other columns, where there is one.
fn redescribed(described: Option<Described>, columns: Option<PgColumns>) -> Option<Described>
    ensures { result ≡ option_map (λ (d : DescribedOf). record d { columns = columns }) described }
{
    match described {
        Some(described) => Some(described.with_columns(columns)),
        None => None,
    }
}

/// A text with arguments, to be prepared under a name, or without one, and described before it is run; or one that was so described.
#[derive(Debug)]
pub struct Extended {
    pub goal: Goal,
    pub statement: StatementId,
    /// Whether there was a number left for its name.
    pub is_numbered: bool,
    pub sql: Text,
    pub arguments: Arguments,
    /// What was told of it.
    pub described: Option<Described>,
    /// Whether types were looked up behind it: a Query makes an end of the statement without a name.
    pub is_looked_up: bool,
    /// The text by which types within its arguments are looked up before it is run.
    pub filling: Option<Text>,
}

// By hand, so that whoever lets one go makes one call, and doesn't go through its parts.
impl Drop for Extended {
    fn drop(self) {
        let Extended {
            goal: _,
            statement: _,
            is_numbered: _,
            sql: _,
            arguments: _,
            described: _,
            is_looked_up: _,
            filling: _,
        } = self;
    }
}

// The text, where it is parsed once more.
fn parsed_again(again: bool, sql: Text) -> Option<Text>
    ensures { result ≡ parsed_again again sql }
{
    if again { Some(sql) } else { None }
}

// What is run, or what is asked before that.
fn bound_by(filling: Option<Text>, bound: Bound) -> After
    ensures { result ≡ bound_by filling bound }
{
    match filling {
        Some(text) => After::Fill(Filling { text, bound }),
        None => After::Run(bound),
    }
}

// What was told, once more.
fn copied(described: &Option<Described>, alloc: Global) -> Result<Option<Described>, Error>
    ensures copy { IfOk result (λ x. x ≡ described.now) }
    ensures memory { IfErr result (λ e. e ≡ Error.OutOfMemory) }
{
    match described {
        Some(described) => Ok(Some(described.to_copy(alloc)?)),
        None => Ok(None),
    }
}

impl Extended {
    /// The same again. Only want of memory refuses it.
    pub fn to_copy(&self, alloc: Global) -> Result<Self, Error>
        ensures copy { IfOk result (λ x. x ≡ self.now) }
        ensures memory { IfErr result (λ e. e ≡ Error.OutOfMemory) }
    {
        let sql = self.sql.to_copy(alloc)?;
        let arguments = self.arguments.to_copy(alloc)?;
        let described = copied(&self.described, alloc)?;
        let filling = copied_text(&self.filling, alloc)?;
        Ok(Extended {
            goal: self.goal,
            statement: self.statement,
            is_numbered: self.is_numbered,
            sql,
            arguments,
            described,
            is_looked_up: self.is_looked_up,
            filling,
        })
    }

    // What describing it makes of the statements that are kept.
    pub(crate) fn keeping(&self) -> Keeping
        ensures { result ≡ named_keeping self.now.statement }
    {
        match self.statement.number() {
            0 => Keeping::Stays,
            _ => Keeping::Draws,
        }
    }

    // Whether its Parse is said again where it is run.
    fn is_parsed_again(&self) -> bool
        ensures { result ≡ is_parsed_again self.now }
    {
        (self.is_looked_up || self.filling.is_some()) && self.statement.number() == 0
    }

    /// What it was described for, which makes this of the statements that are kept.
    pub fn into_after(self, keeping: Keeping) -> After
        requires { IsSome self.described }
        ensures { (d : DescribedOf) → self.described ≡ Some d → result ≡ behind_goal self.goal self d keeping }
    {
        let is_parsed_again = self.is_parsed_again();
        let Extended {
            goal,
            statement,
            is_numbered: _,
            sql,
            arguments,
            described,
            is_looked_up: _,
            filling,
        } = self;
        let Some(described) = described else {
            unreachable!();
        };
        let (parameters, columns) = described.into_parts();
        match goal {
            Goal::Run(how) => {
                let bound = Bound {
                    how,
                    statement,
                    again: parsed_again(is_parsed_again, sql),
                    arguments,
                    columns,
                    is_looked_up: false,
                    keeping,
                };
                bound_by(filling, bound)
            }
            Goal::Prepare => After::Prepare(Prepared {
                sql,
                parameters,
                columns,
                keeping,
                declared: None,
            }),
        }
    }

    /// The same, once something was looked up for it.
    pub fn looked_up(self) -> Self
        ensures { result ≡ record self { is_looked_up = true } }
    {
        let Extended {
            goal,
            statement,
            is_numbered,
            sql,
            arguments,
            described,
            is_looked_up: _,
            filling,
        } = self;
        Extended {
            goal,
            statement,
            is_numbered,
            sql,
            arguments,
            described,
            is_looked_up: true,
            filling,
        }
    }

    /// The same, once the OIDs of its types are known.
    pub fn numbered(self, alloc: Global, types: Oids) -> Self
        ensures { result ≡ numbered_by types self }
    {
        let Extended {
            goal,
            statement,
            is_numbered,
            sql,
            arguments,
            described,
            is_looked_up: _,
            filling,
        } = self;
        Extended {
            goal,
            statement,
            is_numbered,
            sql,
            arguments: arguments.numbered(alloc, types),
            described,
            is_looked_up: false,
            filling,
        }
    }

    /// The same before a lookup by this text of types within its arguments.
    pub fn filling(self, text: Text) -> Self
        ensures { result ≡ record self { filling = Some text } }
    {
        let Extended {
            goal,
            statement,
            is_numbered,
            sql,
            arguments,
            described,
            is_looked_up,
            filling: _,
        } = self;
        Extended {
            goal,
            statement,
            is_numbered,
            sql,
            arguments,
            described,
            is_looked_up,
            filling: Some(text),
        }
    }

    /// The same, once the open OIDs within its arguments are known. Only want of memory refuses it.
    pub fn filled(self, alloc: Global, oids: &[Oid]) -> Result<Self, Error>
        ensures filled { IfOk result (λ x. x ≡ filled_for oids.now self) }
        ensures memory { IfErr result (λ e. e ≡ Error.OutOfMemory) }
    {
        let Extended {
            goal,
            statement,
            is_numbered,
            sql,
            arguments,
            described,
            is_looked_up,
            filling,
        } = self;
        let arguments = arguments.filled(alloc, oids)?;
        Ok(Extended {
            goal,
            statement,
            is_numbered,
            sql,
            arguments,
            described,
            is_looked_up,
            filling,
        })
    }

    /// The same with other columns, where it was described.
    pub fn with_columns(self, columns: Option<PgColumns>) -> Self
        ensures { result ≡ with_columns columns self }
    {
        let Extended {
            goal,
            statement,
            is_numbered,
            sql,
            arguments,
            described,
            is_looked_up,
            filling,
        } = self;
        Extended {
            goal,
            statement,
            is_numbered,
            sql,
            arguments,
            described: redescribed(described, columns),
            is_looked_up,
            filling,
        }
    }

    /// The same, once it was described.
    pub(crate) fn told(self, parameters: Oids, columns: Option<PgColumns>) -> Self
        ensures { result ≡ told parameters columns self }
    {
        let Extended {
            goal,
            statement,
            is_numbered,
            sql,
            arguments,
            described: _,
            is_looked_up,
            filling,
        } = self;
        Extended {
            goal,
            statement,
            is_numbered,
            sql,
            arguments,
            described: Some(Described {
                parameters,
                columns,
            }),
            is_looked_up,
            filling,
        }
    }
}

/// A statement that is prepared, to be run with these arguments.
#[derive(Debug)]
pub struct Bound {
    pub how: How,
    pub statement: StatementId,
    /// The text, where it is parsed once more.
    pub again: Option<Text>,
    pub arguments: Arguments,
    /// Its columns, where they are known.
    pub columns: Option<PgColumns>,
    /// Whether types within its arguments were looked up.
    pub is_looked_up: bool,
    /// What running it makes of the statements that are kept.
    pub keeping: Keeping,
}

// By hand, so that whoever lets one go makes one call, and doesn't go through its parts.
impl Drop for Bound {
    fn drop(self) {
        let Bound {
            how: _,
            statement: _,
            again: _,
            arguments: _,
            columns: _,
            is_looked_up: _,
            keeping: _,
        } = self;
    }
}

// A text that may be there, once more.
fn copied_text(text: &Option<Text>, alloc: Global) -> Result<Option<Text>, Error>
    ensures copy { IfOk result (λ x. x ≡ text.now) }
    ensures memory { IfErr result (λ e. e ≡ Error.OutOfMemory) }
{
    match text {
        Some(text) => Ok(Some(text.to_copy(alloc)?)),
        None => Ok(None),
    }
}

impl Bound {
    /// The same again. Only want of memory refuses it.
    pub fn to_copy(&self, alloc: Global) -> Result<Self, Error>
        ensures copy { IfOk result (λ x. x ≡ self.now) }
        ensures memory { IfErr result (λ e. e ≡ Error.OutOfMemory) }
    {
        let again = copied_text(&self.again, alloc)?;
        let arguments = self.arguments.to_copy(alloc)?;
        let columns = share_known(&self.columns)?;
        Ok(Bound {
            how: self.how,
            statement: self.statement,
            again,
            arguments,
            columns,
            is_looked_up: self.is_looked_up,
            keeping: self.keeping,
        })
    }

    /// How many columns it has, where that is known: it isn't where it is parsed once more.
    pub fn width(&self) -> Option<usize>
        ensures { result ≡ width_of self.now }
    {
        match (&self.again, &self.columns) {
            (None, Some(columns)) => Some(columns.len()),
            _ => None,
        }
    }

    /// The same behind a lookup for its arguments.
    pub(crate) fn looked_behind(self) -> Self
        ensures { result ≡ looked_behind self }
    {
        let Bound {
            how,
            statement,
            again,
            arguments,
            columns,
            is_looked_up: _,
            keeping: _,
        } = self;
        Bound {
            how,
            statement,
            again,
            arguments,
            columns,
            is_looked_up: true,
            keeping: Keeping::Stays,
        }
    }

    /// The same, once the open OIDs within its arguments are known. Only want of memory refuses it.
    pub fn filled(self, alloc: Global, oids: &[Oid]) -> Result<Self, Error>
        ensures filled { IfOk result (λ b. b ≡ filled_bound oids.now self) }
        ensures memory { IfErr result (λ e. e ≡ Error.OutOfMemory) }
    {
        let Bound {
            how,
            statement,
            again,
            arguments,
            columns,
            is_looked_up,
            keeping,
        } = self;
        let arguments = arguments.filled(alloc, oids)?;
        Ok(Bound {
            how,
            statement,
            again,
            arguments,
            columns,
            is_looked_up,
            keeping,
        })
    }

    // The heading of its rows, as far as it is known.
    pub(crate) fn into_heading(self) -> Heading
        ensures { result ≡ heading_of (Request.Run self) }
    {
        let Bound {
            how,
            statement: _,
            again: _,
            arguments: _,
            columns,
            is_looked_up: _,
            keeping: _,
        } = self;
        let columns = columns.unwrap_or_else(PgColumns::none);
        heading(Kind::Run(how), columns, PgValueFormat::Binary)
    }
}

/// A text of SQL with the types of its parameters and its columns, as the server has described them.
#[derive(Debug)]
pub struct Prepared {
    pub sql: Text,
    pub parameters: Oids,
    /// The columns, where they were described.
    pub columns: Option<PgColumns>,
    /// What telling of it makes of the statements that are kept.
    pub keeping: Keeping,
    /// The types of its first parameters as the caller declares them, where it is asked for.
    pub declared: Option<Sequence<Declared>>,
}

// By hand, so that whoever lets one go makes one call, and doesn't go through its parts.
impl Drop for Prepared {
    fn drop(self) {
        let Prepared {
            sql: _,
            parameters: _,
            columns: _,
            keeping: _,
            declared: _,
        } = self;
    }
}

// Types as they are declared, once more.
fn copied_types(
    declared: &Option<Sequence<Declared>>,
    alloc: Global,
) -> Result<Option<Sequence<Declared>>, Error>
    ensures copy { IfOk result (λ x. x ≡ declared.now) }
    ensures memory { IfErr result (λ e. e ≡ Error.OutOfMemory) }
{
    match declared {
        Some(declared) => Ok(Some(copy_declared(alloc, declared.as_slice())?)),
        None => Ok(None),
    }
}

impl Prepared {
    /// Its text and the types of its parameters.
    pub fn into_parts(self) -> (Text, Oids)
        ensures { result ≡ (self.sql, self.parameters) }
    {
        let Prepared {
            sql,
            parameters,
            columns: _,
            keeping: _,
            declared: _,
        } = self;
        (sql, parameters)
    }

    /// The types of its first parameters as the caller declares them.
    pub fn declared(&self) -> &[Declared]
        ensures { result.now ≡ declared_for self.now }
    {
        match &self.declared {
            Some(declared) => declared.as_slice(),
            None => &[],
        }
    }

    /// Its text, and the types that the caller declares.
    pub fn into_declared(self) -> (Text, Option<Sequence<Declared>>)
        ensures { result ≡ (self.sql, self.declared) }
    {
        let Prepared {
            sql,
            parameters: _,
            columns: _,
            keeping: _,
            declared,
        } = self;
        (sql, declared)
    }

    /// The same, with no types declared any more.
    pub(crate) fn told(self) -> Self
        ensures { result ≡ record self { declared = None } }
    {
        let Prepared {
            sql,
            parameters,
            columns,
            keeping,
            declared: _,
        } = self;
        Prepared {
            sql,
            parameters,
            columns,
            keeping,
            declared: None,
        }
    }

    /// The same again. Only want of memory refuses it.
    pub fn to_copy(&self, alloc: Global) -> Result<Self, Error>
        ensures copy { IfOk result (λ x. x ≡ self.now) }
        ensures memory { IfErr result (λ e. e ≡ Error.OutOfMemory) }
    {
        let sql = self.sql.to_copy(alloc)?;
        let parameters = self.parameters.to_copy(alloc)?;
        let columns = share_known(&self.columns)?;
        let declared = copied_types(&self.declared, alloc)?;
        Ok(Prepared {
            sql,
            parameters,
            columns,
            keeping: self.keeping,
            declared,
        })
    }
}
