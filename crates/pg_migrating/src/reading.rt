//! How the answer of one statement is read.

ghost use Rattle.pg_migrating.specs.Answers.{IsTold};

use pg_call::Turn;
use pg_migrate::MigrateError;
use pg_wire::Error;
use std::alloc::Global;

/// What is read of the answer of one statement, which says in which way it is asked.
pub trait Reading {
    ghost use Rattle.pg_wire.specs.declared.error.Error as declared_error;
    ghost use Rattle.pg_call.specs.declared.answer.CallAnswer as declared_answer;
    ghost use Rattle.pg_call.specs.declared.kind.How as declared_how;
    ghost use Rattle.pg_call.specs.declared.kind.Kind.TheVariants as kinds;
    ghost use Rattle.pg_call.specs.Answers.{TurnFits};
    ghost use Rattle.pg_migrating.specs.Databases.{EndsBy};

    type Value;

    /// In which way the statement is asked.
    ghost how: { declared_how.How };

    /// What an answer says.
    ghost reads: { declared_answer.CallAnswer → Self.Value → Type 0 };

    /// Why it can't be read.
    ghost misreads: { declared_answer.CallAnswer → declared_error.Error → Type 0 };

    fn read(alloc: Global, turn: Turn) -> Result<Self::Value, Error>
        requires { TurnFits (kinds.Run how) turn }
        ensures { EndsBy reads misreads turn result };
}

/// How a call of a migration ended that is no script's.
pub(crate) fn told<T>(end: Result<T, Error>) -> Result<T, MigrateError>
    ensures { IsTold end result }
{
    match end {
        Ok(value) => Ok(value),
        Err(e) => Err(MigrateError::Execute(e)),
    }
}
