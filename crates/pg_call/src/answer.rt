ghost use Rattle.std.specs.Prelude.{◌≡◌};
ghost use Rattle.pg_call.specs.declared.kind.How.TheVariants as hows;
ghost use Rattle.pg_call.specs.Answers.{TurnFits, TurnIsPlain, total_turn, unit_turn, rows_turn, optional_turn, one_turn, piece_turn, statement_turn, row_turn, count_turn, either_turn};

use crate::{Kind, PgQueryResult, Prepared};
use either::Either;
use pg_rows::PgRow;
use pg_wire::{Blob, CopyResponseData, Error, Sequence};

/// One thing that a call shows as it comes.
#[derive(Drop)]
pub enum CallItem {
    Row(PgRow),
    /// The rows that one statement counts.
    Count(PgQueryResult),
    /// Some data of a copy to the client, as one message had it.
    Piece(Blob),
}

/// What a call answers where all went well.
#[derive(Drop)]
pub enum CallAnswer {
    Unit,
    Total(PgQueryResult),
    Rows(Sequence<PgRow>),
    OneRow(Option<PgRow>),
    /// A statement, as it was described.
    Statement(Prepared),
}

/// What a poll of a call comes to.
#[derive(Drop)]
pub enum Turn {
    Item(CallItem),
    Ok(CallAnswer),
    Err(Error),
    /// The call goes on, and awaits the data of its copy from the client.
    Opened(CopyResponseData),
}

/// What the turn of a call of one kind is to the state that the caller holds.
impl Turn {
    pub fn into_total(self) -> Result<PgQueryResult, Error>
        requires { TurnFits (Kind.Run hows.Execute) self }
        ensures { self ≡ total_turn result }
    {
        match self {
            Turn::Ok(CallAnswer::Total(total)) => Ok(total),
            Turn::Err(e) => Err(e),
            Turn::Ok(_) | Turn::Item(_) | Turn::Opened(_) => unreachable!(),
        }
    }

    pub fn into_rows(self) -> Result<Sequence<PgRow>, Error>
        requires { TurnFits (Kind.Run hows.FetchAll) self }
        ensures { self ≡ rows_turn result }
    {
        match self {
            Turn::Ok(CallAnswer::Rows(rows)) => Ok(rows),
            Turn::Err(e) => Err(e),
            Turn::Ok(_) | Turn::Item(_) | Turn::Opened(_) => unreachable!(),
        }
    }

    pub fn into_optional(self) -> Result<Option<PgRow>, Error>
        requires { TurnFits (Kind.Run hows.FetchOptional) self }
        ensures { self ≡ optional_turn result }
    {
        match self {
            Turn::Ok(CallAnswer::OneRow(row)) => Ok(row),
            Turn::Err(e) => Err(e),
            Turn::Ok(_) | Turn::Item(_) | Turn::Opened(_) => unreachable!(),
        }
    }

    pub fn into_one(self) -> Result<PgRow, Error>
        requires { TurnFits (Kind.Run hows.FetchOne) self }
        ensures { self ≡ one_turn result }
    {
        match self {
            Turn::Ok(CallAnswer::OneRow(Some(row))) => Ok(row),
            Turn::Err(e) => Err(e),
            Turn::Ok(_) | Turn::Item(_) | Turn::Opened(_) => unreachable!(),
        }
    }

    pub fn into_unit(self, kind: Kind) -> Result<(), Error>
        requires plain { TurnIsPlain kind }
        requires fits { TurnFits kind self }
        ensures { self ≡ unit_turn result }
    {
        match self {
            Turn::Ok(CallAnswer::Unit) => Ok(()),
            Turn::Err(e) => Err(e),
            Turn::Ok(_) | Turn::Item(_) | Turn::Opened(_) => unreachable!(),
        }
    }

    pub fn into_statement(self) -> Result<Prepared, Error>
        requires { TurnFits Kind.Prepare self }
        ensures { self ≡ statement_turn result }
    {
        match self {
            Turn::Ok(CallAnswer::Statement(prepared)) => Ok(prepared),
            Turn::Err(e) => Err(e),
            Turn::Ok(_) | Turn::Item(_) | Turn::Opened(_) => unreachable!(),
        }
    }

    pub fn into_row(self) -> Option<Result<PgRow, Error>>
        requires { TurnFits (Kind.Run hows.Fetch) self }
        ensures { self ≡ row_turn result }
    {
        match self {
            Turn::Item(CallItem::Row(row)) => Some(Ok(row)),
            Turn::Ok(CallAnswer::Unit) => None,
            Turn::Err(e) => Some(Err(e)),
            Turn::Ok(_) | Turn::Item(_) | Turn::Opened(_) => unreachable!(),
        }
    }

    pub fn into_count(self) -> Option<Result<PgQueryResult, Error>>
        requires { TurnFits (Kind.Run hows.ExecuteMany) self }
        ensures { self ≡ count_turn result }
    {
        match self {
            Turn::Item(CallItem::Count(count)) => Some(Ok(count)),
            Turn::Ok(CallAnswer::Unit) => None,
            Turn::Err(e) => Some(Err(e)),
            Turn::Ok(_) | Turn::Item(_) | Turn::Opened(_) => unreachable!(),
        }
    }

    pub fn into_piece(self) -> Option<Result<Blob, Error>>
        requires { TurnFits Kind.CopyOut self }
        ensures { self ≡ piece_turn result }
    {
        match self {
            Turn::Item(CallItem::Piece(piece)) => Some(Ok(piece)),
            Turn::Ok(CallAnswer::Unit) => None,
            Turn::Err(e) => Some(Err(e)),
            Turn::Ok(_) | Turn::Item(_) | Turn::Opened(_) => unreachable!(),
        }
    }

    pub fn into_either(self) -> Option<Result<Either<PgQueryResult, PgRow>, Error>>
        requires { TurnFits (Kind.Run hows.FetchMany) self }
        ensures { self ≡ either_turn result }
    {
        match self {
            Turn::Item(CallItem::Count(count)) => Some(Ok(Either::Left(count))),
            Turn::Item(CallItem::Row(row)) => Some(Ok(Either::Right(row))),
            Turn::Ok(CallAnswer::Unit) => None,
            Turn::Err(e) => Some(Err(e)),
            Turn::Ok(_) | Turn::Item(_) | Turn::Opened(_) => unreachable!(),
        }
    }
}
