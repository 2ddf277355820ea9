ghost use Rattle.std.specs.Prelude.{◌≡◌, Some, None, length, OnOk, IfOk, IfErr};
ghost use Rattle.pg_arguments.specs.Builtin.{type_under};
ghost use Rattle.pg_arguments.specs.Encoding.{value_of, RefusesArgument};
ghost use Rattle.pg_arguments.specs.Arrays.{elements};
ghost use Rattle.pg_arguments.specs.Arguments.{AddsArgument, AddsToValues};
ghost use Rattle.pg_script.specs.Reading.{Gives, Fails};
ghost use Rattle.pg_script.specs.Given.{bare_oid, bare_encoding, argument_type, argument_encoding, AreEncoded, given_query};

use crate::argument::{Argument, Bare};
use crate::error::LineError;
use pg_arguments::{PgArguments, PgTypeInfo};
use pg_request::Query;
use pg_wire::{Error, Oid, Text};
use std::alloc::Global;

// Adds a null of the type with this OID.
fn add_null(alloc: Global, arguments: &mut PgArguments, oid: u32) -> Result<(), Error>
    ensures ok { OnOk result (AddsArgument (type_under oid) (Some None) arguments.old arguments.new) }
    ensures values { OnOk result (AddsToValues (Some None) arguments.old arguments.new) }
    ensures cause { IfErr result (λ e. e ≡ Error.OutOfMemory) }
{
    let of = PgTypeInfo::under_oid(alloc, Oid(oid))?;
    arguments.add_null(of)
}

// Adds an argument that stands without quotes.
fn add_bare(alloc: Global, arguments: &mut PgArguments, bare: Bare) -> Result<(), Error>
    ensures ok { OnOk result (AddsArgument (type_under (bare_oid bare)) (value_of (bare_encoding bare)) arguments.old arguments.new) }
    ensures values { OnOk result (AddsToValues (value_of (bare_encoding bare)) arguments.old arguments.new) }
    ensures cause { IfErr result (RefusesArgument (length arguments.old.types) (value_of (bare_encoding bare))) }
{
    match bare {
        Bare::Null(oid) => add_null(alloc, arguments, oid),
        Bare::Bool(value) => arguments.add(value),
        Bare::Int2(value) => arguments.add(value),
        Bare::Int4(value) => arguments.add(value),
        Bare::Int8(value) => arguments.add(value),
        Bare::Oid(value) => arguments.add(Oid(value)),
        Bare::Int4s(values) => arguments.add(values.into_vec()),
    }
}

// Adds an argument, which has no encoding where it is too long.
fn add(alloc: Global, arguments: &mut PgArguments, argument: Argument) -> Result<(), Error>
    ensures ok { OnOk result (AddsArgument (argument_type argument) (value_of (argument_encoding argument)) arguments.old arguments.new) }
    ensures values { OnOk result (AddsToValues (value_of (argument_encoding argument)) arguments.old arguments.new) }
    ensures cause { IfErr result (RefusesArgument (length arguments.old.types) (value_of (argument_encoding argument))) }
{
    match argument {
        Argument::Bare(bare) => add_bare(alloc, arguments, bare),
        Argument::Text(text) => arguments.add(text),
        Argument::Bytea(bytes) => arguments.add(bytes),
        Argument::Texts(texts) => arguments.add(texts.into_vec()),
        Argument::Named(name, image) => {
            let of = PgTypeInfo::with_name(alloc, name.as_str())?;
            arguments.add_image(of, image.as_bytes())
        }
    }
}

// The same of a line.
fn add_given(
    alloc: Global,
    arguments: &mut PgArguments,
    argument: Argument,
) -> Result<(), LineError>
    ensures ok { OnOk result (AddsArgument (argument_type argument) (value_of (argument_encoding argument)) arguments.old arguments.new) }
    ensures values { OnOk result (AddsToValues (value_of (argument_encoding argument)) arguments.old arguments.new) }
    ensures cause { IfErr result (λ e. Fails e (value_of (argument_encoding argument))) }
{
    match add(alloc, arguments, argument) {
        Ok(()) => Ok(()),
        Err(Error::Encode { index: _ }) => Err(LineError::Bad),
        Err(_) => Err(LineError::OutOfMemory),
    }
}

// The arguments of a call, where each has an encoding.
fn encoded(alloc: Global, given: Vec<Argument>) -> Result<PgArguments, LineError>
    ensures ok { IfOk result (AreEncoded given.items) }
    ensures cause { IfErr result (λ e. Fails e (elements argument_encoding given.items)) }
{
    let mut arguments = PgArguments::new(alloc);
    for argument in given {
        add_given(alloc, &mut arguments, argument)?;
    }
    Ok(arguments)
}

/// The query with these arguments, whose statement is to be kept or not.
pub(crate) fn given_query(
    alloc: Global,
    sql: Text,
    given: Vec<Argument>,
    is_kept: bool,
) -> Result<Query, LineError>
    ensures { Gives (λ q. q) result (given_query is_kept sql given.items) }
{
    let arguments = encoded(alloc, given)?;
    match Query::with(alloc, sql.as_str(), &arguments) {
        Ok(query) => Ok(query.persistent(is_kept)),
        Err(_) => Err(LineError::OutOfMemory),
    }
}
