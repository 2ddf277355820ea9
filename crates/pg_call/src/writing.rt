ghost use Rattle.std.specs.Prelude.{◌≡◌, ◌<◌, ◌≤◌, ◌++◌, length, map, true, false, IfErr, OnOk};
ghost use Rattle.std.specs.List.{AllByRecursion};
ghost use Rattle.pg_wire.specs.Encoding.{body_max};
ghost use Rattle.pg_wire.specs.Bytes.{HasNoNul};
ghost use Rattle.pg_wire.specs.Frontend.{Bind, CopyData, FitsValue, HasFrontendFrame};
ghost use Rattle.pg_exchanges.specs.Answering.{closing, describing, running};
ghost use Rattle.pg_call.specs.Requests.{close_of, ended_by, feeding, name_of, parsing_again, running_bound, spelled, bind_size, AreFew, AreNamed, HaveNames, IsNamed, RefusesAgain, RefusesDeclared, RefusesExtended, RefusesBind, RefusesFeed, RefusesNames, RefusesPieces, RefusesRun};

use crate::{Bound, Extended, Feed};
use pg_request::{Arguments, Declared};
use pg_wire::{
    Blob, CallerFault, Error, PortalId, ProtocolFault, StatementId, check_body, encode_bind,
    encode_close_portal, encode_close_statement, encode_copy_bytes, encode_copy_done,
    encode_describe_statement, encode_execute, encode_parse, encode_query, encode_sync,
};

// Refuses more arguments than two bytes can count.
fn check_count(arguments: &Arguments) -> Result<(), Error>
    ensures few { OnOk result (length arguments.now.values ≤ 65535) }
    ensures many { IfErr result (λ e. (e ≡ Error.Protocol (ProtocolFault.Caller (CallerFault.TooMany (length arguments.now.values)))) × (65535 < length arguments.now.values)) }
{
    let count = arguments.count();
    if count > 65535 {
        return Err(Error::Protocol(ProtocolFault::Caller(CallerFault::TooMany { count })));
    }
    Ok(())
}

// The same of their types.
fn check_types(arguments: &Arguments) -> Result<(), Error>
    ensures few { OnOk result (length arguments.now.types ≤ 65535) }
    ensures many { IfErr result (λ e. (e ≡ Error.Protocol (ProtocolFault.Caller (CallerFault.TooMany (length arguments.now.types)))) × (65535 < length arguments.now.types)) }
{
    let count = arguments.types().len() as u64;
    if count > 65535 {
        return Err(Error::Protocol(ProtocolFault::Caller(CallerFault::TooMany { count })));
    }
    Ok(())
}

// How many bytes the name of a statement takes.
fn name_length(statement: StatementId) -> u64
    ensures name { result ≡ length (name_of statement) }
    ensures short { result ≤ 17 }
{
    match statement.display() {
        Some(name) => name.len() as u64,
        None => 0,
    }
}

// Refuses arguments that no Bind of this statement can carry.
#[tactic(auto, using(crate::proofs::WritingLaws::values_fit))]
fn check_bind(statement: StatementId, arguments: &Arguments) -> Result<(), Error>
    ensures fits { OnOk result (bind_size statement arguments.now ≤ body_max) }
    ensures values { OnOk result (AllByRecursion FitsValue arguments.now.values) }
    ensures long { IfErr result (λ e. (e ≡ Error.Protocol (ProtocolFault.Caller (CallerFault.TooLong (bind_size statement arguments.now)))) × (body_max < bind_size statement arguments.now)) }
{
    let _ = check_body(name_length(statement) + arguments.encoded().len() as u64 + 12)?;
    Ok(())
}

// Refuses a statement for whose name no number is left.
fn check_number(extended: &Extended) -> Result<(), Error>
    ensures ok { OnOk result (extended.now.is_numbered ≡ true) }
    ensures err { IfErr result (λ e. (e ≡ Error.Protocol (ProtocolFault.Caller CallerFault.NoStatementNumber)) × (extended.now.is_numbered ≡ false)) }
{
    if extended.is_numbered {
        Ok(())
    } else {
        Err(Error::Protocol(ProtocolFault::Caller(CallerFault::NoStatementNumber)))
    }
}

// Refuses a name with a zero byte, under which no type can be asked for.
fn check_name(name: &str) -> Result<(), Error>
    ensures ok { OnOk result (HasNoNul name.now) }
    ensures err { IfErr result (λ e. (e ≡ Error.Protocol (ProtocolFault.Caller CallerFault.Nul)) × (HasNoNul name.now → ⊥)) }
{
    if name.as_bytes().contains(&0) {
        return Err(Error::Protocol(ProtocolFault::Caller(CallerFault::Nul)));
    }
    Ok(())
}

// The same of the type of an argument.
fn check_declared(of: &Declared) -> Result<(), Error>
    ensures ok { OnOk result (IsNamed of.now) }
    ensures err { IfErr result (λ e. (e ≡ Error.Protocol (ProtocolFault.Caller CallerFault.Nul)) × (IsNamed of.now → ⊥)) }
{
    match of {
        Declared::Number(_) => Ok(()),
        Declared::Name(name) => check_name(name.as_str()),
        Declared::ArrayOf(element) => check_name(element.as_str()),
    }
}

// And of the types of all arguments.
fn check_names(names: &[Declared]) -> Result<(), Error>
    ensures ok { OnOk result (AreNamed names.now) }
    ensures err { IfErr result (λ e. (e ≡ Error.Protocol (ProtocolFault.Caller CallerFault.Nul)) × (AreNamed names.now → ⊥)) }
{
    for of in names {
        check_declared(of)?;
    }
    Ok(())
}

// And of the types within them.
fn check_all_names(arguments: &Arguments) -> Result<(), Error>
    ensures ok { OnOk result (HaveNames arguments.now) }
    ensures err { IfErr result (λ e. (e ≡ Error.Protocol (ProtocolFault.Caller CallerFault.Nul)) × (HaveNames arguments.now → ⊥)) }
{
    check_names(arguments.names())?;
    check_names(arguments.holes())
}

// Refuses arguments by their number, and by a zero byte in the name of a type. A text of which a statement is kept asks for no name of their own types, and is
// refused all the same.
fn check_arguments(arguments: &Arguments) -> Result<(), Error>
    ensures named { OnOk result (HaveNames arguments.now) }
    ensures err { IfErr result (RefusesNames arguments.now) }
{
    check_count(arguments)?;
    check_all_names(arguments)
}

/// Refuses types that are declared by a name with a zero byte, also where a statement of the text is kept.
pub(crate) fn check_types_declared(declared: &[Declared]) -> Result<(), Error>
    ensures named { OnOk result (AreNamed declared.now) }
    ensures err { IfErr result (RefusesDeclared declared.now) }
{
    check_names(declared)
}

// The same of what describes a statement, with the number of their types before any name.
fn check_declared_arguments(extended: &Extended) -> Result<(), Error>
    ensures few { OnOk result (AreFew extended.now.arguments) }
    ensures named { OnOk result (HaveNames extended.now.arguments) }
    ensures err { IfErr result (RefusesExtended extended.now) }
{
    check_count(&extended.arguments)?;
    check_types(&extended.arguments)?;
    check_all_names(&extended.arguments)
}

/// Adds the frames that prepare and describe a statement. What runs it later is looked at first, so that it is refused before anything is asked.
/// (PostgreSQL manual, "Message Flow", "Extended Query".)
pub(crate) fn encode_description(out: &mut Blob, extended: &Extended) -> Result<(), Error>
    ensures ok { OnOk result (out.new ≡ out.old ++ spelled (describing (name_of extended.now.statement) extended.now.sql extended.now.arguments.types)) }
    ensures said { OnOk result (AllByRecursion HasFrontendFrame (describing (name_of extended.now.statement) extended.now.sql extended.now.arguments.types)) }
    ensures later { OnOk result (HasFrontendFrame (Bind (name_of extended.now.statement) extended.now.arguments.values) × (extended.now.is_numbered ≡ true) × HaveNames extended.now.arguments) }
    ensures err { IfErr result (RefusesExtended extended.now) }
{
    check_declared_arguments(extended)?;
    let sql = extended.sql.as_str();
    encode_parse(out, extended.statement, sql, extended.arguments.types())?;
    check_bind(extended.statement, &extended.arguments)?;
    check_number(extended)?;
    encode_describe_statement(out, extended.statement)?;
    encode_sync(out)
}

// Adds the frame that prepares a statement once more, where it is.
fn encode_again(out: &mut Blob, bound: &Bound) -> Result<(), Error>
    ensures ok { OnOk result (out.new ≡ out.old ++ spelled (parsing_again bound.now)) }
    ensures said { OnOk result (AllByRecursion HasFrontendFrame (parsing_again bound.now)) }
    ensures err { IfErr result (RefusesAgain bound.now bound.now.again) }
{
    match &bound.again {
        Some(sql) => encode_parse(out, bound.statement, sql.as_str(), bound.arguments.types()),
        None => Ok(()),
    }
}

/// Adds the frames that run a prepared statement in the unnamed portal, which is closed behind it; before them the one that prepares it once more, where it is.
pub(crate) fn encode_run(out: &mut Blob, bound: &Bound) -> Result<(), Error>
    ensures ok { OnOk result (out.new ≡ out.old ++ spelled (running_bound bound.now)) }
    ensures said { OnOk result (AllByRecursion HasFrontendFrame (running_bound bound.now)) }
    ensures named { OnOk result (HaveNames bound.now.arguments) }
    ensures err { IfErr result (RefusesRun bound.now) }
{
    check_arguments(&bound.arguments)?;
    encode_again(out, bound)?;
    encode_bound(out, bound)
}

// Adds those that run it.
fn encode_bound(out: &mut Blob, bound: &Bound) -> Result<(), Error>
    ensures ok { OnOk result (out.new ≡ out.old ++ spelled (running (name_of bound.now.statement) bound.now.arguments.values 0)) }
    ensures said { OnOk result (AllByRecursion HasFrontendFrame (running (name_of bound.now.statement) bound.now.arguments.values 0)) }
    ensures err { IfErr result (RefusesBind bound.now) }
{
    encode_bind(
        out,
        bound.statement,
        bound.arguments.count(),
        bound.arguments.encoded(),
    )?;
    encode_execute(out, PortalId::UNNAMED, 0)?;
    encode_close_portal(out, PortalId::UNNAMED)?;
    encode_sync(out)
}

// Adds the frame that closes each of these statements.
fn close_each(out: &mut Blob, statements: &[StatementId]) -> Result<(), Error>
    ensures ok { OnOk result (out.new ≡ out.old ++ spelled (map close_of statements.now)) }
    ensures said { OnOk result (AllByRecursion HasFrontendFrame (map close_of statements.now)) }
    ensures err { IfErr result (λ e. e ≡ Error.OutOfMemory) }
{
    for statement in statements {
        encode_close_statement(out, *statement)?;
    }
    Ok(())
}

/// Adds the frames that close statements, the first of these first.
pub(crate) fn encode_closing(out: &mut Blob, statements: &[StatementId]) -> Result<(), Error>
    ensures ok { OnOk result (out.new ≡ out.old ++ spelled (closing (map name_of statements.now))) }
    ensures said { OnOk result (AllByRecursion HasFrontendFrame (closing (map name_of statements.now))) }
    ensures err { IfErr result (λ e. e ≡ Error.OutOfMemory) }
{
    close_each(out, statements)?;
    encode_sync(out)
}

// Adds the frame of each piece.
fn encode_pieces(out: &mut Blob, pieces: &[Blob]) -> Result<(), Error>
    ensures ok { OnOk result (out.new ≡ out.old ++ spelled (map CopyData pieces.now)) }
    ensures said { OnOk result (AllByRecursion HasFrontendFrame (map CopyData pieces.now)) }
    ensures err { IfErr result (RefusesPieces pieces.now) }
{
    for piece in pieces {
        encode_copy_bytes(out, piece.as_bytes())?;
    }
    Ok(())
}

// Adds the frame that ends the data, where they are all.
fn encode_end(out: &mut Blob, is_ended: bool) -> Result<(), Error>
    ensures ok { OnOk result (out.new ≡ out.old ++ spelled (ended_by is_ended)) }
    ensures err { IfErr result (λ e. e ≡ Error.OutOfMemory) }
{
    if is_ended {
        encode_copy_done(out)?;
    }
    Ok(())
}

/// Adds the frames that begin a copy from the client, with what is given of its data.
pub(crate) fn encode_feed(out: &mut Blob, feed: &Feed) -> Result<(), Error>
    ensures ok { OnOk result (out.new ≡ out.old ++ spelled (feeding feed.now)) }
    ensures said { OnOk result (AllByRecursion HasFrontendFrame (feeding feed.now)) }
    ensures err { IfErr result (RefusesFeed feed.now) }
{
    encode_query(out, feed.query.sql())?;
    encode_pieces(out, feed.pieces.as_slice())?;
    encode_end(out, feed.is_ended)
}
