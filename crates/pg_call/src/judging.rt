ghost use Rattle.std.specs.Prelude.{◌≡◌, true, false, length, IfSome};
ghost use Rattle.pg_wire.specs.Backend as backend;
ghost use Rattle.pg_wire.specs.Backend.{Values};
ghost use Rattle.pg_wire.specs.Decoding.{Says};
ghost use Rattle.pg_wire.specs.Frame.{is_known};
ghost use Rattle.pg_call.specs.Replies.{Judges, PassesColumns, PassesRow, after_parse, after_bind, after_close, after_columns, after_end, after_row, awaits_first, closing, after_opening, goes_plainly, stray_tags, tags_of};

use crate::format::{check_message, refuse};
use crate::{PgQueryResult, Request};
use pg_columns::PgColumns;
use pg_wire::{
    Blob, CopyResponseData, DataRow, Error, Frame, Oids, PgDatabaseError, TransactionStatus,
    check_data_row, check_row_description, claimed_width, cut_data_row, decode_bind_complete,
    decode_close_complete, decode_command_complete, decode_copy_data, decode_copy_done,
    decode_copy_in_response, decode_copy_out_response, decode_data_row, decode_empty_query,
    decode_error_response, decode_no_data, decode_parameter_description, decode_parse_complete,
    decode_ready_for_query, decode_row_description,
};
use std::alloc::Global;

/// What the reply to a group awaits. (PostgreSQL manual, "Message Flow", "Simple Query", "Extended Query" and "COPY Operations".)
///
/// | Awaited | Goes on by |
/// |---|---|
/// | `First`, `Further` | T: `Rows`; C, I: `Further` |
/// | `Rows(n)` | D of n values; C: `Further` |
/// | `Parsing` | 1: `Typing` |
/// | `Typing` | t: `Describing` |
/// | `Describing` | T, n: `Described(n)` |
/// | `Reparsing` | 1: `Binding(None)` |
/// | `Binding(width)` | 2: `Running(width)` |
/// | `Running(width)` | D of this width, or of any: `RunningOn(n)`; C, I: `Closing(0)` |
/// | `RunningOn(n)` | D of n values; C, I: `Closing(0)` |
/// | `Closing(n)` | 3: `Closing(n - 1)`, or `Synced` where n is 0 |
/// | `CopyFirst` | H: `CopyData` |
/// | `CopyData` | d; c: `CopyEnd` |
/// | `CopyEnd` | C: `Copied` |
/// | `Opening(ended)` | G: `Feeding(ended)` |
/// | `Feeding(true)` | C: `Copied` |
///
/// Each fails by E. `Further`, `Described`, `Synced` and `Copied` close by Z. In `First`, `Further` and `Running` a copy may begin by G or H, in `CopyFirst` and
/// `Opening` something else than the copy that is asked for, by T, C, I, G or H, and in `Copied` whatever begins a segment: these are lawful, and not awaited. Whatever stands nowhere here is
/// refused.
#[derive(Clone, Copy, Debug, PartialEq, Eq)]
pub enum Part {
    /// The first segment of a query.
    First,
    /// A further segment, or the end.
    Further,
    /// Rows of so many values, and then the end of the segment.
    Rows(usize),
    /// The end alone, which answers a Sync.
    Synced,
    /// That the statement is prepared.
    Parsing,
    /// The types of its parameters.
    Typing,
    /// Its columns, or that it has none.
    Describing,
    /// The end; so many columns were described.
    Described(usize),
    /// That the statement is prepared once more, which is run then.
    Reparsing,
    /// That the statement is bound. Its rows have so many values, where that is known.
    Binding(Option<usize>),
    /// The first row, or the end of the rows.
    Running(Option<usize>),
    /// A further row, of so many values, or the end of the rows.
    RunningOn(usize),
    /// That the portal or a statement is closed, and behind it so many more.
    Closing(usize),
    /// A copy to the client.
    CopyFirst,
    /// Its data, or that it has come to its end.
    CopyData,
    /// The end of the statement that copied.
    CopyEnd,
    /// The end, behind a copy.
    Copied,
    /// That data of a copy from the client is awaited. It tells whether all is sent.
    Opening(bool),
    /// The data; behind all of it the end of the statement that copied.
    Feeding(bool),
}

// That so many statements are closed, and the end.
fn closing(count: usize) -> Part
    ensures { result ≡ closing count }
{
    match count {
        0 => Part::Synced,
        _ => Part::Closing(count - 1),
    }
}

impl Part {
    /// What a call awaits first.
    pub fn first(request: &Request) -> Self
        ensures { result ≡ awaits_first request.now }
    {
        match request {
            Request::Describe(_) => Part::Parsing,
            Request::Run(bound) => match &bound.again {
                Some(_) => Part::Reparsing,
                None => Part::Binding(bound.width()),
            },
            Request::Evict(_) => Part::Closing(0),
            Request::Clear(statements) => closing(statements.len()),
            Request::Prepare(_) | Request::Ping | Request::Flush | Request::Close => Part::Synced,
            Request::CopyOut(_) => Part::CopyFirst,
            Request::CopyIn(feed) => Part::Opening(feed.is_ended),
            _ => Part::First,
        }
    }

    /// Whether a message of this tag is awaited.
    pub(crate) fn awaits(self, tag: u8) -> bool
        ensures { result ≡ is_known (tags_of self) tag }
    {
        match self {
            Part::First => matches!(tag, b'T' | b'C' | b'I' | b'E'),
            Part::Further => matches!(tag, b'T' | b'C' | b'I' | b'E' | b'Z'),
            Part::Rows(_) => matches!(tag, b'D' | b'C' | b'E'),
            Part::Synced | Part::Described(_) | Part::Copied => matches!(tag, b'E' | b'Z'),
            Part::Parsing | Part::Reparsing => matches!(tag, b'1' | b'E'),
            Part::Typing => matches!(tag, b't' | b'E'),
            Part::Describing => matches!(tag, b'T' | b'n' | b'E'),
            Part::Binding(_) => matches!(tag, b'2' | b'E'),
            Part::Running(_) | Part::RunningOn(_) => matches!(tag, b'D' | b'C' | b'I' | b'E'),
            Part::Closing(_) => matches!(tag, b'3' | b'E'),
            Part::CopyFirst => matches!(tag, b'H' | b'E'),
            Part::CopyData => matches!(tag, b'd' | b'c' | b'E'),
            Part::CopyEnd | Part::Feeding(true) => matches!(tag, b'C' | b'E'),
            Part::Opening(_) => matches!(tag, b'G' | b'E'),
            Part::Feeding(false) => matches!(tag, b'E'),
        }
    }

    /// Whether a message of this tag may come, which is not awaited.
    pub(crate) fn strays(self, tag: u8) -> bool
        ensures { result ≡ is_known (stray_tags self) tag }
    {
        match self {
            Part::First | Part::Further | Part::Running(_) => matches!(tag, b'G' | b'H'),
            Part::CopyFirst => matches!(tag, b'T' | b'C' | b'I' | b'G'),
            Part::Opening(_) => matches!(tag, b'T' | b'C' | b'I' | b'H'),
            Part::Copied => matches!(tag, b'T' | b'C' | b'I' | b'G' | b'H'),
            _ => false,
        }
    }

    // Behind a row of so many values; None where none may come.
    pub(crate) fn after_row(self, width: usize) -> Option<Part>
        ensures { result ≡ after_row self width }
    {
        match self {
            Part::Rows(columns) if width == columns => Some(self),
            Part::Running(None) => Some(Part::RunningOn(width)),
            Part::Running(Some(columns)) if width == columns => Some(Part::RunningOn(columns)),
            Part::RunningOn(columns) if width == columns => Some(self),
            _ => None,
        }
    }

    // The same of a row that has as many values as this body claims.
    pub(crate) fn after_claimed(self, body: &[u8]) -> Option<Part>
        ensures { (values : Values) → Says 68 body.now (backend.DataRow values) → result ≡ after_row self (length values) }
    {
        match claimed_width(body) {
            Some(width) => self.after_row(usize::from(width)),
            None => None,
        }
    }

    /// Behind the description of so many columns.
    pub(crate) fn after_columns(self, columns: usize) -> Part
        ensures { result ≡ after_columns self columns }
    {
        match self {
            Part::Describing => Part::Described(columns),
            _ => Part::Rows(columns),
        }
    }

    // Behind ParseComplete.
    fn after_parse(self) -> Part
        ensures { result ≡ after_parse self }
    {
        match self {
            Part::Reparsing => Part::Binding(None),
            _ => Part::Typing,
        }
    }

    // Behind BindComplete.
    fn after_bind(self) -> Part
        ensures { result ≡ after_bind self }
    {
        match self {
            Part::Binding(width) => Part::Running(width),
            _ => self,
        }
    }

    // Behind CloseComplete.
    fn after_close(self) -> Part
        ensures { result ≡ after_close self }
    {
        match self {
            Part::Closing(more) => closing(more),
            _ => self,
        }
    }

    // Behind CopyInResponse.
    fn after_opening(self) -> Part
        ensures { result ≡ after_opening self }
    {
        match self {
            Part::Opening(ended) => Part::Feeding(ended),
            _ => self,
        }
    }

    /// Behind the end of a statement.
    pub(crate) fn after_end(self) -> Part
        ensures { result ≡ after_end self }
    {
        match self {
            Part::Running(_) | Part::RunningOn(_) => Part::Closing(0),
            Part::CopyEnd | Part::Feeding(_) => Part::Copied,
            _ => Part::Further,
        }
    }
}

/// What a message tells of the rows of a reply.
#[derive(Drop)]
pub enum News {
    Nothing,
    /// The columns of the rows to come.
    Columns(PgColumns),
    /// The types of parameters.
    Parameters(Oids),
    Row(DataRow),
    /// The rows that a statement counts.
    Count(PgQueryResult),
    /// Some data of a copy.
    Piece(Blob),
    /// The formats of the data that the client is to send.
    Opens(CopyResponseData),
}

/// What one message is to a reply.
#[derive(Drop)]
pub enum Verdict {
    /// The reply goes on, and this came with the message.
    On { part: Part, news: News },
    Failed(PgDatabaseError),
    Closed(TransactionStatus),
    /// Another reply comes than the one that is awaited.
    Strays,
}

// The reply goes on by a message of which nothing is kept.
fn go_on(part: Part) -> Verdict
    ensures { result ≡ goes_plainly part }
{
    Verdict::On {
        part,
        news: News::Nothing,
    }
}

// The columns of the rows to come.
fn describe(alloc: Global, part: Part, body: &[u8]) -> Result<Verdict, Error>
    requires { is_known (tags_of part) 84 ≡ true }
    ensures { Judges part 84 body.now result }
{
    let description = decode_row_description(alloc, body)?;
    let width = description.len();
    let columns = PgColumns::described(alloc, description)?;
    Ok(Verdict::On {
        part: part.after_columns(width),
        news: News::Columns(columns),
    })
}

// A statement without columns.
fn describe_none(part: Part, body: &[u8]) -> Result<Verdict, Error>
    requires { is_known (tags_of part) 110 ≡ true }
    ensures { Judges part 110 body.now result }
{
    decode_no_data(body)?;
    Ok(go_on(Part::Described(0)))
}

// The types of a statement's parameters.
fn type_parameters(alloc: Global, part: Part, body: &[u8]) -> Result<Verdict, Error>
    requires { is_known (tags_of part) 116 ≡ true }
    ensures { Judges part 116 body.now result }
{
    let types = decode_parameter_description(alloc, body)?;
    Ok(Verdict::On {
        part: Part::Describing,
        news: News::Parameters(types),
    })
}

fn parse(part: Part, body: &[u8]) -> Result<Verdict, Error>
    requires { is_known (tags_of part) 49 ≡ true }
    ensures { Judges part 49 body.now result }
{
    let _ = decode_parse_complete(body)?;
    Ok(go_on(part.after_parse()))
}

fn bind(part: Part, body: &[u8]) -> Result<Verdict, Error>
    requires { is_known (tags_of part) 50 ≡ true }
    ensures { Judges part 50 body.now result }
{
    decode_bind_complete(body)?;
    Ok(go_on(part.after_bind()))
}

fn be_closed(part: Part, body: &[u8]) -> Result<Verdict, Error>
    requires { is_known (tags_of part) 51 ≡ true }
    ensures { Judges part 51 body.now result }
{
    decode_close_complete(body)?;
    Ok(go_on(part.after_close()))
}

// The end of a statement, which counts its rows.
fn complete(part: Part, body: &[u8]) -> Result<Verdict, Error>
    requires { is_known (tags_of part) 67 ≡ true }
    ensures { Judges part 67 body.now result }
{
    let complete = decode_command_complete(body)?;
    Ok(Verdict::On {
        part: part.after_end(),
        news: News::Count(PgQueryResult::new(complete.rows_affected())),
    })
}

fn be_empty(part: Part, body: &[u8]) -> Result<Verdict, Error>
    requires { is_known (tags_of part) 73 ≡ true }
    ensures { Judges part 73 body.now result }
{
    decode_empty_query(body)?;
    Ok(go_on(part.after_end()))
}

// A row, which has as many values as its description has fields.
fn row(alloc: Global, part: Part, body: &[u8]) -> Result<Verdict, Error>
    ensures { Judges part 68 body.now result }
{
    let row = decode_data_row(alloc, body)?;
    match part.after_row(row.len()) {
        Some(part) => Ok(Verdict::On {
            part,
            news: News::Row(row),
        }),
        None => Err(refuse(alloc, b'D', body)),
    }
}

/// The same of columns of which nothing is kept: what is awaited behind them, or the server's fault, or want of memory.
pub fn pass_columns(alloc: Global, part: Part, body: &[u8]) -> Result<Part, Error>
    requires { is_known (stray_tags part) 84 ≡ false }
    ensures { PassesColumns part body.now result }
{
    if !part.awaits(b'T') {
        return Err(refuse(alloc, b'T', body));
    }
    let width = check_row_description(body)?;
    Ok(part.after_columns(usize::from(width)))
}

/// The same of a row of which nothing is kept: what is awaited behind it, or the server's fault, or want of memory.
pub fn pass_row(alloc: Global, part: Part, body: &[u8]) -> Result<Part, Error>
    ensures { PassesRow part body.now result }
{
    let width = check_data_row(body)?;
    match part.after_row(usize::from(width)) {
        Some(part) => Ok(part),
        None => Err(refuse(alloc, b'D', body)),
    }
}

/// What is awaited behind a row of which nothing is kept, where it may come.
#[tactic(auto, using(crate::proofs::PlaceLaws::row_goes))]
pub(crate) fn row_passed(part: Part, body: &[u8]) -> Option<Part>
    ensures { IfSome result (λ next. PassesRow part body.now (Ok next)) }
{
    match check_data_row(body) {
        Ok(width) => part.after_row(usize::from(width)),
        Err(_) => None,
    }
}

/// What a row is to the reply that has come so far, which is cut from its frame.
pub fn judge_row(alloc: Global, part: Part, frame: Frame) -> Result<Verdict, Error>
    ensures { Judges part 68 frame.body result }
{
    match part.after_claimed(frame.body()) {
        Some(part) => {
            let row = cut_data_row(alloc, frame)?;
            Ok(Verdict::On {
                part,
                news: News::Row(row),
            })
        }
        None => Err(refuse(alloc, b'D', frame.body())),
    }
}

fn fail(alloc: Global, part: Part, body: &[u8]) -> Result<Verdict, Error>
    ensures { Judges part 69 body.now result }
{
    Ok(Verdict::Failed(decode_error_response(alloc, body)?))
}

fn close(part: Part, body: &[u8]) -> Result<Verdict, Error>
    requires { is_known (tags_of part) 90 ≡ true }
    ensures { Judges part 90 body.now result }
{
    let status = decode_ready_for_query(body)?;
    Ok(Verdict::Closed(status))
}

// A copy from the client is open.
fn open(alloc: Global, part: Part, body: &[u8]) -> Result<Verdict, Error>
    requires { is_known (tags_of part) 71 ≡ true }
    ensures { Judges part 71 body.now result }
{
    let data = decode_copy_in_response(alloc, body)?;
    Ok(Verdict::On {
        part: part.after_opening(),
        news: News::Opens(data),
    })
}

// A copy to the client begins.
fn begin_copy(alloc: Global, part: Part, body: &[u8]) -> Result<Verdict, Error>
    requires { is_known (tags_of part) 72 ≡ true }
    ensures { Judges part 72 body.now result }
{
    let _ = decode_copy_out_response(alloc, body)?;
    Ok(go_on(Part::CopyData))
}

// Some data of it.
fn copy(alloc: Global, part: Part, body: &[u8]) -> Result<Verdict, Error>
    requires { is_known (tags_of part) 100 ≡ true }
    ensures { Judges part 100 body.now result }
{
    let piece = decode_copy_data(alloc, body)?;
    Ok(Verdict::On {
        part: Part::CopyData,
        news: News::Piece(piece),
    })
}

// All of its data has come.
fn end_copy(part: Part, body: &[u8]) -> Result<Verdict, Error>
    requires { is_known (tags_of part) 99 ≡ true }
    ensures { Judges part 99 body.now result }
{
    decode_copy_done(body)?;
    Ok(go_on(Part::CopyEnd))
}

// Another reply than the one that is awaited.
fn stray(alloc: Global, part: Part, tag: u8, body: &[u8]) -> Result<Verdict, Error>
    requires { is_known (stray_tags part) tag ≡ true }
    ensures { Judges part tag body.now result }
{
    check_message(alloc, tag, body)?;
    Ok(Verdict::Strays)
}

/// What the message is to the reply that has come so far. An `Err` is the server's fault, or want of memory.
pub fn judge(alloc: Global, part: Part, tag: u8, body: &[u8]) -> Result<Verdict, Error>
    ensures { Judges part tag body.now result }
{
    if part.strays(tag) {
        return stray(alloc, part, tag, body);
    }
    if !part.awaits(tag) {
        return Err(refuse(alloc, tag, body));
    }
    match tag {
        b'T' => describe(alloc, part, body),
        b'n' => describe_none(part, body),
        b't' => type_parameters(alloc, part, body),
        b'1' => parse(part, body),
        b'2' => bind(part, body),
        b'3' => be_closed(part, body),
        b'C' => complete(part, body),
        b'I' => be_empty(part, body),
        b'D' => row(alloc, part, body),
        b'E' => fail(alloc, part, body),
        b'Z' => close(part, body),
        b'G' => open(alloc, part, body),
        b'H' => begin_copy(alloc, part, body),
        b'd' => copy(alloc, part, body),
        b'c' => end_copy(part, body),
        _ => Err(refuse(alloc, tag, body)),
    }
}
