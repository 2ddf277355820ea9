ghost use Rattle.std.specs.Prelude.{◌≡◌, ◌≢◌, [], IsSome, None, true, false, filter, IfOk, IfErr, IfSome, OnOk, OnErr};
ghost use Rattle.pg_wire.specs.Backend.{BackendMessage};
ghost use Rattle.pg_call.specs.declared.kind.How.TheVariants as hows;
ghost use Rattle.pg_call.specs.declared.kind.Kind.TheVariants as kinds;
ghost use Rattle.pg_call.specs.Items.{added, finished, item_by, keeps_row, shown_if, shows_rows, yields};
ghost use Rattle.pg_call.specs.Replies.{IsFault, IsVerdict, MayNotCome, list_of};
ghost use Rattle.pg_call.specs.Hearing.{Hears, HearsMessage, HearsNews, Opens, Shows, fed_part, opens_at, gone_on, handed_on};

use crate::judging::{judge_row, pass_columns, pass_row, row_passed};
use crate::{
    Beat, CallAnswer, CallItem, How, Kind, News, Part, Request, Rest, Tally, Verdict, judge,
};
use pg_columns::PgColumns;
use pg_rows::{Heading, PgRow};
use pg_wire::{
    CopyResponseData, DataRow, Error, Frame, Oids, PgDatabaseError, TransactionStatus,
    cut_data_row, decode_command_complete, decode_ready_for_query, decode_row_description,
};
use std::alloc::{AllocError, Global};

/// The call's own reply, as far as it has come.
pub struct Reply {
    pub kind: Kind,
    pub tally: Tally,
    /// What is awaited.
    pub part: Part,
    /// What comes of it at its end.
    pub rest: Rest,
    /// The heading of its next rows.
    pub heading: Heading,
    /// The types of parameters that were described.
    pub parameters: Oids,
}

// By hand, so that whoever lets one go makes one call, and doesn't go through its parts.
impl Drop for Reply {
    fn drop(self) {
        let Reply {
            kind: _,
            tally: _,
            part: _,
            rest: _,
            heading: _,
            parameters: _,
        } = self;
    }
}

/// What one message made of the reply.
#[derive(Drop)]
pub enum Heard {
    More,
    Yields(CallItem),
    Failed(PgDatabaseError),
    Closed(TransactionStatus),
    /// The server awaits the data of a copy from the client.
    Opens(CopyResponseData),
    /// Another reply comes than the one that is awaited.
    Strays,
}

// What is told of a copy from the client: that it is open, where its data is awaited.
fn opened(part: Part, told: CopyResponseData) -> Heard
    ensures opens { Opens (opens_at part (News.Opens told)) result }
    ensures shows { Shows [] result }
{
    match part {
        Part::Feeding(false) => Heard::Opens(told),
        _ => Heard::More,
    }
}

impl Reply {
    // One more item, which is shown at once, kept for the answer, or dropped.
    fn add(&mut self, item: CallItem) -> Result<Option<CallItem>, Error>
        ensures ok { IfOk result (λ shown. (self.new ≡ record self.old { tally = added self.old.kind self.old.tally item }) × (shown ≡ shown_if (yields self.old.kind item) item)) }
        ensures err { IfErr result (λ e. (e ≡ Error.OutOfMemory) × (self.new ≡ self.old)) }
    {
        let shown = self.tally.add(self.kind, item)?;
        Ok(shown)
    }

    // The same of a row, which comes under the present heading.
    fn add_row(&mut self, values: DataRow) -> Result<Option<CallItem>, Error>
        ensures ok { IfOk result (λ shown. (self.new ≡ record self.old { tally = added self.old.kind self.old.tally (CallItem.Row (record { values = values; heading = self.old.heading })) })
            × (shown ≡ shown_if (yields self.old.kind (CallItem.Row (record { values = values; heading = self.old.heading }))) (CallItem.Row (record { values = values; heading = self.old.heading })))) }
        ensures err { IfErr result (λ e. (e ≡ Error.OutOfMemory) × (self.new ≡ self.old)) }
    {
        let heading = self.heading.share()?;
        self.add(CallItem::Row(PgRow::new(values, heading)))
    }

    // What a message tells is added to the reply.
    fn tell(&mut self, news: News) -> Result<Option<CallItem>, Error>
        ensures ok { IfOk result (λ shown. (self.new ≡ gone_on self.old self.old.part news) × (list_of shown ≡ filter (yields self.old.kind) (item_by self.old.heading news))) }
        ensures err { IfErr result (λ e. (e ≡ Error.OutOfMemory) × (self.new ≡ self.old)) }
    {
        match news {
            News::Nothing | News::Opens(_) => Ok(None),
            News::Columns(columns) => {
                if self.heading.columns.is_some() {
                    self.heading.columns = Some(columns);
                }
                Ok(None)
            }
            News::Parameters(types) => {
                self.parameters = types;
                Ok(None)
            }
            News::Row(values) => self.add_row(values),
            News::Count(count) => self.add(CallItem::Count(count)),
            News::Piece(piece) => self.add(CallItem::Piece(piece)),
        }
    }

    // The reply goes on, perhaps by an item.
    fn go_on(&mut self, part: Part, news: News) -> Result<Heard, Error>
        ensures ok { IfOk result (HearsNews self.old self.new part news) }
        ensures err { IfErr result (λ e. (e ≡ Error.OutOfMemory) × (self.new ≡ self.old)) }
    {
        if let News::Opens(data) = news {
            self.part = part;
            return Ok(opened(part, data));
        }
        let shown = self.tell(news)?;
        self.part = part;
        match shown {
            Some(item) => Ok(Heard::Yields(item)),
            None => Ok(Heard::More),
        }
    }

    // What a message that may come makes of the reply.
    fn hear(&mut self, verdict: Verdict) -> Result<Heard, Error>
        ensures ok { IfOk result (λ heard. (m : BackendMessage) → IsVerdict self.old.part m verdict → HearsMessage self.old self.new m heard) }
        ensures err { IfErr result (λ e. (e ≡ Error.OutOfMemory) × (self.new ≡ self.old)) }
    {
        match verdict {
            Verdict::On { part, news } => self.go_on(part, news),
            Verdict::Failed(error) => Ok(Heard::Failed(error)),
            Verdict::Closed(status) => Ok(Heard::Closed(status)),
            Verdict::Strays => Ok(Heard::Strays),
        }
    }

    // All of the data of its copy is sent.
    pub(crate) fn end_feed(&mut self)
        ensures { self.new ≡ record self.old { part = fed_part self.old.part } }
    {
        if let Part::Feeding(_) = self.part {
            self.part = Part::Feeding(true);
        }
    }

    /// Whether a row that comes now is shown or kept.
    pub fn keeps_rows(&self) -> bool
        ensures { result ≡ keeps_row self.now.kind self.now.tally.first }
    {
        match self.kind {
            Kind::Run(How::Fetch | How::FetchMany | How::FetchAll) => true,
            Kind::Run(How::FetchOptional | How::FetchOne) => self.tally.first.is_none(),
            _ => false,
        }
    }

    /// Takes one message that is no asynchronous one. An `Err` leaves the reply as it is: it is the server's fault, or want of
    /// memory.
    pub fn take(&mut self, alloc: Global, tag: u8, body: &[u8]) -> Result<Heard, Error>
        ensures ok { IfOk result (Hears self.old self.new tag body.now) }
        ensures err { IfErr result (IsFault (MayNotCome self.old.part) tag body.now) }
    {
        if tag == b'D' && !self.keeps_rows() {
            self.part = pass_row(alloc, self.part, body)?;
            return Ok(Heard::More);
        }
        if tag == b'T' && self.heading.columns.is_none() && !self.part.strays(b'T') {
            self.part = pass_columns(alloc, self.part, body)?;
            return Ok(Heard::More);
        }
        let verdict = judge(alloc, self.part, tag, body)?;
        self.hear(verdict)
    }

    /// The same of a row of which nothing is kept, where it may come: whether it does. Else nothing has changed.
    #[tactic(auto, using(crate::proofs::RowLaws::passes_row))]
    pub(crate) fn passes_row(&mut self, body: &[u8]) -> bool
        ensures yes { result ≡ true → Hears self.old self.new 68 body.now Heard.More }
        ensures no { result ≡ false → self.new ≡ self.old }
        ensures rest { self.new.rest ≡ self.old.rest }
    {
        if self.keeps_rows() {
            return false;
        }
        match row_passed(self.part, body) {
            Some(part) => {
                self.part = part;
                true
            }
            None => false,
        }
    }

    // The end of a statement whose count is not shown at once.
    fn passes_end(&mut self, body: &[u8]) -> bool
        ensures yes { result ≡ true → Hears self.old self.new 67 body.now Heard.More }
        ensures no { result ≡ false → self.new ≡ self.old }
    {
        if self.kind.shows_counts() {
            return false;
        }
        if !self.part.awaits(b'C') {
            return false;
        }
        let Ok(complete) = decode_command_complete(body) else {
            return false;
        };
        self.tally.total = self.tally.total.saturating_add(complete.rows_affected());
        self.part = self.part.after_end();
        true
    }

    // Columns that somebody sees.
    fn keeps_columns(&mut self, alloc: Global, body: &[u8]) -> bool
        requires { IsSome self.old.heading.columns }
        ensures yes { result ≡ true → Hears self.old self.new 84 body.now Heard.More }
        ensures no { result ≡ false → self.new ≡ self.old }
    {
        if !self.part.awaits(b'T') {
            return false;
        }
        let Ok(description) = decode_row_description(alloc, body) else {
            return false;
        };
        let width = description.len();
        let Ok(columns) = PgColumns::described(alloc, description) else {
            return false;
        };
        self.part = self.part.after_columns(width);
        self.heading.columns = Some(columns);
        true
    }

    // Columns that nobody sees.
    fn passes_columns(&mut self, alloc: Global, body: &[u8]) -> bool
        requires { self.old.heading.columns ≡ None }
        ensures yes { result ≡ true → Hears self.old self.new 84 body.now Heard.More }
        ensures no { result ≡ false → self.new ≡ self.old }
    {
        if self.part.strays(b'T') {
            return false;
        }
        let Ok(part) = pass_columns(alloc, self.part, body) else {
            return false;
        };
        self.part = part;
        true
    }

    /// The same of columns, and of the end of a statement whose count is not shown at once.
    pub(crate) fn passes(&mut self, alloc: Global, tag: u8, body: &[u8]) -> bool
        ensures yes { result ≡ true → Hears self.old self.new tag body.now Heard.More }
        ensures no { result ≡ false → self.new ≡ self.old }
        ensures row { result ≡ true → tag ≢ 68 }
        ensures copy { result ≡ true → tag ≢ 71 }
    {
        match tag {
            b'C' => self.passes_end(body),
            b'T' if self.heading.columns.is_some() => self.keeps_columns(alloc, body),
            b'T' => self.passes_columns(alloc, body),
            _ => false,
        }
    }

    /// The status that its end tells, where it may end.
    pub(crate) fn closing(&self, body: &[u8]) -> Option<TransactionStatus>
        ensures { IfSome result (λ status. Hears self.now self.now 90 body.now (Heard.Closed status)) }
    {
        if !self.part.awaits(b'Z') {
            return None;
        }
        let Ok(status) = decode_ready_for_query(body) else {
            return None;
        };
        Some(status)
    }

    // One more row for the answer, where there is memory for it.
    fn keep(&mut self, values: DataRow) -> Result<(), AllocError>
        requires { self.old.kind ≡ kinds.Run hows.FetchAll }
        ensures ok { OnOk result (self.new ≡ record self.old { tally = added self.old.kind self.old.tally (CallItem.Row (record { values = values; heading = self.old.heading })) }) }
        ensures err { OnErr result (self.new ≡ self.old) }
    {
        let heading = self.heading.share()?;
        self.tally.rows.push(PgRow::new(values, heading))
    }

    /// The same of a row that is kept for the answer with all others, where it may come and there is memory for it. It is cut from its frame.
    pub(crate) fn keeps_row(&mut self, alloc: Global, frame: Frame) -> bool
        requires { self.old.kind ≡ kinds.Run hows.FetchAll }
        ensures yes { result ≡ true → Hears self.old self.new 68 frame.body Heard.More }
        ensures no { result ≡ false → self.new ≡ self.old }
        ensures rest { self.new.rest ≡ self.old.rest }
    {
        let Ok(values) = cut_data_row(alloc, frame) else {
            return false;
        };
        let Some(part) = self.part.after_row(values.len()) else {
            return false;
        };
        match self.keep(values) {
            Ok(()) => {
                self.part = part;
                true
            }
            Err(_) => false,
        }
    }

    /// The same of a row that is shown at once, and handed out: none of it stays.
    pub(crate) fn shows_row(&mut self, alloc: Global, frame: Frame) -> Option<PgRow>
        requires { shows_rows self.old.kind ≡ true }
        ensures shown { IfSome result (λ row. Hears self.old self.new 68 frame.body (Heard.Yields (CallItem.Row row))) }
        ensures none { result ≡ None → self.new ≡ self.old }
        ensures rest { self.new.rest ≡ self.old.rest }
    {
        let Ok(values) = cut_data_row(alloc, frame) else {
            return None;
        };
        let Some(next) = self.part.after_row(values.len()) else {
            return None;
        };
        let Ok(heading) = self.heading.share() else {
            return None;
        };
        self.part = next;
        Some(PgRow::new(values, heading))
    }

    /// What a row makes of the reply, which is cut from its frame.
    pub fn take_row(&mut self, alloc: Global, frame: Frame) -> Result<Heard, Error>
        ensures ok { IfOk result (Hears self.old self.new 68 frame.body) }
        ensures err { IfErr result (IsFault (MayNotCome self.old.part) 68 frame.body) }
    {
        let verdict = judge_row(alloc, self.part, frame)?;
        self.hear(verdict)
    }

    /// What the end of its reply comes to, which told this status: what the call answers, or what is asked next.
    pub fn finish(self, status: TransactionStatus) -> Beat
        ensures { result ≡ handed_on self.rest self.parameters self.heading.columns (finished self.kind self.tally status) }
    {
        let Reply {
            kind,
            tally,
            part: _,
            rest,
            heading,
            parameters,
        } = self;
        match rest {
            Rest::Nothing => Beat::Ends(tally.finish(kind, status)),
            Rest::Describe(extended) => {
                let next = extended.told(parameters, heading.columns);
                Beat::HandsOn(Request::Describe(next))
            }
            Rest::After(after) => Beat::HandsOn(after.request()),
            Rest::Look(extended) => Beat::HandsOn(Request::Describe(extended)),
            Rest::Fill(bound) => Beat::HandsOn(Request::Run(bound.looked_behind())),
            Rest::Tell(prepared) => Beat::Ends(Ok(CallAnswer::Statement(prepared))),
        }
    }
}
