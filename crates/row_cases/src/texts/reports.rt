use crate::row::blob;
use crate::telling::push;
use crate::texts::told::push_error;
use pg_columns::PgColumns;
use pg_report::{Answer, End, Item, Outcome, Started, report};
use pg_request::CacheStep;
use pg_wire::{
    Blob, Error, IoCause, Oid, Oids, ProtocolFault, Sequence, ServerFault, decode_data_row,
    decode_row_description,
};
use std::alloc::Global;

fn outcome(items: Sequence<Item>, cache: CacheStep, end: End) -> Outcome {
    Outcome {
        items,
        end,
        groups: 1,
        heard: 2,
        cache,
        waits: 3,
        moved: 4,
    }
}

fn bare(alloc: Global, cache: CacheStep, end: End) -> Outcome {
    outcome(Sequence::new(alloc), cache, end)
}

// Two columns, as a RowDescription tells them.
const TWO_COLUMNS: [u8; 42] =
    *b"\x00\x02a\x00\x00\x00\x00\x00\x00\x00\x00\x00\x00\x17\x00\x04\xff\xff\xff\xff\x00\x00b\x00\x00\x00\x00\x00\x00\x00\x00\x00\x00\x19\xff\xff\xff\xff\xff\xff\x00\x00";

fn two_columns(alloc: Global) -> Result<PgColumns, Error> {
    let description = decode_row_description(alloc, &TWO_COLUMNS)?;
    Ok(PgColumns::described(alloc, description)?)
}

fn described(parameters: Vec<Oid>, fields: PgColumns) -> End {
    End::Ok(Answer::Described {
        parameters: Oids::from_vec(parameters),
        fields,
    })
}

fn two_described(alloc: Global, fields: PgColumns) -> End {
    let mut parameters = Vec::new(alloc);
    let _ = parameters.push(Oid(23));
    let _ = parameters.push(Oid(25));
    described(parameters, fields)
}

// A row of a null, of no bytes and of two bytes.
const THREE_VALUES: [u8; 16] = *b"\x00\x03\xff\xff\xff\xff\x00\x00\x00\x00\x00\x00\x00\x02\x07\xfa";

fn push_row(alloc: Global, items: &mut Sequence<Item>, body: &[u8]) {
    match decode_data_row(alloc, body) {
        Ok(row) => {
            let _ = items.push(Item::Row(row));
        }
        Err(error) => drop(error),
    }
}

fn items(alloc: Global) -> Sequence<Item> {
    let mut items = Sequence::new(alloc);
    push_row(alloc, &mut items, &THREE_VALUES);
    push_row(alloc, &mut items, b"\x00\x00");
    let _ = items.push(Item::Count(12));
    let _ = items.push(Item::Piece(blob(alloc, b"Q")));
    let _ = items.push(Item::Piece(Blob::new(alloc)));
    items
}

fn push_report(
    told: &mut String,
    alloc: Global,
    start: &Result<Started, Error>,
    outcomes: &[Outcome],
    sent: &[u8],
) {
    if let Ok(lines) = report(alloc, start, outcomes, sent) {
        push(told, lines.as_str());
    }
}

fn push_played(told: &mut String, alloc: Global, two: End) {
    let same = CacheStep::Same;
    let outcomes = [
        outcome(items(alloc), same, End::Ok(Answer::Total(1))),
        bare(alloc, CacheStep::Hit, End::Ok(Answer::Unit)),
        bare(alloc, CacheStep::Put, two),
        bare(
            alloc,
            CacheStep::PutEvicting,
            described(Vec::new(alloc), PgColumns::none()),
        ),
        bare(alloc, same, End::Ok(Answer::Held(true))),
        bare(alloc, same, End::Ok(Answer::Held(false))),
        bare(alloc, same, End::Dropped),
        bare(alloc, same, End::Err(Error::Io(IoCause::End))),
    ];
    let start = Ok(Started { sent: 90, read: 15 });
    push_report(told, alloc, &start, &outcomes, b"Q\x00\xff");
    drop(start);
}

// A report of all that can be played.
pub(crate) fn reported(told: &mut String, alloc: Global) {
    match two_columns(alloc) {
        Ok(fields) => push_played(told, alloc, two_described(alloc, fields)),
        Err(error) => push_error(told, error),
    }
}

pub(crate) fn refused_start(told: &mut String, alloc: Global) {
    let fault = ServerFault::Unlawful { tag: b'R' };
    let start = Err(Error::Protocol(ProtocolFault::Server(fault)));
    push_report(told, alloc, &start, &[], b"");
    drop(start);
}
