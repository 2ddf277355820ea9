ghost use Rattle.std.specs.Prelude.{◌≡◌, ◌-◌, ◌*◌, ◌^◌, ◌<◌, ◌≤◌, ◌++◌, Err, min, string_bytes, decimal, OnOk, OnErr, IfOk, IfErr};
ghost use Rattle.pg_wire.specs.declared.error.Error.TheVariants as errors;
ghost use Rattle.pg_wire.specs.declared.error.ProtocolFault.TheVariants as faults;
ghost use Rattle.pg_wire.specs.declared.error.CallerFault.TheVariants as callers;
ghost use Rattle.pg_resolve.specs.Nullable.{more_column, more_columns, nullable_text, RefusesColumns};

use pg_wire::{CallerFault, Error, ProtocolFault, Text};
use std::alloc::{AllocError, Global};

// A column behind the first one, by the numbers of its three arguments.
#[tactic(auto, unfolding(crate::specs::Nullable::more_column))]
fn push_column(out: &mut String, place: usize) -> Result<(), AllocError>
    requires { place < 21845 }
    ensures { OnOk result (string_bytes out.new ≡ string_bytes out.old ++ more_column place) }
{
    let first = 3 * place;
    write!(
        out,
        "UNION ALL ( SELECT ${}::int4, ${}::int4, ${}::int2 ) ",
        first + 1,
        first + 2,
        first + 3
    )
}

// The text of a query over so many columns, between the first one and what stands behind the last.
fn text_of(alloc: Global, start: &str, columns: usize, end: &str) -> Result<Text, AllocError>
    requires some { 0 < columns }
    requires few { columns ≤ 21845 }
    ensures { IfOk result (λ text. text ≡ start.now ++ more_columns (columns - 1) ++ end.now) }
{
    let mut out = String::from_str(alloc, start)?;
    for place in 1..columns {
        push_column(&mut out, place)?;
    }
    out.push_str(end)?;
    Ok(Text::from_string(out))
}

/// The query that asks the catalog of so many columns whether they may be null, in their order. The arguments of each column are its
/// index as int4, its table as oid and its attribute as int2, null where there is none. More than 21845 columns, with more than 65535
/// arguments, are `TooMany`.
#[tactic(auto, unfolding(crate::specs::Nullable::nullable_start, crate::specs::Nullable::nullable_end))]
pub fn nullable_query(alloc: Global, columns: usize) -> Result<Text, Error>
    requires { 0 < columns }
    ensures text { IfOk result (λ text. text ≡ nullable_text columns) }
    ensures few { OnOk result (columns * 3 ≤ 65535) }
    ensures refused { IfErr result (RefusesColumns columns) }
{
    if columns > 21845 {
        let count = (columns as u64).saturating_mul(3);
        return Err(Error::Protocol(ProtocolFault::Caller(CallerFault::TooMany { count })));
    }
    let text = text_of(
        alloc,
        "SELECT NOT attnotnull FROM ( ( SELECT $1::int4 AS idx, $2::int4 AS table_id, $3::int2 AS col_idx ) ",
        columns,
        ") AS col LEFT JOIN pg_catalog.pg_attribute ON table_id IS NOT NULL AND attrelid = table_id AND attnum = col_idx ORDER BY idx",
    )?;
    Ok(text)
}
