ghost use Rattle.std.specs.Prelude.{◌≡◌, map, option_map, IfOk};
ghost use Rattle.pg_arguments.specs.Types.{TypeParts};
ghost use Rattle.pg_arguments.specs.Builtin.{builtin_types, first_under, builtin_type, type_under, under, single_of};
ghost use Rattle.pg_arguments.specs.BuiltinRows.{shown};

use crate::type_info::{PgTypeInfo, PgTypeKind, array_name, made};
use pg_wire::{Oid, Text};
use std::alloc::{AllocError, Global};

// A built-in type, and the OID of the array type over it, 0 where that is not known.
struct Builtin {
    oid: u32,
    name: &'static str,
    array: u32,
}

static TYPES: [Builtin; 29] = [
    Builtin {
        oid: 16,
        name: "BOOL",
        array: 1000,
    },
    Builtin {
        oid: 17,
        name: "BYTEA",
        array: 1001,
    },
    Builtin {
        oid: 18,
        name: "\"CHAR\"",
        array: 1002,
    },
    Builtin {
        oid: 19,
        name: "NAME",
        array: 1003,
    },
    Builtin {
        oid: 20,
        name: "INT8",
        array: 1016,
    },
    Builtin {
        oid: 21,
        name: "INT2",
        array: 1005,
    },
    Builtin {
        oid: 23,
        name: "INT4",
        array: 1007,
    },
    Builtin {
        oid: 25,
        name: "TEXT",
        array: 1009,
    },
    Builtin {
        oid: 26,
        name: "OID",
        array: 1028,
    },
    Builtin {
        oid: 114,
        name: "JSON",
        array: 199,
    },
    Builtin {
        oid: 700,
        name: "FLOAT4",
        array: 1021,
    },
    Builtin {
        oid: 701,
        name: "FLOAT8",
        array: 1022,
    },
    Builtin {
        oid: 705,
        name: "UNKNOWN",
        array: 0,
    },
    Builtin {
        oid: 790,
        name: "MONEY",
        array: 0,
    },
    Builtin {
        oid: 1042,
        name: "CHAR",
        array: 1014,
    },
    Builtin {
        oid: 1043,
        name: "VARCHAR",
        array: 1015,
    },
    Builtin {
        oid: 1082,
        name: "DATE",
        array: 1182,
    },
    Builtin {
        oid: 1083,
        name: "TIME",
        array: 1183,
    },
    Builtin {
        oid: 1114,
        name: "TIMESTAMP",
        array: 1115,
    },
    Builtin {
        oid: 1184,
        name: "TIMESTAMPTZ",
        array: 1185,
    },
    Builtin {
        oid: 1186,
        name: "INTERVAL",
        array: 0,
    },
    Builtin {
        oid: 1266,
        name: "TIMETZ",
        array: 0,
    },
    Builtin {
        oid: 1560,
        name: "BIT",
        array: 0,
    },
    Builtin {
        oid: 1562,
        name: "VARBIT",
        array: 0,
    },
    Builtin {
        oid: 1700,
        name: "NUMERIC",
        array: 1231,
    },
    Builtin {
        oid: 2249,
        name: "RECORD",
        array: 2287,
    },
    Builtin {
        oid: 2278,
        name: "VOID",
        array: 0,
    },
    Builtin {
        oid: 2950,
        name: "UUID",
        array: 2951,
    },
    Builtin {
        oid: 3802,
        name: "JSONB",
        array: 3807,
    },
];

fn types() -> &'static [Builtin]
    ensures { map shown result.now ≡ builtin_types }
{
    &TYPES
}

// The type of a row.
fn single(alloc: Global, row: &Builtin) -> Result<PgTypeInfo, AllocError>
    ensures { IfOk result (λ t. t ≡ single_of (shown row.now)) }
{
    let name = Text::from_str(alloc, row.name)?;
    let kind = if row.oid == 2278 {
        PgTypeKind::Pseudo
    } else {
        PgTypeKind::Simple
    };
    made(alloc, Some(Oid(row.oid)), name, 0, kind)
}

// The type that a row has under an OID, its own or that of arrays over it.
fn under(alloc: Global, oid: u32, row: &Builtin) -> Result<Option<PgTypeInfo>, AllocError>
    ensures { IfOk result (λ t. t ≡ under oid (shown row.now)) }
{
    if row.oid == oid {
        return Ok(Some(single(alloc, row)?));
    }
    if row.array == oid {
        let name = array_name(alloc, row.name)?;
        let kind = PgTypeKind::Array(single(alloc, row)?);
        return Ok(Some(made(alloc, Some(Oid(oid)), name, 0, kind)?));
    }
    Ok(None)
}

fn first_under(alloc: Global, oid: u32, rows: &[Builtin]) -> Result<Option<PgTypeInfo>, AllocError>
    ensures { IfOk result (λ t. t ≡ first_under oid (map shown rows.now)) }
{
    for row in rows {
        if let Some(of) = under(alloc, oid, row)? {
            return Ok(Some(of));
        }
    }
    Ok(None)
}

impl PgTypeInfo {
    /// The built-in type that has this OID, if there is one.
    pub fn builtin(alloc: Global, oid: Oid) -> Result<Option<Self>, AllocError>
        ensures { IfOk result (λ t. t ≡ builtin_type oid) }
    {
        if oid.0 == 0 {
            return Ok(None);
        }
        first_under(alloc, oid.0, types())
    }

    /// The built-in type that has this OID, or else the type of which only the OID is told.
    pub fn under_oid(alloc: Global, oid: Oid) -> Result<Self, AllocError>
        ensures { IfOk result (λ t. t ≡ type_under oid) }
    {
        match PgTypeInfo::builtin(alloc, oid)? {
            Some(of) => Ok(of),
            None => PgTypeInfo::with_oid(alloc, oid),
        }
    }
}
