//! The texts over a name, each written into a string of its own.

ghost use Rattle.std.specs.Prelude.{◌≡◌, ◌++◌, IfOk, OnOk, string_bytes};
ghost use Rattle.pg_migrating.specs.Texts.{text_of};

use pg_migrate::{
    put_create_database, put_create_schema, put_create_table, put_delete_row, put_dirty_version,
    put_drop_database, put_insert_row, put_list, put_update_time,
};
use std::alloc::{AllocError, Global};

/// A text over the name of a schema, of a table of migrations, or of a database.
#[derive(Clone, Copy)]
pub(crate) enum Wording {
    CreateSchema,
    CreateTable,
    DirtyVersion,
    List,
    InsertRow,
    UpdateTime,
    DeleteRow,
    CreateDatabase,
    DropDatabase,
}

fn put(out: &mut String, wording: Wording, name: &str) -> Result<(), AllocError>
    ensures { OnOk result (string_bytes out.new ≡ string_bytes out.old ++ text_of wording name.now) }
{
    match wording {
        Wording::CreateSchema => put_create_schema(out, name),
        Wording::CreateTable => put_create_table(out, name),
        Wording::DirtyVersion => put_dirty_version(out, name),
        Wording::List => put_list(out, name),
        Wording::InsertRow => put_insert_row(out, name),
        Wording::UpdateTime => put_update_time(out, name),
        Wording::DeleteRow => put_delete_row(out, name),
        Wording::CreateDatabase => put_create_database(out, name),
        Wording::DropDatabase => put_drop_database(out, name),
    }
}

/// A text over this name.
pub(crate) fn text(alloc: Global, wording: Wording, name: &str) -> Result<String, AllocError>
    ensures { IfOk result (λ text. string_bytes text ≡ text_of wording name.now) }
{
    let mut text = String::new(alloc);
    match put(&mut text, wording, name) {
        Ok(()) => Ok(text),
        Err(e) => Err(e),
    }
}
