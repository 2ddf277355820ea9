use crate::row::{meant, two};
use crate::telling::{push, push_number};
use pg_migrate::{
    Clock, MemoryClock, as_int8, current_database_text, database_exists_text, elapsed,
    generate_lock_id, lock_text, put_create_database, put_create_schema, put_create_table,
    put_delete_row, put_dirty_version, put_drop_database, put_insert_row, put_list, put_terminate,
    put_update_time, unlock_text, version_text,
};
use pg_wire::Sequence;
use std::alloc::{AllocError, Global};
use std::collections::VecDeque;
use std::fmt::Write;

pub(crate) fn lock_id(told: &mut String, database: &str) {
    let id = generate_lock_id(database);
    let _ = write!(told, "{id}");
}

#[derive(Clone, Copy)]
enum Statement {
    CreateSchema,
    CreateTable,
    DirtyVersion,
    List,
    InsertRow,
    UpdateTime,
    DeleteRow,
    CreateDatabase,
    DropDatabase,
    Terminate,
    TerminateBefore92,
    CurrentDatabase,
    Lock,
    Unlock,
    DatabaseExists,
    Version,
}

static STATEMENTS: [(&str, Statement); 16] = [
    ("create-schema", Statement::CreateSchema),
    ("create-table", Statement::CreateTable),
    ("dirty-version", Statement::DirtyVersion),
    ("list", Statement::List),
    ("insert-row", Statement::InsertRow),
    ("update-time", Statement::UpdateTime),
    ("delete-row", Statement::DeleteRow),
    ("create-database", Statement::CreateDatabase),
    ("drop-database", Statement::DropDatabase),
    ("terminate", Statement::Terminate),
    ("terminate-9.1", Statement::TerminateBefore92),
    ("current-database", Statement::CurrentDatabase),
    ("lock", Statement::Lock),
    ("unlock", Statement::Unlock),
    ("database-exists", Statement::DatabaseExists),
    ("version", Statement::Version),
];

fn put(out: &mut String, statement: Statement, name: &str) -> Result<(), AllocError> {
    match statement {
        Statement::CreateSchema => put_create_schema(out, name),
        Statement::CreateTable => put_create_table(out, name),
        Statement::DirtyVersion => put_dirty_version(out, name),
        Statement::List => put_list(out, name),
        Statement::InsertRow => put_insert_row(out, name),
        Statement::UpdateTime => put_update_time(out, name),
        Statement::DeleteRow => put_delete_row(out, name),
        Statement::CreateDatabase => put_create_database(out, name),
        Statement::DropDatabase => put_drop_database(out, name),
        Statement::Terminate => put_terminate(out, 90200, name),
        Statement::TerminateBefore92 => put_terminate(out, 90199, name),
        Statement::CurrentDatabase => out.push_str(current_database_text()),
        Statement::Lock => out.push_str(lock_text()),
        Statement::Unlock => out.push_str(unlock_text()),
        Statement::DatabaseExists => out.push_str(database_exists_text()),
        Statement::Version => out.push_str(version_text()),
    }
}

// The text of this word, for a table, a schema or a database of this name.
pub(crate) fn migration_text(told: &mut String, rest: &str) {
    let (word, name) = two(rest, ' ');
    let Some(statement) = meant(&STATEMENTS, word) else {
        return push(told, "no such text");
    };
    let _ = put(told, statement, name);
}

fn clock(alloc: Global, first: &str, second: &str) -> MemoryClock {
    let mut times = VecDeque::new(alloc);
    let _ = times.push_back(first.parse().unwrap_or(0));
    let _ = times.push_back(second.parse().unwrap_or(0));
    MemoryClock::new(times, Sequence::new(alloc))
}

// The nanoseconds between two readings, and their int8.
pub(crate) fn timed(told: &mut String, alloc: Global, rest: &str) {
    let (first, second) = two(rest, ' ');
    let mut clock = clock(alloc, first, second);
    let start = clock.now();
    let nanos = elapsed(start, clock.now());
    push_number(told, nanos);
    let number = as_int8(nanos);
    let _ = write!(told, " {number}");
}
