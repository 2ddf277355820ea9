//! The texts that migrations run. Each is added to a buffer, or stands by itself where it names nothing.

ghost use Rattle.std.specs.Prelude.{◌≡◌, ◌++◌, OnOk, string_bytes};
ghost use Rattle.pg_migrate.specs.Texts.{create_schema_text, create_table_text, dirty_version_text, list_text, current_database_text, lock_text, unlock_text, insert_row_text, update_time_text, delete_row_text, create_database_text, drop_database_text, database_exists_text, version_text, terminate_front, terminate_end, terminate_by, terminate_text};

use crate::quoting::put_quoted;
use std::alloc::AllocError;

// A name between two pieces of a text.
#[tactic(auto, using(crate::proofs::QuoteLaws::three_put))]
fn put_around(out: &mut String, front: &str, name: &str, end: &str) -> Result<(), AllocError>
    ensures { OnOk result (string_bytes out.new ≡ string_bytes out.old ++ (front.now ++ name.now ++ end.now)) }
{
    out.push_str(front)?;
    out.push_str(name)?;
    out.push_str(end)
}

/// Makes a schema, unless it is there. Its name stands as it is.
pub fn put_create_schema(out: &mut String, schema: &str) -> Result<(), AllocError>
    ensures { OnOk result (string_bytes out.new ≡ string_bytes out.old ++ create_schema_text schema.now) }
{
    put_around(out, "CREATE SCHEMA IF NOT EXISTS ", schema, ";")
}

/// Makes the table of migrations, unless it is there. Its name stands as it is, here and below.
pub fn put_create_table(out: &mut String, table: &str) -> Result<(), AllocError>
    ensures { OnOk result (string_bytes out.new ≡ string_bytes out.old ++ create_table_text table.now) }
{
    put_around(
        out,
        "CREATE TABLE IF NOT EXISTS ",
        table,
        " (\nversion BIGINT PRIMARY KEY,\ndescription TEXT NOT NULL,\ninstalled_on TIMESTAMPTZ NOT NULL DEFAULT now(),\nsuccess BOOLEAN NOT NULL,\nchecksum BYTEA NOT NULL,\nexecution_time BIGINT NOT NULL\n);",
    )
}

/// Asks for the first version whose migration did not end well.
pub fn put_dirty_version(out: &mut String, table: &str) -> Result<(), AllocError>
    ensures { OnOk result (string_bytes out.new ≡ string_bytes out.old ++ dirty_version_text table.now) }
{
    let end = " WHERE success = false ORDER BY version LIMIT 1";
    put_around(out, "SELECT version FROM ", table, end)
}

/// Asks for version and checksum of each migration that was applied.
pub fn put_list(out: &mut String, table: &str) -> Result<(), AllocError>
    ensures { OnOk result (string_bytes out.new ≡ string_bytes out.old ++ list_text table.now) }
{
    put_around(
        out,
        "SELECT version, checksum FROM ",
        table,
        " ORDER BY version",
    )
}

/// Asks for the database's name, whose `generate_lock_id` is the key of the lock.
pub fn current_database_text() -> &'static str
    ensures { result.now ≡ current_database_text }
{
    "SELECT current_database()"
}

/// Waits for the lock, whose key is the argument.
pub fn lock_text() -> &'static str
    ensures { result.now ≡ lock_text }
{
    "SELECT pg_advisory_lock($1)"
}

/// Gives the lock back, whose key is the argument.
pub fn unlock_text() -> &'static str
    ensures { result.now ≡ unlock_text }
{
    "SELECT pg_advisory_unlock($1)"
}

/// Adds the row of a migration. Its arguments are the version, the description and the checksum.
pub fn put_insert_row(out: &mut String, table: &str) -> Result<(), AllocError>
    ensures { OnOk result (string_bytes out.new ≡ string_bytes out.old ++ insert_row_text table.now) }
{
    let end =
        " ( version, description, success, checksum, execution_time ) VALUES ( $1, $2, TRUE, $3, -1 )";
    put_around(out, "INSERT INTO ", table, end)
}

/// Sets how long a migration took. Its arguments are the nanoseconds and the version.
pub fn put_update_time(out: &mut String, table: &str) -> Result<(), AllocError>
    ensures { OnOk result (string_bytes out.new ≡ string_bytes out.old ++ update_time_text table.now) }
{
    let end = " SET execution_time = $1 WHERE version = $2";
    put_around(out, "UPDATE ", table, end)
}

/// Takes the row of a migration away. Its argument is the version.
pub fn put_delete_row(out: &mut String, table: &str) -> Result<(), AllocError>
    ensures { OnOk result (string_bytes out.new ≡ string_bytes out.old ++ delete_row_text table.now) }
{
    put_around(out, "DELETE FROM ", table, " WHERE version = $1")
}

/// Makes a database.
pub fn put_create_database(out: &mut String, database: &str) -> Result<(), AllocError>
    ensures { OnOk result (string_bytes out.new ≡ string_bytes out.old ++ create_database_text database.now) }
{
    out.push_str("CREATE DATABASE ")?;
    put_quoted(out, '"', database)
}

/// Drops a database, if it is there.
pub fn put_drop_database(out: &mut String, database: &str) -> Result<(), AllocError>
    ensures { OnOk result (string_bytes out.new ≡ string_bytes out.old ++ drop_database_text database.now) }
{
    out.push_str("DROP DATABASE IF EXISTS ")?;
    put_quoted(out, '"', database)
}

/// Asks whether there is a database with the name that is the argument.
pub fn database_exists_text() -> &'static str
    ensures { result.now ≡ database_exists_text }
{
    "select exists(SELECT 1 from pg_database WHERE datname = $1)"
}

/// Asks for the server's version as a number, as 160003.
pub fn version_text() -> &'static str
    ensures { result.now ≡ version_text }
{
    "SELECT current_setting('server_version_num')"
}

#[tactic(auto, unfolding(crate::specs::Texts::terminate_front))]
fn put_terminate_front(out: &mut String, process: &str) -> Result<(), AllocError>
    ensures { OnOk result (string_bytes out.new ≡ string_bytes out.old ++ terminate_front process.now) }
{
    let end = ") FROM pg_stat_activity WHERE pg_stat_activity.datname = ";
    put_around(
        out,
        "SELECT pg_terminate_backend(pg_stat_activity.",
        process,
        end,
    )
}

#[tactic(auto, unfolding(crate::specs::Texts::terminate_end))]
fn put_terminate_end(out: &mut String, process: &str) -> Result<(), AllocError>
    ensures { OnOk result (string_bytes out.new ≡ string_bytes out.old ++ terminate_end process.now) }
{
    put_around(out, " AND ", process, " <> pg_backend_pid()")
}

// The same, by the name that the column of a session's process has.
#[tactic(auto, using(crate::proofs::QuoteLaws::three_put), unfolding(crate::specs::Texts::terminate_by))]
fn put_terminate_by(out: &mut String, process: &str, database: &str) -> Result<(), AllocError>
    ensures { OnOk result (string_bytes out.new ≡ string_bytes out.old ++ terminate_by process.now database.now) }
{
    put_terminate_front(out, process)?;
    put_quoted(out, '\'', database)?;
    put_terminate_end(out, process)
}

/// Ends all other sessions on a database, at a server of this version.
pub fn put_terminate(out: &mut String, version: u32, database: &str) -> Result<(), AllocError>
    ensures { OnOk result (string_bytes out.new ≡ string_bytes out.old ++ terminate_text version database.now) }
{
    if version < 90200 {
        put_terminate_by(out, "procpid", database)
    } else {
        put_terminate_by(out, "pid", database)
    }
}
