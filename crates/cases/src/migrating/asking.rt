//! Each call on databases by its own state: it is polled, and dropped.

ghost use Rattle.pg_call.specs.declared.kind.Kind.TheVariants as kinds;
ghost use Rattle.pg_migrating.specs.Forcing.{GoesForce};
ghost use Rattle.pg_migrating.specs.Sessions.{Goes};

use crate::migrating::telling::{Told, push_call, push_waits};
use case_tools::{Shown, push_bytes};
use pg_guards::PgExecutor;
use pg_migrating::{DatabaseCall, ForceDropDatabase, MigrateDatabase, Reading, Sessions};
use pg_options::PgSettings;
use pg_wire::Poll;
use std::alloc::Global;

// What was sent, where a connection waits. What there is no memory for is missing in what is printed.
fn tell_sent<C: PgExecutor>(conn: Option<&C>, told: &mut String)
where
    C::L: Shown,
{
    if let Some(conn) = conn {
        if let Some(sent) = conn.conn_ref().link().sent() {
            drop(push_bytes(told, sent));
        }
    }
}

// Polls a call of one statement, so often at most, and tells what it answered. The state is handed back, since one that is a parameter and is kept
// can't be lent.
fn statement<'d, D: Sessions, R: Reading>(
    state: DatabaseCall<'d, D, R>,
    polls: u64,
    word: &str,
    told: &mut String,
) -> DatabaseCall<'d, D, R>
where
    D::L: Shown,
    R::Value: Told,
    requires { Goes D.opens (kinds.Run R.how) state.session }
{
    let mut state = state;
    for _ in 0..polls {
        match state.poll() {
            Poll::Pending => tell_sent(state.conn(), told),
            answer => {
                push_call(told, word, answer);
                return state;
            }
        }
    }
    push_waits(told, word);
    state
}

fn forcing<D: Sessions>(
    mut state: ForceDropDatabase<'_, D>,
    polls: u64,
    word: &str,
    told: &mut String,
)
where
    D::L: Shown,
    requires { GoesForce D.opens state.step state.session state.last }
{
    for _ in 0..polls {
        match state.poll() {
            Poll::Pending => tell_sent(state.conn(), told),
            answer => return push_call(told, word, answer),
        }
    }
    push_waits(told, word);
}

/// Makes a call on the database of a URL, and tells what it answered.
pub(crate) fn call<D: Sessions>(
    alloc: Global,
    settings: &PgSettings,
    dial: &mut D,
    words: &str,
    polls: u64,
    told: &mut String,
)
where
    D::L: Shown,
{
    let (word, url) = words.split_once(' ').unwrap_or((words, ""));
    match word {
        "exists" => {
            let state = MigrateDatabase::database_exists(alloc, settings, url, dial);
            drop(statement(state, polls, word, told));
        }
        "create" => {
            let state = MigrateDatabase::create_database(alloc, settings, url, dial);
            drop(statement(state, polls, word, told));
        }
        "drop" => {
            let state = MigrateDatabase::drop_database(alloc, settings, url, dial);
            drop(statement(state, polls, word, told));
        }
        _ => {
            let state = MigrateDatabase::force_drop_database(alloc, settings, url, dial);
            forcing(state, polls, word, told);
        }
    }
}
