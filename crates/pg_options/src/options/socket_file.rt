ghost use Rattle.std.specs.Prelude.{◌≡◌, IfOk, option_copied};
ghost use Rattle.pg_options.specs.Answering.{Makes};
ghost use Rattle.pg_options.specs.ToUrl.{socket_directory, socket_file, socket_of_options};

use super::PgConnectOptions;
use crate::url_text::begins_path;
use pg_wire::{Error, Text};
use std::alloc::{AllocError, Global};

impl PgConnectOptions {
    /// The file of the local socket that is to be connected to, if it is one: of the socket's directory, or of a host that begins with `/`
    /// (PostgreSQL manual, "Connections and Authentication", unix_socket_directories).
    pub fn fetch_socket(&self, alloc: Global) -> Result<Option<Text>, Error>
        ensures { Makes result (socket_of_options self.now) }
    {
        match self.socket_directory() {
            Some(directory) => Ok(Some(socket_file(alloc, directory, self.port)?)),
            None => Ok(None),
        }
    }

    fn socket_directory(&self) -> Option<&str>
        ensures { option_copied result ≡ socket_directory self.now.socket self.now.host }
    {
        match &self.socket {
            Some(path) => Some(path.as_str()),
            None => path_or_none(self.host.as_str()),
        }
    }
}

fn path_or_none(host: &str) -> Option<&str>
    ensures { option_copied result ≡ socket_directory None host.now }
{
    if begins_path(host) { Some(host) } else { None }
}

#[tactic(auto, unfolding(crate::specs::ToUrl::socket_file))]
fn socket_file(alloc: Global, directory: &str, port: u16) -> Result<Text, AllocError>
    ensures { IfOk result (λ t. t ≡ socket_file directory.now port) }
{
    let file = format!(in alloc; "{directory}/.s.PGSQL.{port}")?;
    Ok(Text::from_string(file))
}
