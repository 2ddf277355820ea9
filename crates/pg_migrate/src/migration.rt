ghost use Rattle.std.specs.Prelude.{◌≡◌};
ghost use Rattle.pg_wire.specs.declared.error.Error.TheVariants.{OutOfMemory};
ghost use Rattle.pg_migrate.specs.declared.migration.MigrateError.TheVariants.{Execute};

use pg_wire::{Blob, Error, Text};
use std::alloc::AllocError;

/// A script that brings a database from one version to the next, or back.
#[derive(Debug)]
pub struct Migration {
    /// Its place among the migrations; the table of migrations has one row for each.
    pub version: i64,
    pub description: Text,
    /// The script, which may hold several statements.
    pub sql: Text,
    /// What tells whether the script is the one that was applied.
    pub checksum: Blob,
    /// Whether the script runs outside a transaction.
    pub no_tx: bool,
}

// By hand, so that whoever lets one go makes one call, and doesn't go through its parts.
impl Drop for Migration {
    fn drop(self) {
        let Migration {
            version: _,
            description: _,
            sql: _,
            checksum: _,
            no_tx: _,
        } = self;
    }
}

/// A row of the table of migrations.
#[derive(Debug)]
pub struct AppliedMigration {
    pub version: i64,
    pub checksum: Blob,
}

// By hand, as that of a migration.
impl Drop for AppliedMigration {
    fn drop(self) {
        let AppliedMigration {
            version: _,
            checksum: _,
        } = self;
    }
}

/// Why a call of a migration did not give what was asked.
#[derive(Debug, Drop)]
pub enum MigrateError {
    /// A statement other than a migration's own script was refused, or it could not be run.
    Execute(Error),
    /// The script of the migration with this version was answered by this error.
    ExecuteMigration(Error, i64),
}

impl From<Error> for MigrateError {
    ghost from_gives = { λ e m. m ≡ Execute e };

    fn from(error: Error) -> Self {
        MigrateError::Execute(error)
    }
}

impl From<AllocError> for MigrateError {
    ghost from_gives = { λ _ m. m ≡ Execute OutOfMemory };

    fn from(_: AllocError) -> Self {
        MigrateError::Execute(Error::OutOfMemory)
    }
}
