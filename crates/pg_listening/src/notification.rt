ghost use Rattle.std.specs.Prelude.{◌≡◌, IfOk, IfErr};

use pg_wire::{Error, Notification};
use std::alloc::Global;
use std::marker::Model;

/// What another session told the listeners of a channel. (PostgreSQL manual, "SQL Commands", NOTIFY.)
#[derive(Debug)]
pub struct PgNotification {
    told: Notification,
}

impl Drop for PgNotification {
    fn drop(self) {
        let PgNotification { told: _ } = self;
    }
}

impl Model for PgNotification {
    ghost use Rattle.pg_wire.specs.declared.message.notification_response.Notification.{Notification};

    ghost Value = { Notification };

    ghost view = { λ n. n.told };
}

impl PgNotification {
    /// What a connection has told.
    pub fn over(told: Notification) -> Self
        ensures { result ≡ told }
    {
        PgNotification { told }
    }

    /// The process of the session that told it.
    pub fn process_id(&self) -> u32
        ensures { result ≡ self.now.process_id }
    {
        self.told.process_id
    }

    pub fn channel(&self) -> &str
        ensures { result.now ≡ self.now.channel }
    {
        self.told.channel.as_str()
    }

    /// What was told, which is empty where nothing was.
    pub fn payload(&self) -> &str
        ensures { result.now ≡ self.now.payload }
    {
        self.told.payload.as_str()
    }

    /// An equal notification. An `Err` is want of memory.
    pub fn clone(&self, alloc: Global) -> Result<Self, Error>
        ensures equal { IfOk result (λ n. n ≡ self.now) }
        ensures err { IfErr result (λ e. e ≡ Error.OutOfMemory) }
    {
        let channel = self.told.channel.to_copy(alloc)?;
        let payload = self.told.payload.to_copy(alloc)?;
        Ok(PgNotification::over(Notification {
            process_id: self.told.process_id,
            channel,
            payload,
        }))
    }
}
