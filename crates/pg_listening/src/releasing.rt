//! How a listener lets its connection go.
ghost use Rattle.std.specs.Prelude.{◌≡◌, is_some};
ghost use Rattle.pg_listening.specs.Sources.{IsSeated};
ghost use Rattle.pg_listening.specs.Leaving.{OnReleased};

use crate::handing::spent;
use crate::{ConnectionSource, Hearing};
use pg_listen::Released;
use std::sync::Wait;

impl<B: ConnectionSource> Hearing<B>
where
    B::L: Drop,
{
    /// Lets its connection go as it stands, or gives the leave to make one back. There is no answer exactly where no connection is held.
    pub fn into_released<R: Wait>(self, rt: &R, source: &mut B) -> Option<Released<B::L>>
        requires mine { self.name ≡ (B.now source.old).name }
        ensures some { is_some result ≡ is_some self.listening.conn }
        ensures releases { OnReleased B.handed B.Held.conn B.Held.with_conn (B.now source.old).most self.listening.conn result }
        ensures source { IsSeated (B.now source.old) (B.now source.new) }
    {
        let Hearing {
            alloc: _,
            name: _,
            listening,
            asked,
            startup,
            lost,
            is_ready: _,
            is_again: _,
            is_lost: _,
            is_eager: _,
            ignores_close: _,
        } = self;
        drop(asked);
        drop(lost);
        let mut startup = startup;
        drop(source.give_up(rt, &mut startup));
        spent(startup);
        let mut held = listening.into_conn();
        let released = source.release(rt, &mut held);
        spent(held);
        released
    }
}
