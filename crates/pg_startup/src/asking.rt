ghost use Rattle.std.specs.Prelude.{◌≡◌, ◌≤◌, drop, length, Some, Err};
ghost use Rattle.pg_startup.specs.Asking.{asking_by, sent_to, AsksOnce, PollsAsking, HearsByte};

use pg_stream::{Link, LinkRead, LinkUpgrade, LinkWrite, TlsWish};
use pg_wire::{Error, IoCause, Poll, ProtocolFault, ServerFault, SslRequest, TlsCause};
use std::marker::Model;

/// How far the question for TLS has come.
#[derive(Clone, Copy)]
pub enum Asked {
    /// So many bytes of the SSLRequest are sent.
    Sending(usize),
    /// The byte that answers it is awaited.
    Answer,
    /// The server has TLS, and the handshake is to be made.
    Upgrade,
}

/// The question for TLS over a link. (PostgreSQL manual, "Message Flow", "SSL Session Encryption".)
///
/// The byte that answers it is read by itself, so that whatever stands behind it stays with the link.
#[derive(Drop)]
pub(crate) struct Asking<L> {
    link: L,
    is_required: bool,
    wish: TlsWish,
    asked: Asked,
}

impl<L> Model for Asking<L> {
    ghost use Rattle.pg_startup.specs.Asking.{AskingOf, IsSendable};

    ghost Value = { AskingOf L };

    ghost view = { λ a. record { link = a.link; is_required = a.is_required; wish = a.wish; asked = a.asked } };

    ghost invariant = { λ a. IsSendable a.asked };
}

// The answer that a link failed.
fn faulty<T>(cause: IoCause) -> Option<Poll<Result<T, Error>>>
    ensures { result ≡ Some (Poll.Ready (Err (Error.Io cause))) }
{
    Some(Poll::Ready(Err(Error::Io(cause))))
}

// What is left of a text of which so much is sent.
fn behind(text: &[u8], sent: usize) -> &[u8]
    requires { sent ≤ length text.now }
    ensures { result.now ≡ drop sent text.now }
{
    &text[sent..]
}

impl<L> Asking<L> {
    /// A question of which nothing is sent.
    pub(crate) fn new(link: L, is_required: bool, wish: TlsWish) -> Self
        ensures { result ≡ record { link = link; is_required = is_required; wish = wish; asked = Asked.Sending 0 } }
    {
        Asking {
            link,
            is_required,
            wish,
            asked: Asked::Sending(0),
        }
    }

    pub(crate) fn into_link(self) -> L
        ensures { result ≡ self.link }
    {
        let Asking {
            link,
            is_required: _,
            wish: _,
            asked: _,
        } = self;
        link
    }

    // So many more bytes are sent.
    fn sent(&mut self, count: usize)
        ensures { self.new ≡ record self.old { asked = sent_to count } }
    {
        self.asked = if count < SslRequest::BYTES.len() {
            Asked::Sending(count)
        } else {
            Asked::Answer
        };
    }

    // What the byte makes of the question.
    fn hear(&mut self, byte: u8) -> Option<Poll<Result<(), Error>>>
        ensures { HearsByte byte self.old self.new result }
    {
        match byte {
            b'S' => {
                self.asked = Asked::Upgrade;
                None
            }
            b'N' if !self.is_required => Some(Poll::Ready(Ok(()))),
            b'N' => Some(Poll::Ready(Err(Error::Tls(TlsCause::ServerRefused)))),
            _ => Some(Poll::Ready(Err(Error::Protocol(ProtocolFault::Server(ServerFault::SslAnswer {
                byte,
            }))))),
        }
    }
}

impl<L: Link> Asking<L> {
    // One write of the request.
    fn send(&mut self, sent: usize) -> Option<Poll<Result<(), Error>>>
        requires { self.old.asked ≡ Asked.Sending sent }
        ensures { AsksOnce (asking_by L.seen self.old) (asking_by L.seen self.new) result }
    {
        match self.link.write(behind(&SslRequest::bytes(), sent)) {
            LinkWrite::Moved(count) => {
                self.sent(sent + count);
                None
            }
            LinkWrite::NotYet => Some(Poll::Pending),
            LinkWrite::Failed => faulty(IoCause::Fault),
        }
    }

    // One read of the byte that answers it.
    fn read(&mut self) -> Option<Poll<Result<(), Error>>>
        requires { self.old.asked ≡ Asked.Answer }
        ensures { AsksOnce (asking_by L.seen self.old) (asking_by L.seen self.new) result }
    {
        let mut byte = [0u8; 1];
        match self.link.read(&mut byte) {
            LinkRead::Moved(_) => self.hear(byte[0]),
            LinkRead::NotYet => Some(Poll::Pending),
            LinkRead::End => faulty(IoCause::End),
            LinkRead::Failed => faulty(IoCause::Fault),
        }
    }

    // One step of the handshake.
    fn upgrade(&mut self) -> Option<Poll<Result<(), Error>>>
        requires { self.old.asked ≡ Asked.Upgrade }
        ensures { AsksOnce (asking_by L.seen self.old) (asking_by L.seen self.new) result }
    {
        match self.link.upgrade(self.wish) {
            LinkUpgrade::Done => Some(Poll::Ready(Ok(()))),
            LinkUpgrade::NotYet => Some(Poll::Pending),
            LinkUpgrade::Failed => Some(Poll::Ready(Err(Error::Tls(TlsCause::UpgradeFailed)))),
        }
    }

    // One call of the link, or the answer.
    fn ask_once(&mut self) -> Option<Poll<Result<(), Error>>>
        ensures { AsksOnce (asking_by L.seen self.old) (asking_by L.seen self.new) result }
    {
        match self.asked {
            Asked::Sending(sent) => self.send(sent),
            Asked::Answer => self.read(),
            Asked::Upgrade => self.upgrade(),
        }
    }

    /// Moves the question on, within so many calls of the link. Behind an `Ok` the link is as the session may use it.
    pub(crate) fn poll(&mut self, left: &mut u16) -> Poll<Result<(), Error>>
        ensures { PollsAsking left.old left.new (asking_by L.seen self.old) (asking_by L.seen self.new) result }
    {
        while *left > 0 {
            *left -= 1;
            if let Some(answer) = self.ask_once() {
                return answer;
            }
        }
        Poll::Pending
    }
}
