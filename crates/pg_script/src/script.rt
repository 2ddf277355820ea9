ghost use Rattle.std.specs.Prelude.{◌≡◌};
ghost use Rattle.pg_script.specs.Reading.{Gives};
ghost use Rattle.pg_script.specs.Scripts.{add, add_allowed, add_line, empty_script, with_event, with_write, with_step, with_option, set_once};

use crate::error::LineError;
use crate::kind::Kind;
use crate::lexer::Lexer;
use crate::line::{Line, line_in};
use crate::nonce::Nonce;
use crate::step::Step;
use pg_options::PgSslMode;
use pg_stream::{ReadEvent, WriteEvent};
use pg_wire::{Sequence, Text};
use std::alloc::Global;

/// What is to be played.
#[derive(Debug, Drop)]
pub struct Script {
    pub user: Option<Text>,
    pub password: Option<Text>,
    pub database: Option<Text>,
    pub application: Option<Text>,
    /// Names of options of the server and their values, in order.
    pub options: Sequence<(Text, Text)>,
    pub ssl_mode: Option<PgSslMode>,
    /// How many statements a connection keeps, where the script says it.
    pub cache: Option<u32>,
    /// `extra_float_digits`, where the script says it.
    pub digits: Option<Option<i8>>,
    /// Whether the link can be made a TLS one.
    pub can_upgrade: bool,
    /// Whether the link stays within the machine.
    pub is_local: bool,
    /// The client's nonce, where the script says it.
    pub nonce: Option<Nonce>,
    /// The polls that start-up has at most, where the script says them.
    pub start_polls: Option<u32>,
    /// What the link's reads give, in order.
    pub events: Sequence<ReadEvent>,
    /// What the link's writes take, in order.
    pub writes: Sequence<WriteEvent>,
    pub steps: Sequence<Step>,
}

// Sets what nothing had set.
fn set_once<T: Drop>(slot: &mut Option<T>, value: T) -> Result<(), LineError>
    ensures { Gives (λ _. slot.new) result (set_once slot.old value) }
{
    match slot {
        Some(_) => Err(LineError::Bad),
        None => {
            *slot = Some(value);
            Ok(())
        }
    }
}

impl Script {
    pub(crate) fn new(alloc: Global) -> Self
        ensures { result ≡ empty_script }
    {
        Script {
            user: None,
            password: None,
            database: None,
            application: None,
            options: Sequence::new(alloc),
            ssl_mode: None,
            cache: None,
            digits: None,
            can_upgrade: false,
            is_local: false,
            nonce: None,
            start_polls: None,
            events: Sequence::new(alloc),
            writes: Sequence::new(alloc),
            steps: Sequence::new(alloc),
        }
    }

    fn push_option(&mut self, name: Text, value: Text) -> Result<(), LineError>
        ensures { Gives (λ _. self.new) result (with_option self.old name value) }
    {
        self.options.push((name, value))?;
        Ok(())
    }

    fn push_event(&mut self, event: ReadEvent) -> Result<(), LineError>
        ensures { Gives (λ _. self.new) result (with_event self.old event) }
    {
        self.events.push(event)?;
        Ok(())
    }

    fn push_write(&mut self, event: WriteEvent) -> Result<(), LineError>
        ensures { Gives (λ _. self.new) result (with_write self.old event) }
    {
        self.writes.push(event)?;
        Ok(())
    }

    fn push_step(&mut self, step: Step) -> Result<(), LineError>
        ensures { Gives (λ _. self.new) result (with_step self.old step) }
    {
        self.steps.push(step)?;
        Ok(())
    }

    fn add(&mut self, line: Line) -> Result<(), LineError>
        ensures { Gives (λ _. self.new) result (add self.old line) }
    {
        match line {
            Line::Blank => Ok(()),
            Line::User(name) => set_once(&mut self.user, name),
            Line::Password(text) => set_once(&mut self.password, text),
            Line::Database(name) => set_once(&mut self.database, name),
            Line::Application(name) => set_once(&mut self.application, name),
            Line::Option(name, value) => self.push_option(name, value),
            Line::SslMode(mode) => set_once(&mut self.ssl_mode, mode),
            Line::Cache(capacity) => set_once(&mut self.cache, capacity),
            Line::Digits(digits) => set_once(&mut self.digits, digits),
            Line::LinkUpgrade => {
                self.can_upgrade = true;
                Ok(())
            }
            Line::LinkLocal => {
                self.is_local = true;
                Ok(())
            }
            Line::Nonce(nonce) => set_once(&mut self.nonce, nonce),
            Line::Server(bytes) => self.push_event(ReadEvent::Piece(bytes)),
            Line::Wait => self.push_event(ReadEvent::Wait),
            Line::End => self.push_event(ReadEvent::End),
            Line::Fail => self.push_event(ReadEvent::Fail),
            Line::Take { bytes, times } => self.push_write(WriteEvent::Take {
                most: bytes as usize,
                times,
            }),
            Line::Hold => self.push_write(WriteEvent::Wait),
            Line::Break => self.push_write(WriteEvent::Fail),
            Line::Start(polls) => set_once(&mut self.start_polls, polls),
            Line::Step { polls, most, call } => self.push_step(Step {
                call,
                polls,
                most: most.unwrap_or(u32::MAX),
            }),
        }
    }

    fn add_allowed(&mut self, kind: Kind, line: Line) -> Result<(), LineError>
        ensures { Gives (λ _. self.new) result (add_allowed kind self.old line) }
    {
        if kind.allows(&line) {
            self.add(line)
        } else {
            Err(LineError::Bad)
        }
    }

    /// Adds what a line says; a bad line is refused.
    #[tactic(auto, unfolding(crate::specs::Scripts::add_line))]
    pub(crate) fn add_line(
        &mut self,
        alloc: Global,
        lexer: &mut Lexer,
        kind: Kind,
        line: &[u8],
    ) -> Result<(), LineError>
        ensures { Gives (λ _. self.new) result (add_line kind self.old line.now) }
    {
        let line = line_in(alloc, lexer, line)?;
        self.add_allowed(kind, line)
    }
}
