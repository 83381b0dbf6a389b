ghost use Rattle.std.specs.Prelude.{◌≡◌, ◌≤◌, true, not, IfErr, IfOk, OnErr, OnOk, None, length};
ghost use Rattle.hermes_vertical.specs.Parts.{kind_of};
ghost use Rattle.supervisory_core.specs.Row.{row, supervised_row};
ghost use Rattle.supervised_end.specs.Channel.{Finds, HearsNext, IsShort, Means, fed, hears_behind, is_empty, no_session};

use hermes_horizontal::MessageError;
use hermes_stream::{Cut, Cutter};
use hermes_vertical::{Vertical, VerticalKind, VerticalMessage, read_vertical};
use line_base::{Memory, Text};
use std::alloc::Global;
use std::marker::Model;
use supervisory_core::{Supervised, VerticalAction};

/// What a frame means.
#[derive(Drop)]
pub enum Word {
    /// It spells this message.
    Says(VerticalMessage),
    /// It spells none; the breach has this text.
    Wrong(Text),
}

/// What stands at the front of the bytes that wait.
#[derive(Drop)]
pub enum Found {
    /// A frame, that means this.
    Word(Word),
    /// No frame, and room for more bytes.
    More,
    /// As many bytes as a message may have, and no end of one.
    TooLong,
}

/// The bytes of a connection that wait for the end of a message, those of the present answer behind
/// them, of which some were fed, whether these are being heard, and the session of a supervisor.
///
/// A connection of another service, on which no session ever stands, is cut with its `cutter`.
#[derive(Drop)]
pub struct Channel {
    pub cutter: Cutter,
    piece: Vec<u8>,
    fed: usize,
    hears: bool,
    session: Supervised,
}

impl Model for Channel {
    ghost use Rattle.std.specs.Prelude.{◌≤◌, drop, vec_len};
    ghost use Rattle.supervised_end.specs.Channel.{ChannelValue};

    ghost Value = { ChannelValue };

    ghost view = { λ c. record {
      waiting = c.cutter;
      piece = drop c.fed c.piece.items;
      hears = c.hears;
      stands = c.session;
    } };

    ghost invariant = { λ c. (c.fed ≤ vec_len c.piece) × (vec_len c.piece ≤ 4096) };
}

impl Channel {
    /// A channel without a connection. It takes the memory of a cutter.
    pub fn new(alloc: Global) -> Result<Channel, Memory>
        ensures { IfOk result (λ channel. channel ≡ no_session) }
    {
        let cutter = Cutter::new(alloc)?;
        Ok(Channel {
            cutter,
            piece: Vec::new(alloc),
            fed: 0,
            hears: false,
            session: Supervised::new(),
        })
    }

    /// The session ends, or another begins: what waits is dropped.
    pub fn restart(&mut self)
        ensures { self.new ≡ no_session }
    {
        self.cutter.clear();
        self.piece.clear();
        self.fed = 0;
        self.hears = false;
        self.session = Supervised::new();
    }

    /// Whether the session stands.
    pub fn stands(&self) -> bool
        ensures { result ≡ self.now.stands }
    {
        self.session.stands()
    }

    /// Whether bytes are being heard.
    pub fn hears(&self) -> bool
        ensures { result ≡ self.now.hears }
    {
        self.hears
    }

    /// No more waits than a message may have, and no more came than an answer gives.
    pub fn is_short(&self)
        ensures { IsShort self.now }
    {
        let _waiting = self.cutter.waiting();
        let _fed = self.fed;
    }

    /// Bytes of an answer came.
    pub fn hear(&mut self, bytes: &[u8]) -> Result<(), Memory>
        requires { length bytes.now ≤ 4096 }
        ensures { OnOk result (self.new ≡ record self.old { piece = bytes.now; hears = true }) }
    {
        self.piece.clear();
        self.fed = 0;
        match self.piece.extend_from_slice(bytes) {
            Ok(()) => {
                self.hears = true;
                Ok(())
            }
            Err(_) => Err(Memory),
        }
    }

    /// What the bytes that came say next.
    pub fn next(&mut self, alloc: Global) -> Result<Found, Memory>
        ensures { IfOk result (λ found. HearsNext self.old self.new found) }
    {
        self.feed();
        let found = next_found(alloc, &mut self.cutter)?;
        self.note(&found);
        Ok(found)
    }

    /// What was found says whether bytes are heard further.
    fn note(&mut self, found: &Found)
        ensures { self.new
            ≡ record self.old { hears = hears_behind found.now self.old.piece self.old.hears } }
    {
        match found {
            Found::More => self.hear_rest(),
            Found::Word(_) | Found::TooLong => {}
        }
    }

    /// No end of a message waits: bytes are heard further where some weren't fed yet.
    pub fn hear_rest(&mut self)
        ensures { self.new ≡ record self.old { hears = not (is_empty self.old.piece) } }
    {
        self.hears = !self.rest().is_empty();
    }

    /// The bytes of the answer that weren't fed yet.
    fn rest(&self) -> &[u8]
        ensures { result.now ≡ self.now.piece }
    {
        &self.piece[self.fed..]
    }

    /// The first bytes of the answer go behind those that wait.
    pub fn feed(&mut self)
        ensures { self.new ≡ fed self.old }
    {
        self.fed += self.cutter.feed(&self.piece[self.fed..]);
    }

    /// The session takes a message.
    pub fn on_message(&mut self, body: Vertical) -> Result<VerticalAction, VerticalKind>
        ensures row { IfOk result
            (λ action. supervised_row self.old.stands body ≡ row self.new.stands action) }
        ensures kept { IfOk result (λ action. self.new ≡ record self.old { stands = self.new.stands }) }
        ensures breach { IfErr result (λ kind. (supervised_row self.old.stands body ≡ None)
            × (kind ≡ kind_of body)) }
        ensures unchanged { OnErr result (self.new ≡ self.old) }
    {
        self.session.on_message(body)
    }
}

/// What a frame means.
fn word_of(alloc: Global, frame: &[u8]) -> Result<Word, Memory>
    ensures { IfOk result (λ word. Means frame.now word) }
{
    match read_vertical(alloc, frame) {
        Ok(message) => Ok(Word::Says(message)),
        Err(MessageError::Memory) => Err(Memory),
        Err(MessageError::Refused { at, why }) => {
            let text = why.text(alloc, at)?;
            Ok(Word::Wrong(text))
        }
    }
}

/// What stands at the front of the bytes that wait; a frame is read where it is lent.
fn next_found(alloc: Global, cutter: &mut Cutter) -> Result<Found, Memory>
    ensures { IfOk result (λ found. Finds cutter.old cutter.new found) }
{
    match cutter.next() {
        Cut::Frame(frame) => {
            let word = word_of(alloc, frame)?;
            Ok(Found::Word(word))
        }
        Cut::NeedMore => Ok(Found::More),
        Cut::TooLong => Ok(Found::TooLong),
    }
}
