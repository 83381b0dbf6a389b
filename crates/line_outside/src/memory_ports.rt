ghost use Rattle.std.specs.Prelude.{◌≡◌, ◌≤◌, ◌<◌, [], ◌∷◌, Some, false, IfOk, length, option_map};
ghost use Rattle.std.specs.Bool.{OnTrue};
ghost use Rattle.line_outside.specs.Faults.{Rises};
ghost use Rattle.line_outside.specs.Given.{Listens, Connects, Polls, Sends, Refuses, Closes, got_bytes};
ghost use Rattle.line_outside.specs.Ports.{Gains, HasOpenCause, IsGotWithin, HasGotCause, IsQuiet, IsSentWithin, IsRefusedWithin, HasSentCause, IsStuck};
ghost use Rattle.line_outside.specs.Store.{Store, new_store, counted, opened_next, sent_next, with_call, polled, is_quiet, answers_at, with_answers, found_next, left_next, fails_next, bytes_of_got, given_of};

use crate::account::Told;
use crate::answer::PortAnswer;
use crate::poll_list::PollList;
use crate::port_call::PortCall;
use crate::ports::{Got, Opened, Ports, Sent};
use crate::way::{Address, Way};
use line_base::Memory;
use std::alloc::Global;
use std::marker::Model;

/// Ports in memory. A poll of a way finds the next of that way's answers, and nothing where they
/// are used up. Bytes that don't fit the room are given in several polls, and no bytes at all are
/// passed over. Listening and asking for a connection is done, and each piece is taken whole, but
/// at the calls that are listed as failing.
#[derive(Debug, Drop)]
pub struct MemoryPorts {
    panel: PollList,
    upstream: PollList,
    downstream: PollList,
    supervisory: PollList,
    configuration: PollList,
    told: Told,
    failing: Vec<u64>,
    calls: u64,
    faults: u64,
}

impl Model for MemoryPorts {
    ghost Value = { Store };

    ghost view = { λ p. record {
      panel = p.panel;
      upstream = p.upstream;
      downstream = p.downstream;
      supervisory = p.supervisory;
      configuration = p.configuration;
      account = p.told;
      failing = p.failing.items;
      calls =
          p.calls;
      faults = p.faults;
    } };
}

impl MemoryPorts {
    /// Ports with these answers, of which no call fails but a poll that answers so. They take room
    /// to tell so many calls, and so many bytes of pieces and of what polls give together; what
    /// doesn't fit is not told, nor what comes behind it.
    pub fn new(
        alloc: Global,
        answers: &[PortAnswer],
        calls: usize,
        bytes: usize,
    ) -> Result<MemoryPorts, Memory>
        ensures { IfOk result (λ ports. ports ≡ new_store answers.now calls bytes []) }
    {
        MemoryPorts::failing(alloc, answers, calls, bytes, &[])
    }

    /// The same, but for the calls of listen, connect, send and refuse with these numbers: they
    /// fail. All those calls together are numbered from 1.
    pub fn failing(
        alloc: Global,
        answers: &[PortAnswer],
        calls: usize,
        bytes: usize,
        numbers: &[u64],
    ) -> Result<MemoryPorts, Memory>
        ensures { IfOk result (λ ports. ports ≡ new_store answers.now calls bytes numbers.now) }
    {
        let panel = PollList::of(alloc, answers, Way::Panel)?;
        let upstream = PollList::of(alloc, answers, Way::Upstream)?;
        let downstream = PollList::of(alloc, answers, Way::Downstream)?;
        let supervisory = PollList::of(alloc, answers, Way::Supervisory)?;
        let configuration = PollList::of(alloc, answers, Way::Configuration)?;
        let told = Told::new(alloc, calls, bytes)?;
        let failing = match Vec::from_slice(alloc, numbers) {
            Ok(failing) => failing,
            Err(_) => return Err(Memory),
        };
        Ok(MemoryPorts {
            panel,
            upstream,
            downstream,
            supervisory,
            configuration,
            told,
            failing,
            calls: 0,
            faults: 0,
        })
    }

    /// All calls so far and the bytes that go with them, each call's behind those of the calls
    /// before it, where they are told still.
    pub fn told(&self) -> Option<(&[PortCall], &[u8])>
        ensures { option_map (λ told. given_of told.0.now told.1.now) result
            ≡ self.now.account.given }
    {
        self.told.told()
    }

    /// Counts a call that may be listed as failing, and says whether it is.
    fn fails_next(&mut self) -> bool
        ensures fails { result ≡ fails_next self.old }
        ensures counted { self.new ≡ counted self.old }
        ensures rises { OnTrue result (Rises self.old.faults self.new.faults) }
    {
        self.calls = self.calls.saturating_add(1);
        if self.failing.contains(&self.calls) {
            self.faults = self.faults.saturating_add(1);
            return true;
        }
        false
    }

    /// What comes of listening, or of asking for a connection.
    fn opened_next(&mut self) -> Opened
        ensures answer { result ≡ opened_next self.old }
        ensures counted { self.new ≡ counted self.old }
        ensures cause { HasOpenCause self.old.faults self.new.faults result }
    {
        if self.fails_next() {
            return Opened::Failed;
        }
        Opened::Done
    }

    /// What becomes of a piece.
    fn sent_next(&mut self, piece: &[u8]) -> Sent
        ensures answer { result ≡ sent_next self.old piece.now }
        ensures counted { self.new ≡ counted self.old }
        ensures cause { HasSentCause self.old.faults self.new.faults result }
    {
        if self.fails_next() {
            return Sent::Failed;
        }
        Sent::Took(piece.len())
    }

    /// What the next poll of a way finds.
    fn find_next(&mut self, way: Way, room: &mut [u8]) -> Got
        requires { 0 < length room.old }
        ensures found { got_bytes result room.new
            ≡ found_next (answers_at way self.old) (length room.new) }
        ensures left { self.new
            ≡ with_answers way (left_next (answers_at way self.old) (length room.new)) self.old }
        ensures within { IsGotWithin (length room.new) result }
    {
        match way {
            Way::Panel => self.panel.next(room),
            Way::Upstream => self.upstream.next(room),
            Way::Downstream => self.downstream.next(room),
            Way::Supervisory => self.supervisory.next(room),
            Way::Configuration => self.configuration.next(room),
        }
    }
}

impl Ports for MemoryPorts {
    ghost given = { λ ports. ports.account.given };

    ghost faults = { λ ports. ports.faults };

    ghost quiet = { λ ports way. Some (is_quiet (answers_at way ports)) };

    // every piece is taken whole
    ghost stuck = { λ _ _. Some false };

    fn listen(&mut self, way: Way, address: Address) -> Opened
        ensures told { Gains self.old.account.given self.new.account.given
            (Listens way address result ∷ []) }
        ensures cause { HasOpenCause self.old.faults self.new.faults result }
        // the listed calls fail, and no others
        ensures answer { result ≡ opened_next self.old }
        ensures store { self.new ≡ with_call (counted self.old) (Listens way address result) 0 }
    {
        let opened = self.opened_next();
        let call = PortCall::Listens {
            way,
            address,
            opened,
        };
        self.told.note(call, &[]);
        opened
    }

    fn connect(&mut self, way: Way, address: Address) -> Opened
        ensures told { Gains self.old.account.given self.new.account.given
            (Connects way address result ∷ []) }
        ensures cause { HasOpenCause self.old.faults self.new.faults result }
        // the listed calls fail, and no others
        ensures answer { result ≡ opened_next self.old }
        ensures store { self.new ≡ with_call (counted self.old) (Connects way address result) 0 }
    {
        let opened = self.opened_next();
        let call = PortCall::Connects {
            way,
            address,
            opened,
        };
        self.told.note(call, &[]);
        opened
    }

    fn poll(&mut self, way: Way, room: &mut [u8]) -> Got
        requires { 0 < length room.old }
        ensures told { Gains self.old.account.given self.new.account.given
            (Polls way (length room.new) (got_bytes result room.new) ∷ []) }
        ensures within { IsGotWithin (length room.new) result }
        ensures cause { HasGotCause self.old.faults self.new.faults result }
        ensures nothing { IsQuiet (Some (is_quiet (answers_at way self.old))) result }
        // the next of the way's answers
        ensures answer { got_bytes result room.new
            ≡ found_next (answers_at way self.old) (length room.new) }
        ensures store { self.new ≡ polled way (length room.new) self.old }
    {
        let got = self.find_next(way, room);
        if got == Got::Failed {
            self.faults = self.faults.saturating_add(1);
        }
        let call = PortCall::Polls {
            way,
            room: room.len(),
            got,
        };
        self.told.note(call, given_bytes(got, room));
        got
    }

    fn send(&mut self, way: Way, piece: &[u8]) -> Sent
        requires { 0 < length piece.now }
        ensures told { Gains self.old.account.given self.new.account.given
            (Sends way piece.now result ∷ []) }
        ensures within { IsSentWithin piece.now result }
        ensures cause { HasSentCause self.old.faults self.new.faults result }
        ensures nothing { IsStuck (Some false) result }
        // the whole piece, but at the listed calls
        ensures answer { result ≡ sent_next self.old piece.now }
        ensures store { self.new ≡ with_call (counted self.old) (Sends way piece.now result)
            (length piece.now) }
    {
        let sent = self.sent_next(piece);
        let call = PortCall::Sends {
            way,
            piece: piece.len(),
            sent,
        };
        self.told.note(call, piece);
        sent
    }

    fn refuse(&mut self, way: Way, piece: &[u8]) -> Sent
        ensures told { Gains self.old.account.given self.new.account.given
            (Refuses way piece.now result ∷ []) }
        ensures within { IsRefusedWithin piece.now result }
        ensures cause { HasSentCause self.old.faults self.new.faults result }
        ensures nothing { IsStuck (Some false) result }
        // the whole piece, but at the listed calls
        ensures answer { result ≡ sent_next self.old piece.now }
        ensures store { self.new ≡ with_call (counted self.old) (Refuses way piece.now result)
            (length piece.now) }
    {
        let sent = self.sent_next(piece);
        let call = PortCall::Refuses {
            way,
            piece: piece.len(),
            sent,
        };
        self.told.note(call, piece);
        sent
    }

    fn close(&mut self, way: Way)
        ensures told { Gains self.old.account.given self.new.account.given (Closes way ∷ []) }
        ensures cause { self.old.faults ≤ self.new.faults }
        ensures store { self.new ≡ with_call self.old (Closes way) 0 }
    {
        self.told.note(PortCall::Closes { way }, &[]);
    }
}

/// The bytes that a poll put at the front of the room.
fn given_bytes(got: Got, room: &[u8]) -> &[u8]
    requires { IsGotWithin (length room.now) got }
    ensures { result.now ≡ bytes_of_got got room.now }
{
    match got {
        Got::Bytes(count) => &room[..count],
        Got::Arrived | Got::Second | Got::NotYet | Got::Closed | Got::Failed => &[],
    }
}
