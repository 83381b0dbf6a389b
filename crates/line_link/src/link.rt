ghost use Rattle.std.specs.Prelude.{◌≡◌, None, IfOk, IsSome, OnErr, length, take, true};
ghost use Rattle.line_link.specs.Flow.{coming, flowing};
ghost use Rattle.line_link.specs.Link.{AreBegun, IsLinkTogether, after_answer, after_close, after_connect, after_flow, after_send, after_spoil, answer_sent, connected_of, cut, fate, flow_to, no_link, number_of, sent_of, spoil_sent, texted, within_limit};

use crate::flows::Flows;
use line_base::{Memory, Role};
use std::alloc::Global;
use std::marker::Model;

/// The most bytes that may be on their way in one direction. At more the link is cut.
pub const MOST_IN_FLIGHT: usize = 1_048_576;

/// What becomes of a text that an end sends.
#[derive(Clone, Copy, Debug, PartialEq, Eq)]
pub enum Sent {
    /// The link doesn't stand: the text is gone.
    Vanishes,
    /// It is on its way.
    Flows,
    /// Too much is on its way: the link is cut.
    Cuts,
}

/// What a connection of the downstream end meets.
#[derive(Clone, Copy, Debug, PartialEq, Eq)]
pub enum Connected {
    /// The upstream end takes it: the link stands.
    Accepted,
    /// The upstream end has another one still: it tells so, and the link doesn't stand.
    Second,
}

/// The link between a machine, its upstream end, and the next, its downstream end.
///
/// It is seen as the connection numbers of its two ends, whether it stands, what flows to each
/// end, and how many connections were made on it. An end is named by its role.
#[derive(Debug, Drop)]
pub struct Link {
    upstream: Option<u64>,
    downstream: Option<u64>,
    stands: bool,
    flows: Flows,
    made: u64,
}

impl Model for Link {
    ghost use Rattle.line_link.specs.Link.{IsLinkTogether, LinkParts};

    ghost Value = { LinkParts };

    ghost view = { λ link.
        record {
          upstream = link.upstream;
          downstream = link.downstream;
          stands = link.stands;
          flows = link.flows;
          made = link.made;
        } };

    ghost invariant = { λ link.
        IsLinkTogether
        (record {
          upstream = link.upstream;
          downstream = link.downstream;
          stands = link.stands;
          flows = link.flows;
          made = link.made;
        }) };
}

impl Link {
    /// A link on which nothing is connected.
    pub fn new(alloc: Global) -> Link
        ensures { result ≡ no_link }
    {
        Link {
            upstream: None,
            downstream: None,
            stands: false,
            flows: Flows::new(alloc),
            made: 0,
        }
    }

    /// What can stand together: a link that stands has one connection at both ends, nothing flows
    /// to an end without a connection, and at most 1,048,576 bytes are on their way in a
    /// direction.
    pub fn together(&self)
        ensures together { IsLinkTogether self.now }
        ensures begun { AreBegun self.now.flows }
    {
        self.flows.together();
    }

    /// The number of an end's connection.
    pub fn number(&self, end: Role) -> Option<u64>
        ensures { result ≡ number_of end self.now }
    {
        match end {
            Role::Upstream => self.upstream,
            Role::Downstream => self.downstream,
        }
    }

    /// Whether the link stands: a text that is sent is on its way.
    pub fn stands(&self) -> bool
        ensures { result ≡ self.now.stands }
    {
        self.stands
    }

    /// How many bytes are on their way to an end.
    pub fn coming(&self, to: Role) -> usize
        ensures { result ≡ length (coming (flow_to to self.now)) }
    {
        self.flows.coming(to)
    }

    /// The bytes that arrive at an end next: so many or what there is, or the rest of the oldest
    /// text. They are lent, and arrive by `arrive`.
    pub fn next(&self, to: Role, count: Option<u32>) -> &[u8]
        ensures { result.now ≡ take (flowing count (flow_to to self.now))
            (coming (flow_to to self.now)) }
    {
        self.flows.next(to, count)
    }

    /// Bytes arrive at an end: so many or what there is, or the rest of the oldest text.
    pub fn arrive(&mut self, to: Role, count: Option<u32>)
        ensures { self.new ≡ after_flow to count self.old }
    {
        self.flows.arrive(to, count);
    }

    /// An end sends a text. It vanishes where the link doesn't stand, and cuts the link where it
    /// lets more than 1,048,576 bytes be on their way. `Memory` where there is no room; the link
    /// is then as it was.
    pub fn send(&mut self, from: Role, text: &[u8]) -> Result<Sent, Memory>
        ensures after { IfOk result (λ _. self.new ≡ after_send from text.now self.old) }
        ensures sent { IfOk result (λ sent. sent ≡ sent_of from text.now self.old) }
        ensures memory { OnErr result (self.new ≡ self.old) }
    {
        if !self.stands {
            return Ok(Sent::Vanishes);
        }
        match from {
            Role::Upstream => self.text(Role::Downstream, text),
            Role::Downstream => self.text(Role::Upstream, text),
        }
    }

    /// The upstream end answers a second connection: the text is on its way to the downstream end
    /// though the link doesn't stand, where that end has a connection. `Memory` as in `send`.
    pub fn answer_second(&mut self, text: &[u8]) -> Result<Sent, Memory>
        ensures after { IfOk result (λ _. self.new ≡ after_answer text.now self.old) }
        ensures sent { IfOk result (λ sent. sent ≡ answer_sent text.now self.old) }
        ensures memory { OnErr result (self.new ≡ self.old) }
    {
        match self.downstream {
            None => Ok(Sent::Vanishes),
            Some(_) => self.text(Role::Downstream, text),
        }
    }

    /// A NUL byte is put before the next byte to arrive at an end of a link that stands: into the
    /// oldest text, or as a text of its own where none is on its way. It cuts the link where it
    /// lets more than 1,048,576 bytes be on their way. `Memory` where there is no room; the link
    /// is then as it was.
    pub fn spoil(&mut self, to: Role) -> Result<Sent, Memory>
        requires { self.old.stands ≡ true }
        ensures after { IfOk result (λ _. self.new ≡ after_spoil to self.old) }
        ensures sent { IfOk result (λ sent. sent ≡ spoil_sent to self.old) }
        ensures memory { OnErr result (self.new ≡ self.old) }
    {
        if let Err(Memory) = self.flows.put_nul(to) {
            return Err(Memory);
        }
        if self.flows.coming(to) > MOST_IN_FLIGHT {
            self.stands = false;
            self.flows.clear();
            return Ok(Sent::Cuts);
        }
        Ok(Sent::Flows)
    }

    /// The link is cut: it stands no more, and what is on its way is lost.
    pub fn cut(&mut self)
        ensures { self.new ≡ cut self.old }
    {
        self.stands = false;
        self.flows.clear();
    }

    /// An end closes: it has no connection, the link stands no more, and what is on its way to
    /// that end is lost. What the end sent can still arrive.
    pub fn close(&mut self, end: Role)
        ensures { self.new ≡ after_close end self.old }
    {
        self.stands = false;
        match end {
            Role::Upstream => self.upstream = None,
            Role::Downstream => self.downstream = None,
        }
        self.flows.clear_to(end);
    }

    /// The downstream end connects, and gets a new number. Where the upstream end has no
    /// connection it gets the same number, and the link stands. Else the connection is a second
    /// one, and the link doesn't stand.
    pub fn connect(&mut self) -> Connected
        requires { self.old.downstream ≡ None }
        ensures after { self.new ≡ after_connect self.old }
        ensures connected { result ≡ connected_of self.old.upstream }
    {
        self.made = self.made.saturating_add(1);
        self.downstream = Some(self.made);
        match self.upstream {
            None => {
                self.upstream = Some(self.made);
                self.stands = true;
                Connected::Accepted
            }
            Some(_) => {
                self.stands = false;
                Connected::Second
            }
        }
    }

    /// A text is on its way to an end that has a connection, within the limit.
    fn text(&mut self, to: Role, text: &[u8]) -> Result<Sent, Memory>
        requires { IsSome (number_of to self.old) }
        ensures after { IfOk result (λ _. self.new ≡ within_limit to (texted to text.now self.old)) }
        ensures sent { IfOk result (λ sent. sent ≡ fate to (texted to text.now self.old)) }
        ensures memory { OnErr result (self.new ≡ self.old) }
    {
        if let Err(Memory) = self.flows.push(to, text) {
            return Err(Memory);
        }
        if self.flows.coming(to) > MOST_IN_FLIGHT {
            self.stands = false;
            self.flows.clear();
            return Ok(Sent::Cuts);
        }
        Ok(Sent::Flows)
    }
}
