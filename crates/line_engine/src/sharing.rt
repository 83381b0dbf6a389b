//! What the lanes of a machine share: the others follow the one that stepped.

ghost use Rattle.std.specs.Prelude.{◌≡◌, ◌↔◌, map, true};
ghost use Rattle.line_machines.specs.Sharing.{AreNumbered, shared_in};
ghost use Rattle.line_engine.specs.Sharing.{ShareAlike, followed_with, shared_with, sharing_track, sharing_track_if, unvouched_track};
ghost use Rattle.line_engine.specs.Tracks.{AreBeside, IsFollowing, IsReady, SharesOf, lane_beside};

use crate::track::Track;
use crate::tracks::Tracks;
use line_machines::State;
use line_marks::Span;
use node_core::Shared;

impl Tracks {
    /// The other lanes follow this one, where it has something else to share than they have.
    pub(crate) fn share_changed(&mut self, lane: u32, span: Span)
        requires ready { IsReady lane self.old }
        requires beside { AreBeside lane self.old }
        ensures { IsFollowing lane span.first span.last self.old self.new }
    {
        if self.is_shared(lane, span) {
            return;
        }
        self.share(lane, span);
    }

    /// Whether the other lanes have what this one has to share, at the machines that may have
    /// stepped. They are alike, so one of them tells.
    fn is_shared(&self, lane: u32, span: Span) -> bool
        requires ready { IsReady lane self.now }
        requires beside { AreBeside lane self.now }
        ensures { result ≡ true → IsFollowing lane span.first span.last self.now self.now }
    {
        match (self.track(lane), self.track(lane_beside(lane))) {
            (Some(own), Some(other)) => are_alike(&own.state, &other.state, span),
            (_, _) => true,
        }
    }

    /// The other lanes follow this one, at the machines that may have stepped.
    pub(crate) fn share(&mut self, lane: u32, span: Span)
        requires ready { IsReady lane self.old }
        ensures { IsFollowing lane span.first span.last self.old self.new }
    {
        if self.others.as_slice().is_empty() {
            return;
        }
        let shares = self.shares(lane, span);
        self.follow_all(span, &shares);
    }

    /// What a lane has to share at the machines that may have stepped.
    fn shares(&self, lane: u32, span: Span) -> Shares
        requires ready { IsReady lane self.now }
        ensures { SharesOf lane span.first span.last self.now result }
    {
        if lane == 1 {
            return shares_of(&self.first, span);
        }
        shares_of(&self.others[lane as usize - 2], span)
    }

    fn follow_all(&mut self, span: Span, shares: &Shares)
        ensures { self.new ≡ map (followed_with span.first span.last shares.now) self.old }
    {
        self.follow_machines(span, shares);
        self.follow_unvouched(shares.unvouched);
    }

    fn follow_machines(&mut self, span: Span, shares: &Shares)
        ensures { self.new ≡ map (shared_with span.first span.last shares.now) self.old }
    {
        self.follow_shared(span.last, &shares.last);
        if span.first == span.last {
            return;
        }
        self.follow_shared(span.first, &shares.first);
    }

    fn follow_shared(&mut self, machine: u32, shared: &Option<Shared>)
        ensures { self.new ≡ map (sharing_track_if machine shared.now) self.old }
    {
        match shared {
            None => {}
            Some(shared) => self.follow_some(machine, shared),
        }
    }

    fn follow_some(&mut self, machine: u32, shared: &Shared)
        ensures { self.new ≡ map (sharing_track machine shared.now) self.old }
    {
        self.first.state.share(machine, shared);
        share_all(self.others.as_mut_slice(), machine, shared);
    }

    fn follow_unvouched(&mut self, unvouched: Option<u64>)
        ensures { self.new ≡ map (unvouched_track unvouched) self.old }
    {
        self.first.state.set_unvouched(unvouched);
        unvouch_all(self.others.as_mut_slice(), unvouched);
    }
}

/// What a lane has to share at the machines of a span, and from which line on nobody vouches for it.
#[derive(Drop)]
struct Shares {
    last: Option<Shared>,
    first: Option<Shared>,
    unvouched: Option<u64>,
}

/// Whether two lanes have the same to share, at the machines of a span.
fn are_alike(one: &State, other: &State, span: Span) -> bool
    requires one { AreNumbered one.now }
    requires other { AreNumbered other.now }
    ensures { (result ≡ true) ↔ ShareAlike span.first span.last one.now other.now }
{
    one.unvouched() == other.unvouched()
        && one.shares_alike(span.last, other)
        && (span.first == span.last || one.shares_alike(span.first, other))
}

/// Another lane than this one.
fn lane_beside(lane: u32) -> u32
    ensures { result ≡ lane_beside lane }
{
    if lane == 1 {
        return 2;
    }
    1
}

fn shares_of(track: &Track, span: Span) -> Shares
    requires { AreNumbered track.now.state }
    ensures last { result.last ≡ shared_in span.last track.now.state }
    ensures first { result.first ≡ shared_in span.first track.now.state }
    ensures unvouched { result.unvouched ≡ track.now.state.unvouched }
{
    Shares {
        last: track.state.shared(span.last),
        first: track.state.shared(span.first),
        unvouched: track.state.unvouched(),
    }
}

/// A machine on each lane follows another of its lanes.
fn share_all(tracks: &mut [Track], machine: u32, shared: &Shared)
    ensures { tracks.new ≡ map (sharing_track machine shared.now) tracks.old }
{
    for track in tracks.iter_mut() {
        track.state.share(machine, shared);
    }
}

/// Nobody vouches for any lane from this line on, if there is one.
fn unvouch_all(tracks: &mut [Track], unvouched: Option<u64>)
    ensures { tracks.new ≡ map (unvouched_track unvouched) tracks.old }
{
    for track in tracks.iter_mut() {
        track.state.set_unvouched(unvouched);
    }
}
