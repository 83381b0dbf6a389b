ghost use Rattle.std.specs.Prelude.{◌≡◌, ◌++◌, OnOk, IfOk};
ghost use Rattle.smema_bridge.specs.Signals.{bridge_edges};
ghost use Rattle.node_core.specs.Halves.{front_id};
ghost use Rattle.node_core.specs.Bridge.{failed_front, fails, sets_level, tells_level};
ghost use Rattle.node_core.specs.Node.{first_levels};
ghost use Rattle.node_core.specs.Signals.{edges_told, levels_settled, levels_told, moves_out, quality_taken, signal_told, signalled};

use crate::act::{Act, Outputs, Setting, Signal};
use crate::announce::is_front;
use crate::desk::Desk;
use crate::input::Input;
use crate::lane::Body;
use board_record::{BoardId, Record};
use handover_in::InPhase;
use handover_out::OutPhase;
use line_base::{Memory, Quality};
use smema_bridge::{Bridge, BridgeEdges, SegmentLine};

/// The levels of a new machine: all off, if it is a bridge.
pub(crate) fn first_bridge(is_bridge: bool) -> Option<Bridge>
    ensures { result ≡ first_levels is_bridge }
{
    if is_bridge { Some(Bridge::new()) } else { None }
}

fn front_id(kept: &[Record]) -> Option<BoardId>
    ensures { result ≡ front_id kept.now }
{
    match kept.first() {
        Some(board) => Some(board.id),
        None => None,
    }
}

/// The front board, where this level says that it is a failed one.
fn failed_front(bridge: Option<Bridge>, line: SegmentLine, on: bool, body: &Body) -> Option<BoardId>
    ensures { result ≡ failed_front bridge line on body.now }
{
    let kept = body.kept.list();
    let touched = is_front(body.outlet.touched(), kept.first());
    match bridge {
        Some(mut bridge) => bridge.level(line, on, front_id(kept), touched),
        None => None,
    }
}

impl Body {
    /// A level of the segment is told of, and is the bridge's will at its side.
    fn tell_level(&mut self, line: SegmentLine, on: bool, to: &mut Outputs) -> Result<(), Memory>
        ensures body { OnOk result (self.new ≡ (tells_level line on self.old).body) }
        ensures acts { OnOk result (to.new ≡ to.old ++ (tells_level line on self.old).acts) }
    {
        match line {
            SegmentLine::Ready => self.entry.willing = on,
            SegmentLine::Available => self.exit.willing = on,
            SegmentLine::Failed => {}
        }
        to.push(Act::Sets(Setting::Level(line, on)))
    }

    /// A board, if there is one, is known to be failed.
    fn fail(&mut self, board: Option<BoardId>, to: &mut Outputs) -> Result<(), Memory>
        ensures body { OnOk result (self.new ≡ (fails board self.old).body) }
        ensures acts { OnOk result (to.new ≡ to.old ++ (fails board self.old).acts) }
    {
        match board {
            Some(id) => self.mark(id, Quality::Failed, to),
            None => Ok(()),
        }
    }

    /// A level of the segment is set.
    pub(crate) fn set_level(
        &mut self,
        desk: &Desk,
        line: SegmentLine,
        on: bool,
        to: &mut Outputs,
    ) -> Result<(), Memory>
        ensures body { OnOk result (self.new ≡ (sets_level desk.now line on self.old).body) }
        ensures acts { OnOk result (to.new ≡ to.old ++ (sets_level desk.now line on self.old).acts) }
    {
        self.tell_level(line, on, to)?;
        let failed = failed_front(desk.bridge(), line, on, self);
        self.fail(failed, to)
    }

    /// The quality of the board that the intake is taking.
    fn quality_taken(&self) -> Option<Quality>
        ensures { result ≡ quality_taken self.now.intake.phase }
    {
        if self.intake.phase() != InPhase::Taking {
            return None;
        }
        match self.intake.holds() {
            Some(board) => Some(board.quality),
            None => None,
        }
    }

    /// Whether a board moves out.
    fn moves_out(&self) -> bool
        ensures { result ≡ moves_out self.now }
    {
        self.outlet.phase() == OutPhase::Moving
    }
}

fn tell_signal(signal: Signal, edge: Option<bool>, to: &mut Outputs) -> Result<(), Memory>
    ensures { OnOk result (to.new ≡ to.old ++ signal_told signal edge) }
{
    match edge {
        Some(on) => to.push(Act::Signals(signal, on)),
        None => Ok(()),
    }
}

fn tell_edges(edges: BridgeEdges, to: &mut Outputs) -> Result<(), Memory>
    ensures { OnOk result (to.new ≡ to.old ++ edges_told edges) }
{
    tell_signal(Signal::EntryAvailable, edges.available, to)?;
    tell_signal(Signal::EntryFailed, edges.failed, to)?;
    tell_signal(Signal::ExitReady, edges.ready, to)
}

/// The levels of a bridge as an input leaves them.
pub(crate) fn after_input(bridge: Option<Bridge>, input: &Input<'_>) -> Option<Bridge>
    ensures { result ≡ levels_told input.now bridge }
{
    let mut bridge = bridge?;
    if let Input::Level(line, on) = input {
        let _ = bridge.level(*line, *on, None, false);
    }
    Some(bridge)
}

/// A bridge sets its own signals by what its two handovers do, and tells of each that changed. The
/// answer is its levels then; a machine that is no bridge has none.
pub(crate) fn signal(
    bridge: Option<Bridge>,
    body: &Body,
    to: &mut Outputs,
) -> Result<Option<Bridge>, Memory>
    ensures levels { IfOk result (λ after. after ≡ levels_settled body.now bridge) }
    ensures acts { OnOk result (to.new ≡ to.old ++ signalled bridge body.now) }
{
    match bridge {
        Some(mut bridge) => {
            let edges = bridge.settle(body.quality_taken(), body.moves_out());
            tell_edges(edges, to)?;
            Ok(Some(bridge))
        }
        None => Ok(None),
    }
}
