ghost use Rattle.std.specs.Prelude.{◌≡◌, ◌++◌, [], OnOk, IfOk};
ghost use Rattle.line_base.specs.declared.states.Side.TheVariants.{Entry, Exit};
ghost use Rattle.line_base.specs.declared.states.Role.TheVariants.{Upstream};
ghost use Rattle.board_record.specs.SubBoards.{unknown_sub};
ghost use Rattle.node_core.specs.declared.input.Input.TheVariants as inputs;
ghost use Rattle.node_core.specs.Halves.{OffersFront};
ghost use Rattle.node_core.specs.Event.{Connect, Accepted, event_did};
ghost use Rattle.node_core.specs.Reads.{all_read};
ghost use Rattle.node_core.specs.Shifts.{given_by};
ghost use Rattle.node_core.specs.Step.{DoesInput, HearsBytes, MeetsInput, StepsLane};
ghost use Rattle.node_core.specs.Supervising.{HasNumber};

use crate::act::{Act, Outputs, Setting};
use crate::desk::Desk;
use crate::input::Input;
use crate::lane::Lane;
use crate::passage::Passage;
use crate::supervising::{Watch, ask, with_tells};
use board_record::{BoardId, IdMaker, Sensed, SubBoard};
use line_base::{Memory, Quality, Side, Text};

/// A circuit of which it isn't known whether it is good.
fn unknown_sub(pos: u32, barcode: Option<Text>) -> SubBoard
    ensures { result ≡ unknown_sub pos barcode }
{
    SubBoard {
        pos,
        barcode,
        state: Quality::Unknown,
    }
}

impl Lane {
    /// Bytes arrive at a side; without a connection they are nobody's.
    #[tactic(auto, using(crate::proofs::Hearing::hears_nothing))]
    fn hear(
        &mut self,
        desk: &Desk,
        side: Side,
        piece: &[u8],
        to: &mut Outputs,
    ) -> Result<(), Memory>
        requires { OffersFront self.old.body }
        ensures { OnOk result
            (HearsBytes desk.now side piece.now self.old self.new to.old to.new) }
    {
        if !self.body.is_open(side) {
            return Ok(());
        }
        match side {
            Side::Entry => self.entry_bytes.hear(&mut self.body, desk, side, piece, to),
            Side::Exit => self.exit_bytes.hear(&mut self.body, desk, side, piece, to),
        }
    }

    /// The connection to the upstream neighbour is made. It begins without bytes.
    fn connect(&mut self, desk: &Desk, to: &mut Outputs) -> Result<(), Memory>
        ensures body { OnOk result (self.new.body ≡ (event_did desk.now Connect self.old.body).body) }
        ensures acts { OnOk result (to.new ≡ to.old ++ (event_did desk.now Connect self.old.body).acts) }
        ensures entry { OnOk result (self.new.entry_bytes ≡ []) }
        ensures exit { OnOk result (self.new.exit_bytes ≡ self.old.exit_bytes) }
    {
        self.entry_bytes.begin(desk.alloc())?;
        to.push(Act::Connects)?;
        self.body.open(desk, Side::Entry, to)
    }

    /// The connection of the downstream neighbour is accepted. It begins without bytes.
    fn accept(&mut self, desk: &Desk, to: &mut Outputs) -> Result<(), Memory>
        ensures body { OnOk result (self.new.body ≡ (event_did desk.now Accepted self.old.body).body) }
        ensures acts { OnOk result (to.new ≡ to.old ++ (event_did desk.now Accepted self.old.body).acts) }
        ensures exit { OnOk result (self.new.exit_bytes ≡ []) }
        ensures entry { OnOk result (self.new.entry_bytes ≡ self.old.entry_bytes) }
    {
        self.exit_bytes.begin(desk.alloc())?;
        self.body.open(desk, Side::Exit, to)
    }

    /// A board is put in, with a new id.
    fn insert(
        &mut self,
        desk: &Desk,
        maker: &mut IdMaker,
        barcode: Option<Text>,
        to: &mut Outputs,
    ) -> Result<(), Memory>
        ensures { OnOk result
            (DoesInput desk.now maker.old maker.new
            (inputs.Insert barcode) self.old self.new to.old to.new) }
    {
        match maker.next() {
            Ok(id) => self.body.insert(desk, id, barcode, to),
            Err(_) => Ok(()),
        }
    }

    /// A board is replaced by another, with a new id.
    fn replace(
        &mut self,
        desk: &Desk,
        maker: &mut IdMaker,
        old: BoardId,
        to: &mut Outputs,
    ) -> Result<(), Memory>
        ensures { OnOk result
            (DoesInput desk.now maker.old maker.new
            (inputs.Replace old) self.old self.new to.old to.new) }
    {
        match maker.next() {
            Ok(new) => self.body.replace(desk, old, new, to),
            Err(_) => Ok(()),
        }
    }

    /// The input of a step is done.
    fn meet(
        &mut self,
        desk: &Desk,
        maker: &mut IdMaker,
        input: Input<'_>,
        slot: &mut Option<Passage>,
        to: &mut Outputs,
    ) -> Result<(), Memory>
        requires offers { OffersFront self.old.body }
        requires upstream { self.old.body.exit.session.role ≡ Upstream }
        requires numbered { HasNumber input desk.now }
        ensures met { OnOk result
            (MeetsInput desk.now maker.old maker.new input.entry self.old self.new to.old to.new) }
        ensures board { OnOk result
            (slot.new ≡ given_by input.entry self.old.body.kept slot.old) }
    {
        match input {
            Input::Nothing => Ok(()),
            Input::Connect => self.connect(desk, to),
            Input::Accepted => self.accept(desk, to),
            Input::Second => self.body.meet_second(desk, to),
            Input::Bytes(side, piece) => self.hear(desk, side, piece, to),
            Input::Notice(side) => self.body.notice(desk, side, to),
            Input::Tick => self.body.tick_both(desk, to),
            Input::Shutdown => self.body.shut_down_both(desk, to),
            Input::Fault(side) => self.body.fault(desk, side, to),
            Input::Will(side, on) => self.body.will(side, on, to),
            Input::Level(line, on) => self.body.set_level(desk, line, on, to),
            Input::Insert(barcode) => self.insert(desk, maker, barcode, to),
            Input::Remove(id) => self.body.remove(id, to),
            Input::Replace(id) => self.replace(desk, maker, id, to),
            Input::Mark(id, quality) => self.body.mark(id, quality, to),
            Input::Forecast => self.body.forecast_front(desk, to),
            Input::Query(barcode) => self.body.ask_for(desk, barcode, to),
            Input::Supervise(on) => to.push(Act::Sets(Setting::Supervise(on))),
            Input::Ask(question) => ask(desk, question, to),
            Input::Answer { query, order } => to.push(Act::Answered(query, order)),
            Input::Sub { id, pos, barcode } => {
                self.body.add_sub(id, unknown_sub(pos, barcode), to)
            }
            Input::Gives { id, to: lane } => self.body.give(id, lane, desk, slot, to),
            Input::Gets(board) => self.body.get(board, to),
        }
    }

    /// A step: the unread events in order, the input, the announcements; and behind each act what
    /// the supervisor is told of it. The record of a board that goes to another lane is put into
    /// the slot.
    pub(crate) fn step(
        &mut self,
        desk: &Desk,
        maker: &mut IdMaker,
        unread: &[Sensed],
        input: Input<'_>,
        slot: &mut Option<Passage>,
    ) -> Result<Outputs, Memory>
        requires offers { OffersFront self.old.body }
        requires upstream { self.old.body.exit.session.role ≡ Upstream }
        requires numbered { HasNumber input desk.now }
        ensures steps { IfOk result
            (StepsLane desk.now unread.now input.entry maker.old maker.new self.old self.new) }
        ensures board { IfOk result
            (λ told. slot.new
            ≡ given_by input.entry (all_read desk.now unread.now self.old.body).body.kept
            slot.old) }
    {
        let watch = Watch::of(desk, &self.body);
        let mut acts = Outputs::new(desk.alloc());
        self.body.read_all(desk, unread, &mut acts)?;
        self.meet(desk, maker, input, slot, &mut acts)?;
        self.body.announce(desk, &mut acts)?;
        let told = with_tells(desk, watch, acts)?;
        Ok(told)
    }
}
