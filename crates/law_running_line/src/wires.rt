//! What a machine's turn makes of the connections of its two links. Each law is a contract over the
//! definitions of specs/.

ghost use Rattle.std.specs.Prelude.{List};
ghost use Rattle.line_base.specs.declared.states.Side.{Side};
ghost use Rattle.board_record.specs.declared.sensed.Sensed.{Sensed as Sight};
ghost use Rattle.node_core.specs.Desk.{Desk};
ghost use Rattle.node_core.specs.Event.{Event};
ghost use Rattle.node_core.specs.Step.{machine_step};
ghost use Rattle.node_core.specs.declared.lane.Body.{Body as Machine};
ghost use Rattle.law_running_line.specs.Off.{Mutes, Off, StaysOff};

/// A side whose session doesn't stand, and which hears no words in a step, says in it nothing that
/// a half of a handover hears: its session isn't standing behind it, either, and an entry that may
/// find a connection made still may.
pub fn a_side_that_is_off_says_no_word()
    ensures { (side : Side) (desk : Desk) (read : List Sight) (event : Event) (body : Machine)
        → StaysOff side event → Off side body
        → Mutes side body (machine_step desk read event body) }
{}
