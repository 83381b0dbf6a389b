//! What the types of happenings say of them. Each function states it of a kind of part: it goes over
//! the part, and changes nothing.

ghost use Rattle.std.specs.Prelude.{◌<◌, ◌^◌};
ghost use Rattle.line_report.specs.Lanes.{part_told, parts_told};
ghost use Rattle.machine_log.specs.Account.{IsProperAct};
ghost use Rattle.law_report_lines.specs.Proper.{AreProper, AreProperOn, AreShiftsProper, GoesToALane, IsProperHappening};

use board_record::BoardId;
use line_report::{Happening, LaneHappened, LanePart, LaneParts};
use machine_log::acts_are_proper;
use node_core::Act;

/// Every id, every name and the number of every lane in what a line of a script told is what its
/// type allows.
pub fn lanes_are_proper(told: &LaneHappened)
    ensures { AreProperOn told.now }
{
    let LaneParts { earlier, last } = told.parts();
    parts_are_proper(earlier);
    part_is_proper(last);
}

fn parts_are_proper(parts: &[LanePart])
    ensures { AreProperOn (parts_told parts.now) }
{
    for part in parts {
        part_is_proper(part);
    }
}

fn part_is_proper(part: &LanePart)
    ensures { AreProperOn (part_told part.now) }
{
    number_is_proper(part.lane);
    let told = part.told.list();
    happenings_are_proper(told);
    shifts_are_proper(told);
}

fn happenings_are_proper(told: &[Happening])
    ensures { AreProper told.now }
{
    for happening in told {
        happening_is_proper(happening);
    }
}

fn happening_is_proper(happening: &Happening)
    ensures { IsProperHappening happening.now }
{
    match happening {
        Happening::Done { machine, act } => {
            number_is_proper(*machine);
            act_is_proper(act);
        }
        Happening::With { machine, id } => {
            number_is_proper(*machine);
            id_is_proper(*id);
        }
        Happening::Between { gap, id } => {
            number_is_proper(*gap);
            id_is_proper(*id);
        }
        Happening::Gone { id } => id_is_proper(*id),
        Happening::Lanes { .. }
        | Happening::Machine { .. }
        | Happening::Bridge { .. }
        | Happening::Cut { .. }
        | Happening::Stop { .. }
        | Happening::Spoils { .. }
        | Happening::Moved { .. }
        | Happening::Lie { .. }
        | Happening::Unseen { .. }
        | Happening::Unvouched
        | Happening::No(_)
        | Happening::Shown { .. }
        | Happening::ShownBetween { .. } => {}
    }
}

fn act_is_proper(act: &Act)
    ensures { IsProperAct act.now }
{
    acts_are_proper(std::slice::from_ref(act));
}

fn shifts_are_proper(told: &[Happening])
    ensures { AreShiftsProper told.now }
{
    for happening in told {
        shift_is_proper(happening);
    }
}

fn shift_is_proper(happening: &Happening)
    ensures { GoesToALane happening.now }
{
    if let Happening::Done {
        act: Act::Gives { to, .. },
        ..
    } = happening
    {
        number_is_proper(*to);
    }
}

/// The number of a machine, a gap or a lane has 32 bits.
fn number_is_proper(number: u32)
    ensures { number < 2 ^ 32 }
{
    let _number = number;
}

/// An id has 128 bits.
fn id_is_proper(id: BoardId)
    ensures { id < 2 ^ 128 }
{
    let _number = id.number();
}
