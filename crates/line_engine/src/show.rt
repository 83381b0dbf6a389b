//! What the report shows of all machines.

ghost use Rattle.std.specs.Prelude.{◌≡◌, ◌<◌, ◌+◌, ◌++◌, None, OnOk, drop};
ghost use Rattle.std.specs.Option.{option_copied};
ghost use Rattle.node_core.specs.Own.{id_of};
ghost use Rattle.law_lanes.specs.Shown.{front_shown};
ghost use Rattle.line_report.specs.Lanes.{told_on};
ghost use Rattle.line_step.specs.Shown.{between_shown, kept_shown, taken_below};

use board_record::{BoardId, Record};
use line_base::Memory;
use line_report::{Happening, LaneHappened};
use node_core::Node;

/// What the machine behind so many others keeps on a lane, and the boards in handovers to the next
/// one; nothing where there is no such machine.
pub fn show_front(
    lane: u32,
    machines: &[Node],
    before: u32,
    told: &mut LaneHappened,
) -> Result<(), Memory>
    requires { before < 64 }
    ensures { OnOk result
        (told.new ≡ told.old ++ front_shown lane (before + 1) (drop before machines.now)) }
{
    let Some(node) = machines.get(before as usize) else {
        return Ok(());
    };
    let number = before + 1;
    show_kept(lane, number, node.kept(), told)?;
    let above = id_of(node.outlet().holds());
    show_between(lane, number, above, taken_behind(machines, number), told)
}

/// The board that the intake behind so many machines holds.
fn taken_behind(machines: &[Node], number: u32) -> Option<BoardId>
    ensures { result ≡ taken_below (drop number machines.now) }
{
    match machines.get(number as usize) {
        Some(next) => id_of(next.intake().holds()),
        None => None,
    }
}

fn show_kept(
    lane: u32,
    machine: u32,
    kept: &[Record],
    told: &mut LaneHappened,
) -> Result<(), Memory>
    ensures { OnOk result (told.new ≡ told.old ++ told_on lane (kept_shown machine kept.now)) }
{
    for board in kept {
        let happening = Happening::Shown {
            machine,
            id: board.id,
            quality: board.quality,
        };
        told.tell(lane, happening)?;
    }
    Ok(())
}

/// The board that the upper outlet holds, and the one that the lower intake holds where it is
/// another.
fn show_between(
    lane: u32,
    gap: u32,
    above: Option<BoardId>,
    below: Option<BoardId>,
    told: &mut LaneHappened,
) -> Result<(), Memory>
    ensures { OnOk result (told.new ≡ told.old ++ told_on lane (between_shown gap above below)) }
{
    let Some(first) = above else {
        return show_held(lane, gap, below, told);
    };
    told.tell(lane, Happening::ShownBetween { gap, id: first })?;
    match below {
        None => Ok(()),
        Some(second) => {
            if second == first {
                return Ok(());
            }
            told.tell(lane, Happening::ShownBetween { gap, id: second })
        }
    }
}

/// The board of one half, where it holds one.
fn show_held(
    lane: u32,
    gap: u32,
    held: Option<BoardId>,
    told: &mut LaneHappened,
) -> Result<(), Memory>
    ensures { OnOk result (told.new ≡ told.old ++ told_on lane (between_shown gap None held)) }
{
    match held {
        None => Ok(()),
        Some(id) => told.tell(lane, Happening::ShownBetween { gap, id }),
    }
}

/// The id of a half's record, where it holds one.
fn id_of(board: Option<&Record>) -> Option<BoardId>
    ensures { result ≡ id_of (option_copied board.entry) }
{
    match board {
        Some(board) => Some(board.id),
        None => None,
    }
}
