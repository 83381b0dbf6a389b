ghost use Rattle.std.specs.Prelude.{◌≡◌, ◌++◌, true, Ok, OnOk};
ghost use Rattle.line_report.specs.Texts.{act_text, switch_word};
ghost use Rattle.node_core.specs.declared.act.Act.TheVariants as acts;
ghost use Rattle.machine_log.specs.Texts.{at_gap, deed_text, drive_line, drive_text, drives_lines, gets_text, gives_text, line_of, lines_of, log_line, log_text, news_line, news_lines, refused_line, no_line};

use crate::drives::Drives;
use board_record::BoardId;
use line_base::{Memory, Side};
use line_report::{Reason, side_word, write_act, write_reason};
use line_script::LineWhy;
use node_core::{Act, Deed};
use std::io::Write;

/// Appends the text of an act of this machine: its line in the log, without the turn and the end of
/// the line. `Memory` where there is no room for it.
pub fn write_log_text(machine: u32, act: &Act, to: &mut Vec<u8>) -> Result<(), Memory>
    ensures { OnOk result (to.new.items ≡ to.old.items ++ log_text machine act.now) }
{
    match act {
        Act::Drive(side, on) => write_drive_text(machine, *side, *on, to),
        Act::Deed(deed) => write_deed(*deed, to),
        Act::Gives { id, .. } => write_gives(machine, *id, to),
        Act::Gets { id } => write_gets(machine, *id, to),
        _ => write_act(machine, act, to),
    }
}

/// Appends the lines of a step's acts, those of its drives where these are told.
pub fn write_lines(
    told: bool,
    turn: u64,
    machine: u32,
    acts: &[Act],
    to: &mut Vec<u8>,
) -> Result<(), Memory>
    ensures { OnOk result (to.new.items ≡ to.old.items ++ lines_of told turn machine acts.now) }
{
    for act in acts {
        write_line(told, turn, machine, act, to)?;
    }
    Ok(())
}

/// Appends the line of an act. A drive has one where the drives are told.
fn write_line(
    told: bool,
    turn: u64,
    machine: u32,
    act: &Act,
    to: &mut Vec<u8>,
) -> Result<(), Memory>
    ensures { OnOk result (to.new.items ≡ to.old.items ++ line_of told turn machine act.now) }
{
    match act {
        Act::Drive(side, on) => write_drive_if(told, turn, machine, *side, *on, to),
        Act::Deed(deed) => write_deed_line(turn, *deed, to),
        Act::Gives { id, .. } => write_gives_line(turn, machine, *id, to),
        Act::Gets { id } => write_gets_line(turn, machine, *id, to),
        _ => write_act_line(turn, machine, act, to),
    }
}

fn write_drive_if(
    told: bool,
    turn: u64,
    machine: u32,
    side: Side,
    on: bool,
    to: &mut Vec<u8>,
) -> Result<(), Memory>
    ensures { OnOk result
        (to.new.items ≡ to.old.items ++ line_of told turn machine (acts.Drive side on)) }
{
    if !told {
        return Ok(());
    }
    write_drive(turn, machine, side, on, to)
}

fn write_drive_text(machine: u32, side: Side, on: bool, to: &mut Vec<u8>) -> Result<(), Memory>
    ensures { OnOk result (to.new.items ≡ to.old.items ++ drive_text machine side on) }
{
    let side = side_word(side);
    let switch = switch_word(on);
    written(write!(to, "drive {machine} {side} {switch}"))
}

/// Appends the line of a drive.
fn write_drive(
    turn: u64,
    machine: u32,
    side: Side,
    on: bool,
    to: &mut Vec<u8>,
) -> Result<(), Memory>
    ensures { OnOk result (to.new.items ≡ to.old.items ++ drive_line turn machine side on) }
{
    let side = side_word(side);
    let switch = switch_word(on);
    written(write!(to, "{turn} drive {machine} {side} {switch}\n"))
}

fn switch_word(on: bool) -> &'static str
    ensures { result.now ≡ switch_word on }
{
    if on { "on" } else { "off" }
}

/// Appends what is news of a step, where the drives are told.
pub fn write_news(
    told: bool,
    turn: u64,
    machine: u32,
    acts: &[Act],
    to: &mut Vec<u8>,
) -> Result<(), Memory>
    ensures { OnOk result
        (to.new.items ≡ to.old.items ++ news_lines told turn machine acts.now) }
{
    if !told {
        return Ok(());
    }
    write_all_news(turn, machine, acts, to)
}

fn write_all_news(turn: u64, machine: u32, acts: &[Act], to: &mut Vec<u8>) -> Result<(), Memory>
    ensures { OnOk result
        (to.new.items ≡ to.old.items ++ news_lines true turn machine acts.now) }
{
    for act in acts {
        write_news_act(turn, machine, act, to)?;
    }
    Ok(())
}

fn write_news_act(turn: u64, machine: u32, act: &Act, to: &mut Vec<u8>) -> Result<(), Memory>
    ensures { OnOk result (to.new.items ≡ to.old.items ++ news_line turn machine act.now) }
{
    match act {
        Act::Drive(_, _) | Act::Connects | Act::Notices(_) | Act::Closes(_) => {
            write_line(true, turn, machine, act, to)
        }
        _ => Ok(()),
    }
}

/// Appends what each drive is, where the drives are told.
pub fn write_drives(
    told: bool,
    turn: u64,
    machine: u32,
    drives: Drives,
    to: &mut Vec<u8>,
) -> Result<(), Memory>
    ensures { OnOk result
        (to.new.items ≡ to.old.items ++ drives_lines told turn machine drives) }
{
    if !told {
        return Ok(());
    }
    write_both_drives(turn, machine, drives, to)
}

fn write_both_drives(
    turn: u64,
    machine: u32,
    drives: Drives,
    to: &mut Vec<u8>,
) -> Result<(), Memory>
    ensures { OnOk result
        (to.new.items ≡ to.old.items ++ drives_lines true turn machine drives) }
{
    write_drive(turn, machine, Side::Entry, drives.entry, to)?;
    write_drive(turn, machine, Side::Exit, drives.exit, to)
}

fn write_act_line(turn: u64, machine: u32, act: &Act, to: &mut Vec<u8>) -> Result<(), Memory>
    ensures { OnOk result
        (to.new.items ≡ to.old.items ++ log_line turn (act_text machine act.now)) }
{
    written(write!(to, "{turn} "))?;
    write_act(machine, act, to)?;
    written(write!(to, "\n"))
}

fn write_deed_line(turn: u64, deed: Deed, to: &mut Vec<u8>) -> Result<(), Memory>
    ensures { OnOk result (to.new.items ≡ to.old.items ++ log_line turn (deed_text deed)) }
{
    written(write!(to, "{turn} "))?;
    write_deed(deed, to)?;
    written(write!(to, "\n"))
}

fn write_deed(deed: Deed, to: &mut Vec<u8>) -> Result<(), Memory>
    ensures { OnOk result (to.new.items ≡ to.old.items ++ deed_text deed) }
{
    match deed {
        Deed::Opens(id) => write_at_gap("opens", Side::Exit, id, to),
        Deed::Refuses(id) => write_at_gap("refuses", Side::Exit, id, to),
        Deed::Leaves(id) => write_at_gap("leaves", Side::Exit, id, to),
        Deed::Returns(id) => write_at_gap("returns", Side::Exit, id, to),
        Deed::Loses(id) => write_at_gap("loses", Side::Exit, id, to),
        Deed::Starts(id) => write_at_gap("starts", Side::Entry, id, to),
        Deed::Settles(id) => write_at_gap("settles", Side::Entry, id, to),
        Deed::Drops(id) => write_at_gap("drops", Side::Entry, id, to),
    }
}

fn write_gives_line(turn: u64, machine: u32, id: BoardId, to: &mut Vec<u8>) -> Result<(), Memory>
    ensures { OnOk result (to.new.items ≡ to.old.items ++ log_line turn (gives_text machine id)) }
{
    written(write!(to, "{turn} "))?;
    write_gives(machine, id, to)?;
    written(write!(to, "\n"))
}

fn write_gets_line(turn: u64, machine: u32, id: BoardId, to: &mut Vec<u8>) -> Result<(), Memory>
    ensures { OnOk result (to.new.items ≡ to.old.items ++ log_line turn (gets_text machine id)) }
{
    written(write!(to, "{turn} "))?;
    write_gets(machine, id, to)?;
    written(write!(to, "\n"))
}

/// Appends that a board goes to another lane of the machine.
fn write_gives(machine: u32, id: BoardId, to: &mut Vec<u8>) -> Result<(), Memory>
    ensures { OnOk result (to.new.items ≡ to.old.items ++ gives_text machine id) }
{
    written(write!(to, "gives {machine} {id}"))
}

/// Appends that a board comes from another lane of the machine.
fn write_gets(machine: u32, id: BoardId, to: &mut Vec<u8>) -> Result<(), Memory>
    ensures { OnOk result (to.new.items ≡ to.old.items ++ gets_text machine id) }
{
    written(write!(to, "gets {machine} {id}"))
}

/// Appends a word, a side and an id.
pub fn write_at_gap(word: &str, side: Side, id: BoardId, to: &mut Vec<u8>) -> Result<(), Memory>
    ensures { OnOk result (to.new.items ≡ to.old.items ++ at_gap word.now side id) }
{
    let side = side_word(side);
    written(write!(to, "{word} {side} {id}"))
}

/// Appends the line of a panel line that was refused.
pub fn write_refused(turn: u64, why: LineWhy, to: &mut Vec<u8>) -> Result<(), Memory>
    ensures { OnOk result (to.new.items ≡ to.old.items ++ refused_line turn why) }
{
    written(write!(to, "{turn} refused: {why}\n"))
}

/// Appends the line of a panel line that can't be done.
pub fn write_no(turn: u64, reason: &Reason, to: &mut Vec<u8>) -> Result<(), Memory>
    ensures { OnOk result (to.new.items ≡ to.old.items ++ no_line turn reason.now) }
{
    written(write!(to, "{turn} no: "))?;
    write_reason(reason, to)?;
    written(write!(to, "\n"))
}

/// A write that was done, or the memory that it wanted.
pub fn written<E: Drop>(answer: Result<(), E>) -> Result<(), Memory>
    ensures { OnOk result (answer ≡ Ok tt) }
{
    match answer {
        Ok(()) => Ok(()),
        Err(_) => Err(Memory),
    }
}
