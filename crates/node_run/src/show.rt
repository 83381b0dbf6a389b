//! What the machine keeps and holds, told to the panel.

ghost use Rattle.std.specs.Prelude.{◌≡◌, ◌++◌, [], OnOk, flat_map, option_map};
ghost use Rattle.node_run.specs.Lines.{Tells, shown};
ghost use Rattle.machine_log.specs.Texts.{kept_line, held_line};

use crate::run::Run;
use board_record::Record;
use line_base::{Memory, Side};
use line_report::quality_word;
use machine_log::{write_at_gap, written};
use std::io::Write;

impl Run {
    /// Tells the kept records, and those that the outlet and the intake hold.
    pub fn show(&mut self) -> Result<(), Memory>
        requires { self.old.told ≡ [] }
        ensures rules { self.new.rules ≡ self.old.rules }
        ensures tells { OnOk result
            (Tells (shown self.old.rules self.old.state) self.old.state self.new.state
            self.new.told) }
    {
        write_all_kept(
            self.turn,
            self.rules.number,
            self.node.kept(),
            &mut self.told,
        )?;
        write_held(
            self.turn,
            Side::Exit,
            self.node.outlet().holds(),
            &mut self.told,
        )?;
        write_held(
            self.turn,
            Side::Entry,
            self.node.intake().holds(),
            &mut self.told,
        )?;
        self.echo()
    }
}

fn write_all_kept(
    turn: u64,
    machine: u32,
    boards: &[Record],
    to: &mut Vec<u8>,
) -> Result<(), Memory>
    ensures { OnOk result
        (to.new.items ≡ to.old.items ++ flat_map (kept_line turn machine) boards.now) }
{
    for board in boards {
        write_kept(turn, machine, board, to)?;
    }
    Ok(())
}

fn write_kept(turn: u64, machine: u32, board: &Record, to: &mut Vec<u8>) -> Result<(), Memory>
    ensures { OnOk result (to.new.items ≡ to.old.items ++ kept_line turn machine board.now) }
{
    let id = board.id;
    let quality = quality_word(board.quality);
    written(write!(to, "{turn} show {machine} {id} {quality}\n"))
}

fn write_held(turn: u64, side: Side, board: Option<&Record>, to: &mut Vec<u8>) -> Result<(), Memory>
    ensures { OnOk result
        (to.new.items ≡ to.old.items
        ++ held_line turn side (option_map (λ board. board.now) board.entry)) }
{
    let Some(board) = board else {
        return Ok(());
    };
    written(write!(to, "{turn} "))?;
    write_at_gap("show", side, board.id, to)?;
    written(write!(to, "\n"))
}
