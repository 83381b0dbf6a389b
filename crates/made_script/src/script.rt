ghost use Rattle.std.specs.Prelude.{◌≡◌, IfSome};
ghost use Rattle.std.specs.Iterator.{YieldsFirst, item_count};
ghost use Rattle.line_script.specs.Ranges.{IsWithin};
ghost use Rattle.made_script.specs.Script.{made_script};

use crate::lines::{insertion, line_at};
use line_script::ScriptLine;
use std::marker::Model;

/// The lines of a made script, one after another: two machines that connect, and then for each
/// board from 1 to the script's number fourteen lines that put it in, hand it over and take it
/// out. Every seventh handover is cut off.
///
/// It is seen as the lines that are still to come. No line is kept.
#[derive(Drop)]
pub struct MadeScript {
    round: u32,
    step: usize,
    last: u32,
}

impl Model for MadeScript {
    ghost use Rattle.std.specs.Prelude.{◌≤◌, List};
    ghost use Rattle.line_script.specs.declared.line.ScriptLine.{ScriptLine};
    ghost use Rattle.made_script.specs.Places.{lines_from};

    ghost Value = { List ScriptLine };

    ghost view = { λ script. lines_from script.round script.step script.last };

    ghost invariant = { λ script. (script.round ≤ script.last) × (script.step ≤ 14) };
}

impl MadeScript {
    /// The whole script of a number.
    pub fn of(number: u32) -> MadeScript
        ensures { result ≡ made_script number }
    {
        MadeScript {
            round: 0,
            step: 0,
            last: number,
        }
    }
}

impl Iterator for MadeScript {
    type Item = ScriptLine;

    ghost next_gives = { YieldsFirst (λ rest. rest) };

    ghost remaining = { item_count (λ rest. rest) };

    fn next(&mut self) -> Option<ScriptLine> {
        if let Some(line) = line_at(self.round, self.step) {
            self.step += 1;
            return Some(line);
        }
        if self.round == self.last {
            return None;
        }
        self.round += 1;
        self.step = 1;
        Some(insertion())
    }
}
