ghost use Rattle.std.specs.Prelude.{◌≡◌, [], ◌∷◌, ◌++◌, OnErr, OnOk};
ghost use Rattle.hermes_element.specs.Standing.{StillStands};
ghost use Rattle.line_report.specs.Lanes.{entries_on, on_lane, part_told, parts_told, told_on};

use crate::happened::Happened;
use crate::happening::Happening;
use crate::texts::append_happening;
use line_base::Memory;
use std::alloc::Global;
use std::marker::Model;
use std::mem;

/// What happened on one lane, in its order.
#[derive(Debug, Drop)]
pub struct LanePart {
    pub lane: u32,
    pub told: Happened,
}

/// What happened on a line of several lanes, in its order: parts of one lane, one behind the other.
/// A line of one lane has one part. It is seen as the list of its happenings, each with its lane.
#[derive(Debug, Drop)]
pub struct LaneHappened {
    alloc: Global,
    earlier: Vec<LanePart>,
    last: LanePart,
}

impl Model for LaneHappened {
    ghost use Rattle.std.specs.Prelude.{List, ◌++◌};
    ghost use Rattle.line_report.specs.declared.happening.LaneHappening.{LaneHappening};
    ghost use Rattle.line_report.specs.Lanes.{part_told, parts_told};

    ghost Value = { List LaneHappening };

    ghost view = { λ happened. parts_told happened.earlier.items ++ part_told happened.last };
}

/// The parts of what happened, to be gone over in their order: the last behind the earlier ones.
pub struct LaneParts<'a> {
    pub earlier: &'a [LanePart],
    pub last: &'a LanePart,
}

impl LaneHappened {
    /// Nothing happened.
    pub fn new(alloc: Global) -> LaneHappened
        ensures { result ≡ [] }
    {
        LaneHappened {
            alloc,
            earlier: Vec::new(alloc),
            last: LanePart {
                lane: 1,
                told: Happened::new(alloc),
            },
        }
    }

    /// What happened, lane by lane as it was told.
    pub fn parts(&self) -> LaneParts<'_>
        ensures { parts_told result.earlier.now ++ part_told result.last.now ≡ self.now }
    {
        LaneParts {
            earlier: self.earlier.as_slice(),
            last: &self.last,
        }
    }

    /// Adds all that happened next on a lane, in its order. `Memory` where there is none for it; a
    /// front of it may be added then.
    pub fn tell_all(&mut self, lane: u32, next: Happened) -> Result<(), Memory>
        ensures { OnOk result (self.new ≡ self.old ++ told_on lane next) }
    {
        if self.last.lane != lane {
            return self.begin(lane, next);
        }
        if self.last.told.list().is_empty() {
            return self.begin(lane, next);
        }
        self.last.told.tell_all(next)
    }

    /// Adds what happened next on a lane. `Memory` where there is none for it; nothing is added then.
    pub fn tell(&mut self, lane: u32, happening: Happening) -> Result<(), Memory>
        ensures told { OnOk result (self.new ≡ self.old ++ on_lane lane happening ∷ []) }
        ensures unchanged { OnErr result (self.new ≡ self.old) }
    {
        if self.last.lane == lane {
            return self.last.told.tell(happening);
        }
        let mut next = Happened::new(self.alloc);
        next.tell(happening)?;
        self.begin(lane, next)
    }

    /// Adds a part, or puts it in the place of the last one where that is empty.
    fn begin(&mut self, lane: u32, told: Happened) -> Result<(), Memory>
        ensures told { OnOk result (self.new ≡ self.old ++ told_on lane told) }
        ensures unchanged { OnErr result (self.new ≡ self.old) }
    {
        if self.last.told.list().is_empty() {
            self.last = LanePart { lane, told };
            return Ok(());
        }
        self.earlier.reserve(1)?;
        let before = mem::replace(&mut self.last, LanePart { lane, told });
        self.earlier.push(before)?;
        Ok(())
    }
}

/// Appends the lines of the report of all that happened, each with the number of the script line.
/// `Memory` where there is no room for them: the text is as it was then.
pub fn write_all(number: u64, told: &LaneHappened, to: &mut Vec<u8>) -> Result<(), Memory>
    ensures kept { StillStands to.old.items to.new.items }
    ensures written { OnOk result (to.new.items ≡ to.old.items ++ entries_on number told.now) }
    ensures unchanged { OnErr result (to.new.items ≡ to.old.items) }
{
    let before = to.len();
    match append_all(number, told, to) {
        Ok(()) => Ok(()),
        Err(Memory) => {
            to.truncate(before);
            Err(Memory)
        }
    }
}

fn append_all(number: u64, told: &LaneHappened, to: &mut Vec<u8>) -> Result<(), Memory>
    ensures kept { StillStands to.old.items to.new.items }
    ensures written { OnOk result (to.new.items ≡ to.old.items ++ entries_on number told.now) }
{
    append_parts(number, told.earlier.as_slice(), to)?;
    append_part(number, &told.last, to)
}

fn append_parts(number: u64, parts: &[LanePart], to: &mut Vec<u8>) -> Result<(), Memory>
    ensures kept { StillStands to.old.items to.new.items }
    ensures written { OnOk result
        (to.new.items ≡ to.old.items ++ entries_on number (parts_told parts.now)) }
{
    for part in parts {
        append_part(number, part, to)?;
    }
    Ok(())
}

fn append_part(number: u64, part: &LanePart, to: &mut Vec<u8>) -> Result<(), Memory>
    ensures kept { StillStands to.old.items to.new.items }
    ensures written { OnOk result
        (to.new.items ≡ to.old.items ++ entries_on number (part_told part.now)) }
{
    for what in part.told.list() {
        append_happening(number, part.lane, what, to)?;
    }
    Ok(())
}
