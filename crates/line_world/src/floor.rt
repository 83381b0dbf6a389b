ghost use Rattle.std.specs.Prelude.{◌≡◌, ◌++◌, ◌∷◌, [], ℕ, IfOk, IfSome, OnOk, OnErr, drop, is_some, length, slice_get};
ghost use Rattle.std.specs.Bool.{OnTrue};
ghost use Rattle.line_world.specs.FloorPlan.{FloorPlan, IsGap, IsMachine, IsWhole, board_found, drive_of, gap_at, machine_at, no_floor, one_machine_more, place_of, with_boards, with_drive, with_gap, with_new_id, with_unread, without_board};
ghost use Rattle.line_world.specs.Moves.{AnswersFloor};
ghost use Rattle.line_world.specs.Boards.{ChangesId, ChangesPlace, GainsPlace, KeepsBoards, KeepsPlaces, LosesBoard, LosesPlace, boards_on};
ghost use Rattle.line_world.specs.Events.{ReachesBothSides, TellsBothSides};

use crate::around::apply_around;
use crate::board::Board;
use crate::gap::{AtGap, Gap};
use crate::moves::{Move, MoveError, MoveNo};
use crate::sensors::Sensors;
use crate::station::Station;
use board_record::{BoardId, Sensed};
use line_base::{Memory, Side};
use std::alloc::Global;
use std::marker::Model;

/// The floor of a line: for each machine its boards and the sensor events that it hasn't read,
/// for each gap what lies in it and its two drives.
///
/// Machines and gaps are numbered from 1, and gap k lies between machines k and k + 1. A call that
/// names one asks that it is there; `apply` alone is itself the test.
#[derive(Debug, Drop)]
pub struct Floor {
    alloc: Global,
    machines: Vec<Station>,
    gaps: Vec<AtGap>,
    /// How many boards are on the floor.
    boards: usize,
}

impl Model for Floor {
    ghost use Rattle.line_world.specs.FloorPlan.{FloorPlan};

    ghost Value = { FloorPlan };

    ghost use Rattle.line_world.specs.Counted.{IsCounted};

    ghost view = { λ floor. record { machines = floor.machines.items; gaps = floor.gaps.items } };

    ghost invariant = { λ floor. IsCounted floor.machines.items floor.gaps.items floor.boards };
}

impl Floor {
    /// A floor without a machine.
    pub fn new(alloc: Global) -> Floor
        ensures { result ≡ no_floor }
    {
        Floor {
            alloc,
            machines: Vec::new(alloc),
            gaps: Vec::new(alloc),
            boards: 0,
        }
    }

    /// Adds a machine at the downstream end, and a free gap before it where it isn't the first.
    /// `Memory` where there is no room for it; the floor is then as it was.
    pub fn add_machine(&mut self) -> Result<(), Memory>
        ensures ok { OnOk result (self.new ≡ one_machine_more self.old) }
        ensures memory { OnErr result (self.new ≡ self.old) }
    {
        let is_first = self.machines.is_empty();
        if self.gaps.reserve(1).is_err() {
            return Err(Memory);
        }
        let station = Station::new(self.alloc);
        if self.machines.push(station).is_err() {
            return Err(Memory);
        }
        if !is_first {
            self.gaps
                .push(AtGap {
                    lies: Gap::Free,
                    exit_drive: false,
                    entry_drive: false,
                })
                .unwrap();
        }
        Ok(())
    }

    /// How many machines there are. There is one gap fewer, and none where there is no machine.
    pub fn machines(&self) -> usize
        ensures count { result ≡ length self.now.machines }
        ensures whole { IsWhole self.now }
    {
        self.machines.len()
    }

    /// The boards at a machine, the front one first.
    pub fn list(&self, machine: usize) -> &[Board]
        requires { IsMachine self.now machine }
        ensures { result.now ≡ (machine_at self.now machine).boards }
    {
        self.machines[machine - 1].boards()
    }

    /// The place of the first board with an id in a machine's list, counted from the front.
    pub fn place_of(&self, machine: usize, id: BoardId) -> Option<usize>
        requires { IsMachine self.now machine }
        ensures { result ≡ place_of id (machine_at self.now machine).boards }
    {
        self.machines[machine - 1].place_of(id)
    }

    /// What lies in a gap.
    pub fn gap(&self, gap: usize) -> Gap
        requires { IsGap self.now gap }
        ensures { result ≡ (gap_at self.now gap).lies }
    {
        self.gaps[gap - 1].lies
    }

    /// Whether a drive at a gap runs: at `Exit` that of the upstream machine, at `Entry` that of
    /// the downstream one.
    pub fn drive(&self, gap: usize, side: Side) -> bool
        requires { IsGap self.now gap }
        ensures { result ≡ drive_of (gap_at self.now gap) side }
    {
        self.gaps[gap - 1].drive(side)
    }

    /// The sensor events that a machine hasn't read, the oldest first.
    pub fn unread(&self, machine: usize) -> &[Sensed]
        requires { IsMachine self.now machine }
        ensures { result.now ≡ (machine_at self.now machine).unread }
    {
        self.machines[machine - 1].unread()
    }

    /// How many boards are on the floor, at machines and in gaps.
    pub fn boards(&self) -> usize
        ensures { result ≡ length (boards_on self.now) }
    {
        self.boards
    }

    /// Does a move at a gap. `No` with the first reason of the move table that holds, `NoGap`
    /// where there is no such gap; `Memory` where none holds and there is no room. After an error
    /// the floor is as it was.
    pub fn apply(&mut self, gap: usize, step: Move) -> Result<(), MoveError>
        ensures answer { AnswersFloor gap step self.old self.new result }

        // a move makes or loses no board but that `take` takes the one in the gap
        ensures boards { OnOk result
            (KeepsBoards step (gap_at self.old gap).lies (boards_on self.old) (boards_on self.new)) }

        // a board that was in one place is in one place again
        ensures places { OnOk result (KeepsPlaces step (gap_at self.old gap).lies self.old self.new) }

        ensures events { OnOk result (ReachesBothSides gap step self.old self.new) }

        // said by side: `Left` comes to the exit alone, `Full` to the entry alone
        ensures told { OnOk result (TellsBothSides gap step self.old self.new) }

        ensures machines { length self.new.machines ≡ length self.old.machines }
        ensures refused { OnErr result (self.new ≡ self.old) }
    {
        if gap == 0 || gap >= self.machines.len() {
            return Err(MoveError::No(MoveNo::NoGap));
        }
        apply_at(&mut self.machines, &mut self.gaps, gap, step)?;
        if let Move::Take = step {
            self.boards -= 1;
        }
        Ok(())
    }

    /// Switches a drive at a gap: at `Exit` that of the upstream machine, at `Entry` that of the
    /// downstream one.
    pub fn set_drive(&mut self, gap: usize, side: Side, on: bool)
        requires { IsGap self.old gap }
        ensures after { self.new ≡ with_gap self.old gap (with_drive (gap_at self.old gap) side on) }
        ensures boards { boards_on self.new ≡ boards_on self.old }
        ensures machines { length self.new.machines ≡ length self.old.machines }
    {
        self.gaps[gap - 1].set_drive(side, on);
    }

    /// Takes the sensor events that a machine hasn't read. `Memory` where there is no room for
    /// their list; they are then unread as before.
    pub fn read_all(&mut self, machine: usize) -> Result<Sensors, Memory>
        requires { IsMachine self.old machine }
        ensures events { IfOk result (λ events. events ≡ (machine_at self.old machine).unread) }
        ensures ok { OnOk result (self.new ≡ with_unread self.old machine []) }
        ensures memory { OnErr result (self.new ≡ self.old) }
        ensures boards { boards_on self.new ≡ boards_on self.old }
        ensures machines { length self.new.machines ≡ length self.old.machines }
    {
        self.machines[machine - 1].read_all(self.alloc)
    }

    /// Puts a board at the back of a machine's list. `Memory` where there is no room for it; the
    /// floor is then as it was.
    pub fn place(&mut self, machine: usize, board: Board) -> Result<(), Memory>
        requires { IsMachine self.old machine }
        ensures ok { OnOk result
            (self.new
            ≡ with_boards self.old machine ((machine_at self.old machine).boards ++ board ∷ [])) }
        ensures memory { OnErr result (self.new ≡ self.old) }
        ensures boards { OnOk result (LosesBoard (boards_on self.new) (boards_on self.old) board) }
        ensures places { OnOk result (GainsPlace self.old self.new board) }
        ensures machines { length self.new.machines ≡ length self.old.machines }
    {
        if self.boards == usize::MAX {
            return Err(Memory);
        }
        self.machines[machine - 1].place(board)?;
        self.boards += 1;
        Ok(())
    }

    /// Takes the first board with an id out of a machine's list. `None` exactly where there is no
    /// such board; the floor is then as it was.
    pub fn remove(&mut self, machine: usize, id: BoardId) -> Option<Board>
        requires { IsMachine self.old machine }
        ensures taken { result ≡ board_found id (machine_at self.old machine).boards }
        ensures left { self.new
            ≡ with_boards self.old machine
            (without_board id (machine_at self.old machine).boards) }
        ensures boards { IfSome result (LosesBoard (boards_on self.old) (boards_on self.new)) }
        ensures places { IfSome result (LosesPlace self.old self.new) }
        ensures machines { length self.new.machines ≡ length self.old.machines }
    {
        let board = self.machines[machine - 1].remove(id)?;
        self.boards -= 1;
        Some(board)
    }

    /// Gives the first board with an id in a machine's list another one. `false` exactly where
    /// there is no such board; the floor is then as it was.
    pub fn replace(&mut self, machine: usize, old: BoardId, new: BoardId) -> bool
        requires { IsMachine self.old machine }
        ensures found { result ≡ is_some (place_of old (machine_at self.old machine).boards) }
        ensures after { self.new
            ≡ with_boards self.old machine
            (with_new_id old new (machine_at self.old machine).boards) }
        ensures boards { OnTrue result (ChangesId old new (boards_on self.old) (boards_on self.new)) }
        ensures places { OnTrue result (ChangesPlace old new self.old self.new) }
        ensures machines { length self.new.machines ≡ length self.old.machines }
    {
        self.machines[machine - 1].replace(old, new)
    }

    /// Adds a sensor event that no move caused, as the last one that the machine has to read.
    /// `Memory` where there is no room for it; the floor is then as it was.
    pub fn lie(&mut self, machine: usize, sensed: Sensed) -> Result<(), Memory>
        requires { IsMachine self.old machine }
        ensures ok { OnOk result
            (self.new
            ≡ with_unread self.old machine ((machine_at self.old machine).unread ++ sensed ∷ [])) }
        ensures memory { OnErr result (self.new ≡ self.old) }
        ensures boards { boards_on self.new ≡ boards_on self.old }
        ensures machines { length self.new.machines ≡ length self.old.machines }
    {
        self.machines[machine - 1].tell(sensed)
    }

    /// Takes the front board out of a machine's list, with no event. `None` exactly where the list
    /// is empty; the floor is then as it was.
    pub fn unseen_out(&mut self, machine: usize) -> Option<Board>
        requires { IsMachine self.old machine }
        ensures front { result ≡ slice_get (machine_at self.old machine).boards 0 }
        ensures after { self.new
            ≡ with_boards self.old machine (drop 1 (machine_at self.old machine).boards) }
        ensures boards { IfSome result (LosesBoard (boards_on self.old) (boards_on self.new)) }
        ensures places { IfSome result (LosesPlace self.old self.new) }
        ensures machines { length self.new.machines ≡ length self.old.machines }
    {
        let board = self.machines[machine - 1].take_front()?;
        self.boards -= 1;
        Some(board)
    }
}

/// Does a move at a gap that is there.
fn apply_at(
    machines: &mut Vec<Station>,
    gaps: &mut Vec<AtGap>,
    gap: usize,
    step: Move,
) -> Result<(), MoveError>
    requires there { IsGap (record { machines = machines.old.items; gaps = gaps.old.items }) gap }
    requires whole { IsWhole (record { machines = machines.old.items; gaps = gaps.old.items }) }
    ensures { AnswersFloor gap step
        (record { machines = machines.old.items; gaps = gaps.old.items })
        (record { machines = machines.new.items; gaps = gaps.new.items }) result }
{
    apply_parted(machines, gaps, gap, step)
}

/// The same on slices, which can be parted at the gap.
fn apply_parted(
    machines: &mut [Station],
    gaps: &mut [AtGap],
    gap: usize,
    step: Move,
) -> Result<(), MoveError>
    requires there { IsGap (record { machines = machines.old; gaps = gaps.old }) gap }
    requires whole { IsWhole (record { machines = machines.old; gaps = gaps.old }) }
    ensures { AnswersFloor gap step (record { machines = machines.old; gaps = gaps.old })
        (record { machines = machines.new; gaps = gaps.new }) result }
{
    let (above, below) = machines.split_at_mut(gap);
    apply_around(&mut above[gap - 1], &mut gaps[gap - 1], &mut below[0], step)
}
