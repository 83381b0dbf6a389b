//! The moves, each around its gap: the machine upstream of it, the gap, the machine downstream.
ghost use Rattle.std.specs.Prelude.{◌≡◌, ◌<◌, ◌++◌, ◌∷◌, [], OnOk, OnErr, IfErr, vec_capacity, vec_len};
ghost use Rattle.line_base.specs.declared.states.Side.TheVariants as sides;
ghost use Rattle.line_base.specs.declared.states.SensorEvent.TheVariants as sensors;
ghost use Rattle.line_world.specs.FloorPlan.{AtMachine};
ghost use Rattle.line_world.specs.Moves.{AnswersAround, around_move};
ghost use Rattle.line_world.specs.declared.gap.Gap.TheVariants as gaps;
ghost use Rattle.line_world.specs.declared.moves.Move.TheVariants as moves;
ghost use Rattle.line_world.specs.declared.moves.MoveError.TheVariants as errors;

use crate::board::Board;
use crate::gap::{AtGap, Gap};
use crate::moves::{Move, MoveError, MoveNo};
use crate::station::Station;
use board_record::Sensed;
use line_base::{SensorEvent, Side};

/// Does a move, or says what is against it. After an error all is as it was: room is made before
/// anything changes.
pub fn apply_around(
    up: &mut Station,
    between: &mut AtGap,
    down: &mut Station,
    step: Move,
) -> Result<(), MoveError>
    ensures { AnswersAround step up.old between.old down.old up.new between.new down.new result }
{
    match step {
        Move::Begin => begin(up, between, down),
        Move::Left => leave(up, between),
        Move::Enter => enter(between, down),
        Move::Back => go_back(up, between, down),
        Move::HandIn => hand_in(between, down),
        Move::Take => take(up, between, down),
    }
}

fn begin(up: &mut Station, between: &mut AtGap, down: &mut Station) -> Result<(), MoveError>
    ensures { AnswersAround moves.Begin up.old between.old down.old up.new between.new down.new
        result }
{
    if !between.exit_drive {
        return Err(MoveError::No(MoveNo::ExitDriveOff));
    }
    if between.lies != Gap::Free {
        return Err(MoveError::No(MoveNo::GapNotFree));
    }
    if up.boards.is_empty() {
        return Err(MoveError::No(MoveNo::NothingThere));
    }
    make_room(&mut up.unread)?;
    make_room(&mut down.unread)?;
    between.lies = Gap::Begun(up.boards.remove(0));
    tell(&mut up.unread, Side::Exit, SensorEvent::Begun);
    tell(&mut down.unread, Side::Entry, SensorEvent::Begun);
    Ok(())
}

fn leave(up: &mut Station, between: &mut AtGap) -> Result<(), MoveError>
    ensures { (down : AtMachine)
        → AnswersAround moves.Left up.old between.old down up.new between.new down result }
{
    let Gap::Begun(board) = between.lies else {
        return Err(MoveError::No(MoveNo::NotBegun));
    };
    if !between.exit_drive {
        return Err(MoveError::No(MoveNo::ExitDriveOff));
    }
    if !between.entry_drive {
        return Err(MoveError::No(MoveNo::EntryDriveOff));
    }
    make_room(&mut up.unread)?;
    between.lies = Gap::Left(board);
    between.exit_drive = false;
    tell(&mut up.unread, Side::Exit, SensorEvent::Left);
    Ok(())
}

fn enter(between: &mut AtGap, down: &mut Station) -> Result<(), MoveError>
    ensures { (up : AtMachine)
        → AnswersAround moves.Enter up between.old down.old up between.new down.new result }
{
    let Gap::Left(board) = between.lies else {
        return Err(MoveError::No(MoveNo::NotLeft));
    };
    if !between.entry_drive {
        return Err(MoveError::No(MoveNo::EntryDriveOff));
    }
    come_in(board, between, down)?;
    between.entry_drive = false;
    Ok(())
}

fn go_back(up: &mut Station, between: &mut AtGap, down: &mut Station) -> Result<(), MoveError>
    ensures { AnswersAround moves.Back up.old between.old down.old up.new between.new down.new
        result }
{
    let Gap::Begun(Board { id }) = between.lies else {
        return Err(MoveError::No(MoveNo::NotBegun));
    };
    if between.exit_drive {
        return Err(MoveError::No(MoveNo::ExitDriveOn));
    }
    make_room(&mut up.boards)?;
    make_room(&mut up.unread)?;
    make_room(&mut down.unread)?;
    between.lies = Gap::Free;
    up.boards.insert(0, Board { id }).unwrap();
    tell(&mut up.unread, Side::Exit, SensorEvent::Back);
    tell(&mut down.unread, Side::Entry, SensorEvent::Back);
    Ok(())
}

fn hand_in(between: &mut AtGap, down: &mut Station) -> Result<(), MoveError>
    ensures { (up : AtMachine)
        → AnswersAround moves.HandIn up between.old down.old up between.new down.new result }
{
    let Gap::Left(board) = between.lies else {
        return Err(MoveError::No(MoveNo::NotLeft));
    };
    if between.entry_drive {
        return Err(MoveError::No(MoveNo::EntryDriveOn));
    }
    come_in(board, between, down)
}

/// The board of a gap comes wholly inside the downstream machine.
fn come_in(board: Board, between: &mut AtGap, down: &mut Station) -> Result<(), MoveError>
    ensures gap { OnOk result (between.new ≡ record between.old { lies = gaps.Free }) }
    ensures boards { OnOk result (down.new.boards ≡ down.old.boards ++ board ∷ []) }
    ensures event { OnOk result
        (down.new.unread ≡ down.old.unread
        ++ record { side = sides.Entry; event = sensors.Full } ∷ []) }
    ensures memory { IfErr result (λ error. error ≡ errors.Memory) }
    ensures same_gap { OnErr result (between.new ≡ between.old) }
    ensures same_machine { OnErr result (down.new ≡ down.old) }
{
    make_room(&mut down.boards)?;
    make_room(&mut down.unread)?;
    between.lies = Gap::Free;
    // a board whose parts aren't named has no generated proof here
    down.boards.push(Board { id: board.id }).unwrap();
    tell(&mut down.unread, Side::Entry, SensorEvent::Full);
    Ok(())
}

fn take(up: &mut Station, between: &mut AtGap, down: &mut Station) -> Result<(), MoveError>
    ensures { AnswersAround moves.Take up.old between.old down.old up.new between.new down.new
        result }
{
    let taken = between.lies;
    match taken {
        Gap::Free => return Err(MoveError::No(MoveNo::NotBegun)),
        Gap::Begun(_) => {
            if between.exit_drive {
                return Err(MoveError::No(MoveNo::ExitDriveOn));
            }
        }
        Gap::Left(_) => {
            if between.entry_drive {
                return Err(MoveError::No(MoveNo::EntryDriveOn));
            }
        }
    }
    make_room(&mut up.unread)?;
    make_room(&mut down.unread)?;
    between.lies = Gap::Free;
    tell(&mut up.unread, Side::Exit, SensorEvent::Taken);
    tell(&mut down.unread, Side::Entry, SensorEvent::Taken);
    Ok(())
}

/// Room for one more.
fn make_room<T>(list: &mut Vec<T>) -> Result<(), MoveError>
    ensures same { list.new.items ≡ list.old.items }
    ensures room { OnOk result (vec_len list.new < vec_capacity list.new) }
    ensures memory { IfErr result (λ error. error ≡ errors.Memory) }
{
    match list.reserve(1) {
        Ok(()) => Ok(()),
        Err(_) => Err(MoveError::Memory),
    }
}

/// One more event to read, for which there is room.
fn tell(unread: &mut Vec<Sensed>, side: Side, event: SensorEvent)
    requires { vec_len unread.old < vec_capacity unread.old }
    ensures { unread.new.items ≡ unread.old.items ++ record { side = side; event = event } ∷ [] }
{
    unread.push(Sensed { side, event }).unwrap();
}
