ghost use Rattle.std.specs.Prelude.{◌≡◌, ◌∷◌, [], OnOk};
ghost use Rattle.hermes_element.specs.Standing.{StillStands};
ghost use Rattle.hermes_horizontal.specs.Canonical.{assigned};
ghost use Rattle.hermes_horizontal.specs.Parts.{kind_of, parts, service_parts, of_transfer};
ghost use Rattle.hermes_horizontal.specs.Rows.{columns_of, transfer_columns};
ghost use Rattle.hermes_horizontal.specs.Values.{identified};
ghost use Rattle.hermes_horizontal.specs.declared.kind.Kind.TheVariants as kinds;

use crate::alike::{append_alive, append_notice};
use crate::assign::{append_id, append_number, append_optional_text, append_text};
use crate::attr::Attr;
use crate::board::{Board, append_board};
use crate::message::{Horizontal, Service};
use crate::numbers::{quality_number, transfer_number};
use board_record::BoardId;
use line_base::{Memory, Transfer};

/// Appends the attributes of a message in the order of its row of the table.
pub fn append_attributes(body: &Horizontal, to: &mut Vec<u8>) -> Result<(), Memory>
    ensures kept { StillStands to.old.items to.new.items }
    ensures written { OnOk result
        (to.new.items ≡ assigned to.old.items (columns_of (kind_of body.now)) (parts body.now)) }
{
    match body {
        Horizontal::CheckAlive { ping, id } => append_alive(*ping, id.as_ref(), to),
        Horizontal::ServiceDescription(service) => append_service(service, to),
        Horizontal::Notification {
            code,
            severity,
            text,
        } => append_notice(*code, *severity, text, to),
        Horizontal::BoardAvailable(board) => append_board(&Board::of_record(board), to),
        Horizontal::MachineReady { quality } => {
            append_number(Attr::FailedBoard, quality_number(*quality), to)
        }
        Horizontal::StartTransport { id } => append_id(Attr::BoardId, *id, to),
        Horizontal::StopTransport { state, id } => append_transfer(*state, *id, to),
        Horizontal::TransportFinished { state, id } => append_transfer(*state, *id, to),
        Horizontal::BoardForecast(info) => append_board(&Board::of_info(info), to),
        Horizontal::QueryBoardInfo { top, bottom } => {
            append_optional_text(Attr::TopBarcode, top.as_ref(), to)?;
            append_optional_text(Attr::BottomBarcode, bottom.as_ref(), to)
        }
        Horizontal::SendBoardInfo(info) => append_board(&Board::of_info(info), to),
        Horizontal::RevokeBoardAvailable => Ok(()),
        Horizontal::RevokeMachineReady => Ok(()),
        Horizontal::Other(_) => Ok(()),
    }
}

fn append_service(service: &Service, to: &mut Vec<u8>) -> Result<(), Memory>
    ensures kept { StillStands to.old.items to.new.items }
    ensures written { OnOk result
        (to.new.items ≡ assigned to.old.items (columns_of kinds.ServiceDescription)
        (service_parts service.now)) }
{
    append_text(Attr::MachineId, &service.machine, to)?;
    append_number(Attr::LaneId, service.lane, to)?;
    append_optional_text(Attr::InterfaceId, service.interface.as_ref(), to)?;
    append_text(Attr::Version, &service.version, to)
}

fn append_transfer(state: Transfer, id: BoardId, to: &mut Vec<u8>) -> Result<(), Memory>
    ensures kept { StillStands to.old.items to.new.items }
    ensures written { OnOk result
        (to.new.items ≡ assigned to.old.items transfer_columns
        (Some (of_transfer state) ∷ Some (identified id) ∷ [])) }
{
    append_number(Attr::TransferState, transfer_number(state), to)?;
    append_id(Attr::BoardId, id, to)
}
