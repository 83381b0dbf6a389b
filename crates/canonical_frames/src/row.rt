//! The rows of the table: the attributes of each message in their order.

ghost use Rattle.std.specs.Prelude.{◌≡◌, ◌++◌, true, IfSome};
ghost use Rattle.hermes_horizontal.specs.Rows.{columns_of, alive_columns, notice_columns, board_columns, record_columns, transfer_columns};
ghost use Rattle.hermes_horizontal.specs.declared.kind.Kind.TheVariants as kinds;
ghost use Rattle.canonical_frames.specs.Pieces.{IsAssigned, AreAssigned, kind_of_form, is_recognised};

use crate::form::{Form, behind_value};
use crate::front::behind;
use hermes_horizontal::{Attr, Kind};

const QUALITY: Form = Form::Choice(0, 2);

const FLIP: Form = Form::Choice(0, 2);

const TRANSFER: Form = Form::Choice(1, 3);

const PING: Form = Form::Choice(1, 2);

const SEVERITY: Form = Form::Choice(1, 4);

/// What is behind the attributes of a message, in the order of its row of the table. The messages
/// that aren't recognised have none.
pub fn behind_row(kind: Kind, bytes: &[u8]) -> Option<&[u8]>
    ensures row { IfSome result (λ rest. AreAssigned (columns_of kind) bytes.now rest.now) }
    ensures recognised { IfSome result (λ rest. is_recognised kind ≡ true) }
{
    match kind {
        Kind::CheckAlive => behind_alive(bytes),
        Kind::Notification => behind_notice(bytes),
        Kind::BoardAvailable => behind_board(true, bytes),
        Kind::RevokeBoardAvailable => Some(bytes),
        Kind::MachineReady => behind_quality(bytes),
        Kind::RevokeMachineReady => Some(bytes),
        Kind::StartTransport => behind_start(bytes),
        Kind::StopTransport => behind_transfer(bytes),
        Kind::TransportFinished => behind_transfer(bytes),
        Kind::BoardForecast => behind_board(false, bytes),
        Kind::QueryBoardInfo => behind_query(bytes),
        Kind::SendBoardInfo => behind_board(false, bytes),
        Kind::ServiceDescription => None,
        Kind::Other => None,
    }
}

fn behind_alive(bytes: &[u8]) -> Option<&[u8]>
    ensures { IfSome result (λ rest. AreAssigned alive_columns bytes.now rest.now) }
{
    let ping = behind_attribute(Attr::AliveType, false, PING, bytes)?;
    let id = behind_attribute(Attr::Id, false, Form::Text, ping)?;
    Some(id)
}

fn behind_notice(bytes: &[u8]) -> Option<&[u8]>
    ensures { IfSome result (λ rest. AreAssigned notice_columns bytes.now rest.now) }
{
    let code = behind_attribute(Attr::NotificationCode, true, Form::Number, bytes)?;
    let severity = behind_attribute(Attr::Severity, true, SEVERITY, code)?;
    let text = behind_attribute(Attr::Description, true, Form::Text, severity)?;
    Some(text)
}

fn behind_quality(bytes: &[u8]) -> Option<&[u8]>
    ensures { IfSome result
        (λ rest. AreAssigned (columns_of kinds.MachineReady) bytes.now rest.now) }
{
    let quality = behind_attribute(Attr::FailedBoard, true, QUALITY, bytes)?;
    Some(quality)
}

fn behind_start(bytes: &[u8]) -> Option<&[u8]>
    ensures { IfSome result
        (λ rest. AreAssigned (columns_of kinds.StartTransport) bytes.now rest.now) }
{
    let id = behind_attribute(Attr::BoardId, true, Form::Id, bytes)?;
    Some(id)
}

fn behind_transfer(bytes: &[u8]) -> Option<&[u8]>
    ensures { IfSome result (λ rest. AreAssigned transfer_columns bytes.now rest.now) }
{
    let state = behind_attribute(Attr::TransferState, true, TRANSFER, bytes)?;
    let id = behind_attribute(Attr::BoardId, true, Form::Id, state)?;
    Some(id)
}

fn behind_query(bytes: &[u8]) -> Option<&[u8]>
    ensures { IfSome result
        (λ rest. AreAssigned (columns_of kinds.QueryBoardInfo) bytes.now rest.now) }
{
    let top = behind_attribute(Attr::TopBarcode, false, Form::Text, bytes)?;
    let bottom = behind_attribute(Attr::BottomBarcode, false, Form::Text, top)?;
    Some(bottom)
}

/// Of a board, the first four attributes must all be told where it is whole.
fn behind_board(whole: bool, bytes: &[u8]) -> Option<&[u8]>
    ensures { IfSome result (λ rest. AreAssigned (board_columns whole) bytes.now rest.now) }
{
    let id = behind_attribute(Attr::BoardId, whole, Form::Id, bytes)?;
    let created_by = behind_attribute(Attr::BoardIdCreatedBy, whole, Form::Text, id)?;
    let quality = behind_attribute(Attr::FailedBoard, whole, QUALITY, created_by)?;
    let flip = behind_attribute(Attr::FlippedBoard, whole, FLIP, quality)?;
    let record = behind_record(flip)?;
    Some(record)
}

fn behind_record(bytes: &[u8]) -> Option<&[u8]>
    ensures { IfSome result (λ rest. AreAssigned record_columns bytes.now rest.now) }
{
    let product = behind_attribute(Attr::ProductTypeId, false, Form::Text, bytes)?;
    let top = behind_attribute(Attr::TopBarcode, false, Form::Text, product)?;
    let bottom = behind_attribute(Attr::BottomBarcode, false, Form::Text, top)?;
    let length = behind_attribute(Attr::Length, false, Form::Decimal, bottom)?;
    let width = behind_attribute(Attr::Width, false, Form::Decimal, length)?;
    let thickness = behind_attribute(Attr::Thickness, false, Form::Decimal, width)?;
    let speed = behind_attribute(Attr::ConveyorSpeed, false, Form::Decimal, thickness)?;
    let above = behind_attribute(Attr::TopClearanceHeight, false, Form::Decimal, speed)?;
    let below = behind_attribute(Attr::BottomClearanceHeight, false, Form::Decimal, above)?;
    let weight = behind_attribute(Attr::Weight, false, Form::Decimal, below)?;
    let order = behind_attribute(Attr::WorkOrderId, false, Form::Text, weight)?;
    let batch = behind_attribute(Attr::BatchId, false, Form::Text, order)?;
    Some(batch)
}

/// What is behind an attribute, or the bytes themselves where it isn't there and needn't be.
pub fn behind_attribute(attr: Attr, required: bool, form: Form, bytes: &[u8]) -> Option<&[u8]>
    ensures { IfSome result
        (λ rest. IsAssigned
        (record { attr = attr; required = required; kind = kind_of_form form }) bytes.now rest.now) }
{
    match behind(attr.opening().as_bytes(), bytes) {
        Some(value) => behind_value(form, value),
        None => { if required { None } else { Some(bytes) } }
    }
}
