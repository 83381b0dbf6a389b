//! What the types of a message's parts say of them. Each function states it of a kind of part: it
//! goes over the part, and changes nothing.

ghost use Rattle.std.specs.Prelude.{◌<◌, ◌^◌, option_map};
ghost use Rattle.std.specs.List.{AllByRecursion};
ghost use Rattle.line_base.specs.Name.{IsName};
ghost use Rattle.line_base.specs.Text.{IsText};
ghost use Rattle.hermes_horizontal.specs.Canonical.{HasProperSubs, IsProperIf, IsProperMessage, IsProperSub};
ghost use Rattle.hermes_horizontal.specs.Parts.{inner_of, name_of, parts, info_of, info_parts, service_parts};
ghost use Rattle.hermes_horizontal.specs.Values.{worded, identified, measured, timed};

use crate::message::{Horizontal, Info, Message, Service};
use board_record::{BoardId, Record, SubBoard};
use line_base::{Decimal, Moment, Text};

/// Every part of a message is within what its type allows.
pub fn parts_are_proper(message: &Message)
    ensures { IsProperMessage message.now }
{
    optional_moment_is_proper(message.stamp);
    name_is_proper(message.body.what());
    values_are_proper(message.body.what());
    subs_are_proper(message.body.what());
}

fn name_is_proper(body: &Horizontal)
    ensures { IsName (name_of body.now) }
{
    if let Horizontal::Other(name) = body {
        let _bytes = name.bytes();
    }
}

fn values_are_proper(body: &Horizontal)
    ensures { AllByRecursion IsProperIf (parts body.now) }
{
    match body {
        Horizontal::CheckAlive { id, .. } => optional_text_is_proper(id),
        Horizontal::ServiceDescription(service) => service_is_proper(service),
        Horizontal::Notification { text, .. } => text_is_proper(text),
        Horizontal::BoardAvailable(board) => record_is_proper(board),
        Horizontal::StartTransport { id } => id_is_proper(*id),
        Horizontal::StopTransport { id, .. } => id_is_proper(*id),
        Horizontal::TransportFinished { id, .. } => id_is_proper(*id),
        Horizontal::BoardForecast(info) => info_is_proper(info),
        Horizontal::QueryBoardInfo { top, bottom } => {
            optional_text_is_proper(top);
            optional_text_is_proper(bottom);
        }
        Horizontal::SendBoardInfo(info) => info_is_proper(info),
        _ => {}
    }
}

fn subs_are_proper(body: &Horizontal)
    ensures { HasProperSubs (inner_of body.now) }
{
    match body {
        Horizontal::BoardAvailable(board) => barcodes_are_proper(board.subs.list()),
        Horizontal::SendBoardInfo(info) => barcodes_are_proper(info.subs.list()),
        _ => {}
    }
}

fn barcodes_are_proper(subs: &[SubBoard])
    ensures { AllByRecursion IsProperSub subs.now }
{
    for sub in subs {
        optional_text_is_proper(&sub.barcode);
    }
}

fn service_is_proper(service: &Service)
    ensures { AllByRecursion IsProperIf (service_parts service.now) }
{
    text_is_proper(&service.machine);
    optional_text_is_proper(&service.interface);
    text_is_proper(&service.version);
}

fn record_is_proper(board: &Record)
    ensures { AllByRecursion IsProperIf (info_parts (info_of board.now)) }
{
    id_is_proper(board.id);
    text_is_proper(&board.created_by);
    optional_text_is_proper(&board.product);
    optional_text_is_proper(&board.top);
    optional_text_is_proper(&board.bottom);
    optional_decimal_is_proper(board.length);
    optional_decimal_is_proper(board.width);
    optional_decimal_is_proper(board.thickness);
    optional_decimal_is_proper(board.speed);
    optional_decimal_is_proper(board.top_clearance);
    optional_decimal_is_proper(board.bottom_clearance);
    optional_decimal_is_proper(board.weight);
    optional_text_is_proper(&board.order);
    optional_text_is_proper(&board.batch);
}

fn info_is_proper(info: &Info)
    ensures { AllByRecursion IsProperIf (info_parts info.now) }
{
    optional_id_is_proper(info.id);
    optional_text_is_proper(&info.created_by);
    optional_text_is_proper(&info.product);
    optional_text_is_proper(&info.top);
    optional_text_is_proper(&info.bottom);
    optional_decimal_is_proper(info.length);
    optional_decimal_is_proper(info.width);
    optional_decimal_is_proper(info.thickness);
    optional_decimal_is_proper(info.speed);
    optional_decimal_is_proper(info.top_clearance);
    optional_decimal_is_proper(info.bottom_clearance);
    optional_decimal_is_proper(info.weight);
    optional_text_is_proper(&info.order);
    optional_text_is_proper(&info.batch);
}

/// A text is a text.
pub fn text_is_proper(text: &Text)
    ensures { IsText text.now }
{
    let _bytes = text.bytes();
}

/// An id has 128 bits.
pub fn id_is_proper(id: BoardId)
    ensures { id < 2 ^ 128 }
{
    let _number = id.number();
}

/// A text, if there is one, is a text.
pub fn optional_text_is_proper(text: &Option<Text>)
    ensures { IsProperIf (option_map worded text.now) }
{
    if let Some(text) = text {
        text_is_proper(text);
    }
}

fn optional_id_is_proper(id: Option<BoardId>)
    ensures { IsProperIf (option_map identified id) }
{
    if let Some(id) = id {
        id_is_proper(id);
    }
}

fn optional_decimal_is_proper(decimal: Option<Decimal>)
    ensures { IsProperIf (option_map measured decimal) }
{
    if let Some(decimal) = decimal {
        let _millionths = decimal.millionths();
    }
}

/// A moment, if there is one, is a moment.
pub fn optional_moment_is_proper(moment: Option<Moment>)
    ensures { IsProperIf (option_map timed moment) }
{
    if let Some(moment) = moment {
        let _millis = moment.millis();
    }
}
