//! The messages, read attribute by attribute in the order of their rows of the table.

ghost use Rattle.std.specs.Prelude.{◌≡◌, ◌∷◌, [], List, Some, ℕ, IfOk, map};
ghost use Rattle.hermes_element.specs.declared.attribute.Attribute.{Attribute};
ghost use Rattle.hermes_element.specs.Element.{Forest, trees_of};
ghost use Rattle.hermes_horizontal.specs.Fields.{Gives, said_by, head_columns, decimal_column, head_parts, sizes_parts, clearances_parts, board_found, service_found, SaysText};
ghost use Rattle.hermes_horizontal.specs.Opened.{ReadsParts};
ghost use Rattle.hermes_horizontal.specs.Parts.{info_of, of_transfer};
ghost use Rattle.hermes_horizontal.specs.Reading.{ReadsRow, ReadsBody, ReadsInfo, TellsBoard, IsWhole};
ghost use Rattle.hermes_horizontal.specs.Rows.{board_columns, transfer_columns};
ghost use Rattle.hermes_horizontal.specs.Spelling.{values_of, has_child, features_listed, features_in};
ghost use Rattle.hermes_horizontal.specs.Values.{identified};
ghost use Rattle.hermes_horizontal.specs.declared.kind.Kind.TheVariants as kinds;

use crate::alike::{Alive, Notice, read_alive, read_notice};
use crate::attr::Attr;
use crate::fault::{MessageError, Refusal};
use crate::field::Field;
use crate::find::{find_board, find_four, find_one, find_two};
use crate::kind::{Kind, kind_named};
use crate::message::{Features, Horizontal, Info, Service};
use crate::subs::subs_in;
use board_record::{BoardId, Record, SubBoards};
use hermes_element::{LentAttributes, LentChildren, LentElement, LentValue};
use line_base::{Decimal, Flip, Memory, Quality, Text, Transfer};
use std::alloc::Global;

/// What the element of a message says.
#[inline(always)]
pub fn body_of(alloc: Global, child: LentElement<'_>) -> Result<Horizontal, MessageError>
    ensures { ReadsBody child.entry result }
{
    let LentElement {
        name,
        at,
        attributes,
        children,
    } = child;
    match kind_named(name.bytes()) {
        Kind::CheckAlive => check_alive(alloc, attributes),
        Kind::ServiceDescription => service_description(alloc, at, attributes, &children),
        Kind::Notification => notification(alloc, at, attributes),
        Kind::BoardAvailable => board_available(alloc, at, attributes, &children),
        Kind::RevokeBoardAvailable => Ok(Horizontal::RevokeBoardAvailable),
        Kind::MachineReady => machine_ready(at, attributes),
        Kind::RevokeMachineReady => Ok(Horizontal::RevokeMachineReady),
        Kind::StartTransport => start_transport(at, attributes),
        Kind::StopTransport => stop_transport(at, attributes),
        Kind::TransportFinished => transport_finished(at, attributes),
        Kind::BoardForecast => board_forecast(alloc, at, attributes),
        Kind::QueryBoardInfo => query_board_info(alloc, attributes),
        Kind::SendBoardInfo => send_board_info(alloc, at, attributes, &children),
        Kind::Other => Ok(Horizontal::Other(name.own(alloc)?)),
    }
}

fn check_alive(alloc: Global, attributes: LentAttributes<'_>) -> Result<Horizontal, MessageError>
    ensures { (at : ℕ) (children : Forest)
        → ReadsRow kinds.CheckAlive at attributes.entry children result }
{
    let Alive { ping, id } = read_alive(alloc, attributes)?;
    Ok(Horizontal::CheckAlive { ping, id })
}

fn service_description(
    alloc: Global,
    at: usize,
    attributes: LentAttributes<'_>,
    children: &LentChildren<'_>,
) -> Result<Horizontal, MessageError>
    ensures { ReadsRow kinds.ServiceDescription at attributes.entry children.now result }
{
    let fields = find_four(
        attributes,
        Attr::MachineId,
        Attr::LaneId,
        Attr::InterfaceId,
        Attr::Version,
    );
    service_in(alloc, at, &fields, children)
}

/// What the fields of a service description tell. They are only lent here: where they are owned,
/// each way out lets all four go.
fn service_in(
    alloc: Global,
    at: usize,
    fields: &[Field<'_>; 4],
    children: &LentChildren<'_>,
) -> Result<Horizontal, MessageError>
    ensures { (attributes : List Attribute) → fields.now ≡ service_found attributes
        → ReadsRow kinds.ServiceDescription at attributes children.now result }
{
    let [machine, lane, interface, version] = fields;
    let machine = machine.text(at)?;
    let lane = lane.number(at)?;
    let version = version.text(at)?;
    let interface = interface.optional_text(alloc)?;
    let features = features_in(children);
    let service = service_of(alloc, machine, lane, interface, version, features)?;
    Ok(Horizontal::ServiceDescription(service))
}

/// A service description of these values.
fn service_of(
    alloc: Global,
    machine: &LentValue<'_>,
    lane: u32,
    interface: Option<Text>,
    version: &LentValue<'_>,
    features: Features,
) -> Result<Service, Memory>
    ensures { IfOk result
        (λ service. service
        ≡ record {
          machine = machine.now;
          lane = lane;
          version = version.now;
          interface = interface;
          features = features;
        }) }
{
    Ok(Service {
        machine: machine.text(alloc)?,
        lane,
        version: version.text(alloc)?,
        interface,
        features,
    })
}

/// The features that the first SupportedFeatures of an element's children lists.
pub fn features_in(children: &LentChildren<'_>) -> Features
    ensures { result ≡ features_in (trees_of children.now) }
{
    for child in children.list() {
        if child.name.bytes() == &b"SupportedFeatures"[..] {
            return features_listed(child.children.list());
        }
    }
    features_listed(&[])
}

fn features_listed(features: &[LentElement<'_>]) -> Features
    ensures { result ≡ features_listed features.now }
{
    Features {
        check_alive: has_child(features, b"FeatureCheckAliveResponse"),
        forecast: has_child(features, b"FeatureBoardForecast"),
        query: has_child(features, b"FeatureQueryBoardInfo"),
        send: has_child(features, b"FeatureSendBoardInfo"),
    }
}

fn has_child(children: &[LentElement<'_>], name: &[u8]) -> bool
    ensures { result ≡ has_child name.now children.now }
{
    children.iter().any(|child| child.name.bytes() == name)
}

fn notification(
    alloc: Global,
    at: usize,
    attributes: LentAttributes<'_>,
) -> Result<Horizontal, MessageError>
    ensures { (children : Forest)
        → ReadsRow kinds.Notification at attributes.entry children result }
{
    let Notice {
        code,
        severity,
        text,
    } = read_notice(alloc, at, attributes)?;
    Ok(Horizontal::Notification {
        code,
        severity,
        text,
    })
}

fn machine_ready(at: usize, attributes: LentAttributes<'_>) -> Result<Horizontal, MessageError>
    ensures { (children : Forest)
        → ReadsRow kinds.MachineReady at attributes.entry children result }
{
    let [quality] = &find_one(attributes, Attr::FailedBoard);
    let quality = quality.quality(at)?;
    Ok(Horizontal::MachineReady { quality })
}

fn start_transport(at: usize, attributes: LentAttributes<'_>) -> Result<Horizontal, MessageError>
    ensures { (children : Forest)
        → ReadsRow kinds.StartTransport at attributes.entry children result }
{
    let [id] = &find_one(attributes, Attr::BoardId);
    let id = id.id(at)?;
    Ok(Horizontal::StartTransport { id })
}

fn stop_transport(at: usize, attributes: LentAttributes<'_>) -> Result<Horizontal, MessageError>
    ensures { (children : Forest)
        → ReadsRow kinds.StopTransport at attributes.entry children result }
{
    let (state, id) = read_transfer(at, attributes)?;
    Ok(Horizontal::StopTransport { state, id })
}

fn transport_finished(at: usize, attributes: LentAttributes<'_>) -> Result<Horizontal, MessageError>
    ensures { (children : Forest)
        → ReadsRow kinds.TransportFinished at attributes.entry children result }
{
    let (state, id) = read_transfer(at, attributes)?;
    Ok(Horizontal::TransportFinished { state, id })
}

/// How far a board's transfer came, and which board it is of.
#[inline(always)]
fn read_transfer(
    at: usize,
    attributes: LentAttributes<'_>,
) -> Result<(Transfer, BoardId), MessageError>
    ensures { ReadsParts (λ told. Some (of_transfer told.0) ∷ Some (identified told.1) ∷ []) result
        (values_of at attributes.entry transfer_columns) }
{
    let fields = find_two(attributes, Attr::TransferState, Attr::BoardId);
    let [state, id] = &fields;
    let state = state.transfer(at)?;
    let id = id.id(at)?;
    Ok((state, id))
}

fn query_board_info(
    alloc: Global,
    attributes: LentAttributes<'_>,
) -> Result<Horizontal, MessageError>
    ensures { (at : ℕ) (children : Forest)
        → ReadsRow kinds.QueryBoardInfo at attributes.entry children result }
{
    let fields = find_two(attributes, Attr::TopBarcode, Attr::BottomBarcode);
    let [top, bottom] = &fields;
    Ok(Horizontal::QueryBoardInfo {
        top: top.optional_text(alloc)?,
        bottom: bottom.optional_text(alloc)?,
    })
}

fn board_available(
    alloc: Global,
    at: usize,
    attributes: LentAttributes<'_>,
    children: &LentChildren<'_>,
) -> Result<Horizontal, MessageError>
    ensures { ReadsRow kinds.BoardAvailable at attributes.entry children.now result }
{
    let board = board_told(alloc, at, attributes, children, true)?;
    Ok(Horizontal::BoardAvailable(record_of(board)))
}

fn board_forecast(
    alloc: Global,
    at: usize,
    attributes: LentAttributes<'_>,
) -> Result<Horizontal, MessageError>
    ensures { (children : Forest)
        → ReadsRow kinds.BoardForecast at attributes.entry children result }
{
    Ok(Horizontal::BoardForecast(info(alloc, at, attributes, false)?))
}

fn send_board_info(
    alloc: Global,
    at: usize,
    attributes: LentAttributes<'_>,
    children: &LentChildren<'_>,
) -> Result<Horizontal, MessageError>
    ensures { ReadsRow kinds.SendBoardInfo at attributes.entry children.now result }
{
    let board = board_told(alloc, at, attributes, children, false)?;
    Ok(Horizontal::SendBoardInfo(board))
}

/// What is told of a board by its attributes, and behind these by its sub boards.
#[inline(always)]
#[tactic(auto, using(crate::proofs::SubsRead::attributes_refused, crate::proofs::SubsRead::subs_refused))]
fn board_told(
    alloc: Global,
    at: usize,
    attributes: LentAttributes<'_>,
    children: &LentChildren<'_>,
    required: bool,
) -> Result<Info, MessageError>
    ensures { TellsBoard (values_of at attributes.entry (board_columns required)) children.now
        result }
{
    let mut board = info(alloc, at, attributes, required)?;
    board.subs = subs_in(alloc, children)?;
    Ok(board)
}

/// What is told of a board, its sub boards apart. Its id, its maker, its quality and which side is
/// up must be there where they are required.
fn info(
    alloc: Global,
    at: usize,
    attributes: LentAttributes<'_>,
    required: bool,
) -> Result<Info, MessageError>
    ensures told { ReadsInfo result (values_of at attributes.entry (board_columns required)) }
    ensures no_subs { IfOk result (λ info. info.subs ≡ []) }
{
    let fields = find_board(attributes);
    info_in(alloc, at, required, &fields)
}

/// What the fields of a board tell of it. They are only lent here: where they are owned, each way
/// out lets all sixteen go.
fn info_in(
    alloc: Global,
    at: usize,
    required: bool,
    fields: &[Field<'_>; 16],
) -> Result<Info, MessageError>
    ensures told { (attributes : List Attribute) → fields.now ≡ board_found attributes
        → ReadsInfo result (values_of at attributes (board_columns required)) }
    ensures no_subs { IfOk result (λ info. info.subs ≡ []) }
{
    let [
        id,
        created_by,
        quality,
        flip,
        product,
        top,
        bottom,
        length,
        width,
        thickness,
        speed,
        top_clearance,
        bottom_clearance,
        weight,
        order,
        batch,
    ] = fields;
    let head = read_head(at, required, id, created_by, quality, flip)?;
    let sizes = read_sizes(length, width, thickness, speed)?;
    let clearances = read_clearances(top_clearance, bottom_clearance, weight)?;
    let (created_by, order, batch) = read_texts(alloc, created_by, order, batch)?;
    let (product, top, bottom) = read_texts(alloc, product, top, bottom)?;
    Ok(Info {
        id: head.id,
        created_by,
        quality: head.quality,
        flip: head.flip,
        product,
        top,
        bottom,
        length: sizes.length,
        width: sizes.width,
        thickness: sizes.thickness,
        speed: sizes.speed,
        top_clearance: clearances.top,
        bottom_clearance: clearances.bottom,
        weight: clearances.weight,
        order,
        batch,
        subs: SubBoards::new(),
    })
}

/// Three texts that may be left out.
#[inline]
fn read_texts(
    alloc: Global,
    first: &Field<'_>,
    second: &Field<'_>,
    third: &Field<'_>,
) -> Result<(Option<Text>, Option<Text>, Option<Text>), Memory>
    ensures first { (at : ℕ) → IfOk result (λ texts. SaysText at first.now texts.0) }
    ensures second { (at : ℕ) → IfOk result (λ texts. SaysText at second.now texts.1) }
    ensures third { (at : ℕ) → IfOk result (λ texts. SaysText at third.now texts.2) }
{
    let first = first.optional_text(alloc)?;
    let second = second.optional_text(alloc)?;
    let third = third.optional_text(alloc)?;
    Ok((first, second, third))
}

/// What an available board must tell, but for its maker.
#[derive(Clone, Copy)]
struct Head {
    id: Option<BoardId>,
    quality: Option<Quality>,
    flip: Option<Flip>,
}

fn read_head(
    at: usize,
    required: bool,
    id: &Field<'_>,
    created_by: &Field<'_>,
    quality: &Field<'_>,
    flip: &Field<'_>,
) -> Result<Head, Refusal>
    ensures { Gives (head_parts created_by.now) result
        (said_by at (head_columns required id.now created_by.now quality.now flip.now)
        (id.now ∷ created_by.now ∷ quality.now ∷ flip.now ∷ [])) }
{
    let id = id.id_if(at, required)?;
    created_by.check_text(at, required)?;
    let quality = quality.quality_if(at, required)?;
    let flip = flip.flip_if(at, required)?;
    Ok(Head { id, quality, flip })
}

/// A board's size and speed.
#[derive(Clone, Copy)]
struct Sizes {
    length: Option<Decimal>,
    width: Option<Decimal>,
    thickness: Option<Decimal>,
    speed: Option<Decimal>,
}

fn read_sizes(
    length: &Field<'_>,
    width: &Field<'_>,
    thickness: &Field<'_>,
    speed: &Field<'_>,
) -> Result<Sizes, Refusal>
    ensures { (at : ℕ)
        → Gives sizes_parts result
        (said_by at (map decimal_column (length.now ∷ width.now ∷ thickness.now ∷ speed.now ∷ []))
        (length.now ∷ width.now ∷ thickness.now ∷ speed.now ∷ [])) }
{
    let length = length.optional_decimal()?;
    let width = width.optional_decimal()?;
    let thickness = thickness.optional_decimal()?;
    let speed = speed.optional_decimal()?;
    Ok(Sizes {
        length,
        width,
        thickness,
        speed,
    })
}

/// How much room a board needs on its two sides, and its weight.
#[derive(Clone, Copy)]
struct Clearances {
    top: Option<Decimal>,
    bottom: Option<Decimal>,
    weight: Option<Decimal>,
}

fn read_clearances(
    top: &Field<'_>,
    bottom: &Field<'_>,
    weight: &Field<'_>,
) -> Result<Clearances, Refusal>
    ensures { (at : ℕ)
        → Gives clearances_parts result
        (said_by at (map decimal_column (top.now ∷ bottom.now ∷ weight.now ∷ []))
        (top.now ∷ bottom.now ∷ weight.now ∷ [])) }
{
    let top = top.optional_decimal()?;
    let bottom = bottom.optional_decimal()?;
    let weight = weight.optional_decimal()?;
    Ok(Clearances {
        top,
        bottom,
        weight,
    })
}

/// The record of a board of which all is told that must be.
fn record_of(info: Info) -> Record
    requires { IsWhole info }
    ensures { info_of result ≡ info }
{
    let Info {
        id,
        created_by,
        quality,
        flip,
        product,
        top,
        bottom,
        length,
        width,
        thickness,
        speed,
        top_clearance,
        bottom_clearance,
        weight,
        order,
        batch,
        subs,
    } = info;
    match (id, created_by, quality, flip) {
        (Some(id), Some(created_by), Some(quality), Some(flip)) => Record {
            id,
            created_by,
            quality,
            flip,
            product,
            top,
            bottom,
            length,
            width,
            thickness,
            speed,
            top_clearance,
            bottom_clearance,
            weight,
            order,
            batch,
            subs,
        },
        _ => unreachable!(),
    }
}
