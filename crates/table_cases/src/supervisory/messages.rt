//! The messages of the cases, by their words.

use hermes_vertical::{Vertical, read_vertical};
use std::alloc::Global;

/// The message of a word, where it has one.
pub fn message_of(alloc: Global, word: &str) -> Option<Vertical> {
    match read_vertical(alloc, spelling_of(word).as_bytes()) {
        Ok(message) => Some(message.body),
        Err(_) => None,
    }
}

fn spelling_of(word: &str) -> &'static str {
    match word {
        "ping" => "<Hermes><CheckAlive Type='1' Id='7'/></Hermes>",
        "bare-ping" => "<Hermes><CheckAlive Type='1'/></Hermes>",
        "pong" => "<Hermes><CheckAlive Type='2' Id='7'/></Hermes>",
        "alive" => "<Hermes><CheckAlive Id='7'/></Hermes>",
        "notifies" => {
            "<Hermes><Notification NotificationCode='0' Severity='3' Description='note'/></Hermes>"
        }
        "hello" => "<Hermes><Hello/></Hermes>",
        _ => traffic_of(word),
    }
}

fn traffic_of(word: &str) -> &'static str {
    match word {
        "describes" => {
            "<Hermes><SupervisoryServiceDescription SystemId='S' Version='1.0'/></Hermes>"
        }
        "arrives" => {
            "<Hermes><BoardArrived MachineId='M' LaneId='1' BoardTransfer='1' BoardId='00000000-0000-0000-0000-000000000001'/></Hermes>"
        }
        "departs" => {
            "<Hermes><BoardDeparted MachineId='M' LaneId='1' BoardTransfer='1' BoardId='00000000-0000-0000-0000-000000000001'/></Hermes>"
        }
        "queries" => "<Hermes><QueryWorkOrderInfo QueryId='3' Barcode='PCB7'/></Hermes>",
        "places" => "<Hermes><QueryWorkOrderInfo QueryId='3' MagazineId='A' SlotId='1'/></Hermes>",
        "orders" =>
            "<Hermes><SendWorkOrderInfo QueryId='3' WorkOrderId='O7' BatchId='b'/></Hermes>",
        "breaks" => "<Hermes><SendWorkOrderInfo QueryId='3' WorkOrderId='a&#10;b'/></Hermes>",
        _ => "",
    }
}
