//! The messages of the cases, by their words.

use hermes_horizontal::{Said, read_horizontal};
use std::alloc::Global;

/// The message of a word, where it has one.
pub fn message_of(alloc: Global, word: &str) -> Option<Said> {
    match read_horizontal(alloc, spelling_of(word).as_bytes()) {
        Ok(message) => Some(message.body),
        Err(_) => None,
    }
}

fn spelling_of(word: &str) -> &'static str {
    match word {
        "ping" => "<Hermes><CheckAlive Type='1' Id='7'/></Hermes>",
        "bare-ping" => "<Hermes><CheckAlive Type='1'/></Hermes>",
        "pong" => "<Hermes><CheckAlive Type='2' Id='7'/></Hermes>",
        "alive" => "<Hermes><CheckAlive Id='7'/></Hermes>",
        "notifies" => {
            "<Hermes><Notification NotificationCode='0' Severity='3' Description='note'/></Hermes>"
        }
        "hello" => "<Hermes><Hello/></Hermes>",
        _ => description_of(word),
    }
}

fn description_of(word: &str) -> &'static str {
    match word {
        "describes" => {
            "<Hermes><ServiceDescription MachineId='P' LaneId='1' Version='1.5'><SupportedFeatures><FeatureCheckAliveResponse/><FeatureBoardForecast/></SupportedFeatures></ServiceDescription></Hermes>"
        }
        "describes-unwatched" => {
            "<Hermes><ServiceDescription MachineId='P' LaneId='1' Version='1.5'><SupportedFeatures><FeatureQueryBoardInfo/><FeatureSendBoardInfo/></SupportedFeatures></ServiceDescription></Hermes>"
        }
        _ => traffic_of(word),
    }
}

/// What only a standing session takes.
fn traffic_of(word: &str) -> &'static str {
    match word {
        "board" => {
            "<Hermes><BoardAvailable BoardId='00000000-0000-0000-0000-000000000001' BoardIdCreatedBy='M1' FailedBoard='1' FlippedBoard='0'/></Hermes>"
        }
        "no-board" => "<Hermes><RevokeBoardAvailable/></Hermes>",
        "ready" => "<Hermes><MachineReady FailedBoard='2'/></Hermes>",
        "unready" => "<Hermes><RevokeMachineReady/></Hermes>",
        "start" => {
            "<Hermes><StartTransport BoardId='00000000-0000-0000-0000-000000000002'/></Hermes>"
        }
        "stop" => {
            "<Hermes><StopTransport TransferState='2' BoardId='00000000-0000-0000-0000-000000000003'/></Hermes>"
        }
        "finish" => {
            "<Hermes><TransportFinished TransferState='3' BoardId='00000000-0000-0000-0000-000000000004'/></Hermes>"
        }
        "forecast" => {
            "<Hermes><BoardForecast BoardId='00000000-0000-0000-0000-000000000005'/></Hermes>"
        }
        "query" => "<Hermes><QueryBoardInfo TopBarcode='PCB7'/></Hermes>",
        "info" => {
            "<Hermes><SendBoardInfo BoardId='00000000-0000-0000-0000-000000000006'/></Hermes>"
        }
        _ => "",
    }
}
