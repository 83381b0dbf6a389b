//! The messages of the cases, by their words.

use crate::ids::id_of;
use std::io;
use std::io::Write;

/// Appends the bytes of words with a `+` between them.
pub fn spell_all(words: &str, to: &mut Vec<u8>) -> io::Result<()> {
    for word in words.split('+') {
        spell_each(word, to)?;
    }
    Ok(())
}

/// A word is spelled once, and 32 times where it ends with `*32`.
fn spell_each(word: &str, to: &mut Vec<u8>) -> io::Result<()> {
    match word.split_once('*') {
        Some((word, _)) => spell_often(word, to),
        None => spell(word, to),
    }
}

fn spell_often(word: &str, to: &mut Vec<u8>) -> io::Result<()> {
    for _ in 0..32 {
        spell(word, to)?;
    }
    Ok(())
}

fn spell(word: &str, to: &mut Vec<u8>) -> io::Result<()> {
    match word.split_once(':') {
        Some((what, id)) => spell_about(what, id, to),
        None => to.write_all(spelling_of(word).as_bytes()),
    }
}

/// Messages about a board.
fn spell_about(what: &str, id: &str, to: &mut Vec<u8>) -> io::Result<()> {
    let id = id_of(id);
    match what {
        "offer" => write!(
            to,
            "<Hermes><BoardAvailable BoardId='{id}' BoardIdCreatedBy='P' FailedBoard='0' FlippedBoard='0'/></Hermes>"
        ),
        "failed" => write!(
            to,
            "<Hermes><BoardAvailable BoardId='{id}' BoardIdCreatedBy='P' FailedBoard='2' FlippedBoard='0'/></Hermes>"
        ),
        "panel" => write!(
            to,
            "<Hermes><BoardAvailable BoardId='{id}' BoardIdCreatedBy='P' FailedBoard='0' FlippedBoard='0'><SubBoards><SB Pos='7' St='1'/><SB Pos='8' Bc='A&amp;B' St='2'/></SubBoards></BoardAvailable></Hermes>"
        ),
        "start" => write!(to, "<Hermes><StartTransport BoardId='{id}'/></Hermes>"),
        "stop1" => write!(
            to,
            "<Hermes><StopTransport TransferState='1' BoardId='{id}'/></Hermes>"
        ),
        "stop3" => write!(
            to,
            "<Hermes><StopTransport TransferState='3' BoardId='{id}'/></Hermes>"
        ),
        "finish1" => write!(
            to,
            "<Hermes><TransportFinished TransferState='1' BoardId='{id}'/></Hermes>"
        ),
        "finish2" => write!(
            to,
            "<Hermes><TransportFinished TransferState='2' BoardId='{id}'/></Hermes>"
        ),
        "finish3" => write!(
            to,
            "<Hermes><TransportFinished TransferState='3' BoardId='{id}'/></Hermes>"
        ),
        _ => Ok(()),
    }
}

fn spelling_of(word: &str) -> &'static str {
    match word {
        "ping" => "<Hermes><CheckAlive Type='1' Id='7'/></Hermes>",
        "bare-ping" => "<Hermes><CheckAlive Type='1'/></Hermes>",
        "pong" => "<Hermes><CheckAlive Type='2' Id='1'/></Hermes>",
        "alive" => "<Hermes><CheckAlive/></Hermes>",
        "notifies" => {
            "<Hermes><Notification NotificationCode='5' Severity='4' Description='note'/></Hermes>"
        }
        "hello" => "<Hermes><Hello/></Hermes>",
        "describes" => {
            "<Hermes><ServiceDescription MachineId='P' LaneId='1' Version='1.5'><SupportedFeatures><FeatureCheckAliveResponse/></SupportedFeatures></ServiceDescription></Hermes>"
        }
        "unwatched" => {
            "<Hermes><ServiceDescription MachineId='P' LaneId='1' Version='1.5'/></Hermes>"
        }
        "supports" => {
            "<Hermes><ServiceDescription MachineId='P' LaneId='1' Version='1.5'><SupportedFeatures><FeatureBoardForecast/><FeatureQueryBoardInfo/></SupportedFeatures></ServiceDescription></Hermes>"
        }
        _ => traffic_of(word),
    }
}

fn traffic_of(word: &str) -> &'static str {
    match word {
        "revoke" => "<Hermes><RevokeBoardAvailable/></Hermes>",
        "ready" => "<Hermes><MachineReady FailedBoard='0'/></Hermes>",
        "unready" => "<Hermes><RevokeMachineReady/></Hermes>",
        "forecast" => "<Hermes><BoardForecast/></Hermes>",
        "info" => "<Hermes><SendBoardInfo/></Hermes>",
        "two" => "<Hermes><Hello/><Hello/></Hermes>",
        "nul" => "<Hermes Timestamp=\"1\0970",
        "begin" => "<Hermes><Hel",
        "end" => "lo/></Hermes>",
        _ => question_of(word),
    }
}

fn question_of(word: &str) -> &'static str {
    match word {
        "query" => "<Hermes><QueryBoardInfo TopBarcode='PCB7'/></Hermes>",
        "query-other" => "<Hermes><QueryBoardInfo TopBarcode='PCB8'/></Hermes>",
        "query-bottom" => "<Hermes><QueryBoardInfo BottomBarcode='PCB7'/></Hermes>",
        "query-nothing" => "<Hermes><QueryBoardInfo/></Hermes>",
        "ahead" => "<Hermes><BoardForecast ProductTypeId='A'/></Hermes>",
        "next" => "<Hermes><BoardForecast ProductTypeId='B'/></Hermes>",
        _ => "</Hermes>",
    }
}
