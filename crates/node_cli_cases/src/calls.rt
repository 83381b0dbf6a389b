use line_base::Memory;
use line_outside::{Address, Got, Opened, PortCall, Sent, Way};
use std::io::Write;

/// Tells the calls, a line each, but for polls that found nothing.
pub fn tell_calls(calls: &[PortCall], bytes: &[u8], to: &mut Vec<u8>) -> Result<(), Memory> {
    let mut rest = bytes;
    for call in calls {
        let (own, others) = rest.split_at(weight_of(call).min(rest.len()));
        rest = others;
        tell_call(call, own, to)?;
    }
    Ok(())
}

fn weight_of(call: &PortCall) -> usize {
    match call {
        PortCall::Polls {
            got: Got::Bytes(count),
            ..
        } => *count,
        PortCall::Sends { piece, .. } | PortCall::Refuses { piece, .. } => *piece,
        _ => 0,
    }
}

fn tell_call(call: &PortCall, bytes: &[u8], to: &mut Vec<u8>) -> Result<(), Memory> {
    match call {
        PortCall::Listens {
            way,
            address,
            opened,
        } => {
            let way = way_word(*way);
            written(write!(to, "> listen {way} "))?;
            tell_opened(*address, *opened, to)
        }
        PortCall::Connects {
            address,
            opened,
            ..
        } => {
            written(write!(to, "> connect "))?;
            tell_opened(*address, *opened, to)
        }
        PortCall::Polls {
            got: Got::NotYet,
            ..
        } => Ok(()),
        PortCall::Polls { way, got, .. } => tell_line("<", *way, got_word(*got), bytes, to),
        PortCall::Sends { way, sent, .. } => tell_line("> send", *way, sent_word(*sent), bytes, to),
        PortCall::Refuses { way, sent, .. } => tell_line(
            "> refuse",
            *way,
            sent_word(*sent),
            bytes,
            to,
        ),
        PortCall::Closes { way } => tell_line("> close", *way, "", &[], to),
    }
}

/// An address, and what came of it.
fn tell_opened(address: Address, opened: Opened, to: &mut Vec<u8>) -> Result<(), Memory> {
    let answer = opened_word(opened);
    tell_address(address, to)?;
    written(write!(to, "{answer}\n"))
}

/// An address as it is written.
pub fn tell_address(address: Address, to: &mut Vec<u8>) -> Result<(), Memory> {
    let [a, b, c, d] = address.host;
    let port = address.port;
    written(write!(to, "{a}.{b}.{c}.{d}:{port}"))
}

/// A word, a way, and what came of it, with the bytes as they are.
fn tell_line(
    word: &str,
    way: Way,
    what: &str,
    bytes: &[u8],
    to: &mut Vec<u8>,
) -> Result<(), Memory> {
    let way = way_word(way);
    written(write!(to, "{word} {way}{what}"))?;
    if !bytes.is_empty() {
        written(write!(to, " "))?;
        for byte in bytes {
            match *byte {
                b'\n' => written(write!(to, "\\0A"))?,
                b'\r' => written(write!(to, "\\0D"))?,
                _ => to.push(*byte).map_err(|_| Memory)?,
            }
        }
    }
    written(write!(to, "\n"))
}

/// A way's word in a case.
pub fn way_word(way: Way) -> &'static str {
    match way {
        Way::Panel => "panel",
        Way::Upstream => "up",
        Way::Downstream => "down",
        Way::Supervisory => "super",
        Way::Configuration => "config",
    }
}

/// What came of a listen or a connect, after a space; nothing where it was done.
pub fn opened_word(opened: Opened) -> &'static str {
    match opened {
        Opened::Done => "",
        Opened::Failed => " !failed",
    }
}

/// What a poll found, after a space; nothing where it found bytes.
pub fn got_word(got: Got) -> &'static str {
    match got {
        Got::Arrived => " !arrived",
        Got::Second => " !second",
        Got::Bytes(_) => "",
        Got::NotYet => " !not-yet",
        Got::Closed => " !closed",
        Got::Failed => " !failed",
    }
}

/// What came of a send, after a space; nothing where bytes were taken.
pub fn sent_word(sent: Sent) -> &'static str {
    match sent {
        Sent::Took(_) => "",
        Sent::NotYet => " !not-yet",
        Sent::Closed => " !closed",
        Sent::Failed => " !failed",
    }
}

/// A write that was done, or the memory that it wanted.
pub fn written<E: Drop>(answer: Result<(), E>) -> Result<(), Memory> {
    match answer {
        Ok(()) => Ok(()),
        Err(_) => Err(Memory),
    }
}
