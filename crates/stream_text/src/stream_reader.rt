//! Reads the messages of a stream, piece by piece, and writes a line for each.

ghost use Rattle.std.specs.Prelude.{◌≡◌, ◌+◌, ◌≤◌, ◌<◌, ◌^◌, ◌++◌, IfOk, OnOk, codes, decimal, length, false};
ghost use Rattle.canonical_frames.specs.Frame.{IsCanonical};
ghost use Rattle.hermes_horizontal.specs.Texts.{message_error_text};
ghost use Rattle.stream_text.specs.ReadText.{entry, message_text, ending_text, end_text};
ghost use Rattle.stream_text.specs.StreamReader.{WritesLine, TakesPiece, TakesSome, IsOver};

use canonical_frames::is_canonical;
use hermes_horizontal::{Horizontal, Message, MessageError, read_horizontal, write_horizontal};
use hermes_stream::{Cut, Cutter};
use line_base::Memory;
use std::alloc::Global;
use std::io::Write;

/// How far a stream is read: how many frames are done, and whether too many bytes stand without an
/// end.
#[derive(Clone, Copy, Debug, PartialEq, Eq)]
pub struct Taken {
    pub done: u64,
    pub too_long: bool,
}

/// How far a stream is read: how many bytes are taken, how many frames are done, and whether too
/// many bytes stand without an end.
#[derive(Clone, Copy, Debug, PartialEq, Eq)]
pub struct Progress {
    pub taken: u64,
    pub done: u64,
    pub too_long: bool,
}

impl Progress {
    /// Before the first byte.
    pub fn start() -> Progress
        ensures { (result.taken ≡ 0) × (result.done ≡ 0) × (result.too_long ≡ false) }
    {
        Progress {
            taken: 0,
            done: 0,
            too_long: false,
        }
    }
}

/// Takes a piece of the stream, and appends the lines of the frames that end in it. Where too many
/// bytes stand without an end, the piece is counted alone.
pub fn take_some(
    alloc: Global,
    cutter: &mut Cutter,
    far: Progress,
    piece: &[u8],
    to: &mut Vec<u8>,
) -> Result<Progress, Memory>
    requires over { IsOver far.too_long cutter.old }
    requires fits { far.taken + length piece.now < 2 ^ 40 }
    requires bounded { far.done + length cutter.old ≤ far.taken }
    ensures { IfOk result
        (λ now. TakesSome cutter.old cutter.new piece.now far now to.old.items to.new.items) }
{
    let taken = far.taken + piece.len() as u64;
    if far.too_long {
        return Ok(Progress {
            taken,
            done: far.done,
            too_long: true,
        });
    }
    match take_piece(alloc, cutter, far.done, piece, to) {
        Ok(now) => Ok(Progress {
            taken,
            done: now.done,
            too_long: now.too_long,
        }),
        Err(Memory) => Err(Memory),
    }
}

/// Appends what stands behind the lines of the frames. `large` says that the stream has more bytes
/// than are read.
pub fn write_ending(
    far: Progress,
    waiting: usize,
    large: bool,
    to: &mut Vec<u8>,
) -> Result<(), Memory>
    requires { far.done < 2 ^ 40 }
    ensures { OnOk result
        (to.new.items ≡ to.old.items ++ ending_text far.done far.too_long waiting large) }
{
    let done = far.done;
    if far.too_long {
        let next = done + 1;
        match write!(to, "{next} too long\n") {
            Ok(()) => {}
            Err(_) => return Err(Memory),
        }
    }
    write_end(far, waiting, large, to)
}

/// Appends the last line.
fn write_end(far: Progress, waiting: usize, large: bool, to: &mut Vec<u8>) -> Result<(), Memory>
    ensures { OnOk result
        (to.new.items ≡ to.old.items ++ end_text far.done far.too_long waiting large) }
{
    let done = far.done;
    let written = match (large, far.too_long) {
        (true, _) => write!(to, "refused 0: too large\n"),
        (false, true) => write!(to, "end messages={done}\n"),
        (false, false) => write!(to, "end messages={done} rest={waiting}\n"),
    };
    match written {
        Ok(()) => Ok(()),
        Err(_) => Err(Memory),
    }
}

/// Takes a piece of the stream whole, and appends the lines of the frames that end in it. `done`
/// frames were done before.
pub fn take_piece(
    alloc: Global,
    cutter: &mut Cutter,
    done: u64,
    piece: &[u8],
    to: &mut Vec<u8>,
) -> Result<Taken, Memory>
    requires { done + length cutter.old + length piece.now < 2 ^ 64 }
    ensures { IfOk result
        (λ taken. TakesPiece cutter.old cutter.new piece.now done taken to.old.items to.new.items) }
{
    let mut at = 0;
    let mut count = done;
    loop {
        at += cutter.feed(&piece[at..]);
        let frame = match (cutter.next(), at == piece.len()) {
            (Cut::Frame(frame), _) => frame,
            (Cut::NeedMore, false) => continue,
            (Cut::NeedMore, true) => {
                return Ok(Taken {
                    done: count,
                    too_long: false,
                });
            }
            (Cut::TooLong, _) => {
                return Ok(Taken {
                    done: count,
                    too_long: true,
                });
            }
        };
        count += 1;
        write_frame(alloc, count, frame, to)?;
    }
}

/// Appends the line of a frame: its message written canonically, or why it is refused. A frame
/// that is canonical is copied, and not read.
fn write_frame(alloc: Global, number: u64, frame: &[u8], to: &mut Vec<u8>) -> Result<(), Memory>
    ensures { OnOk result (WritesLine number frame.now to.old.items to.new.items) }
{
    if is_canonical(frame) {
        write_copied(number, frame, to)
    } else {
        write_read(alloc, number, frame, to)
    }
}

/// Appends the line of a frame that is canonical: the frame as it is.
fn write_copied(number: u64, frame: &[u8], to: &mut Vec<u8>) -> Result<(), Memory>
    requires { IsCanonical frame.now }
    ensures { OnOk result (WritesLine number frame.now to.old.items to.new.items) }
{
    write_entry(number, frame, to)
}

/// Appends a line of these bytes.
fn write_entry(number: u64, bytes: &[u8], to: &mut Vec<u8>) -> Result<(), Memory>
    ensures { OnOk result (to.new.items ≡ to.old.items ++ entry number bytes.now) }
{
    append_number(number, to)?;
    to.extend_from_slice(bytes)?;
    to.push(b'\n')?;
    Ok(())
}

/// Appends the line of a frame by what is read of it.
fn write_read(alloc: Global, number: u64, frame: &[u8], to: &mut Vec<u8>) -> Result<(), Memory>
    ensures { OnOk result (WritesLine number frame.now to.old.items to.new.items) }
{
    match read_horizontal(alloc, frame) {
        Ok(message) => {
            let written = write_message(number, &message, to);
            drop(message);
            written
        }
        Err(MessageError::Memory) => Err(Memory),
        Err(error) => write_refused(number, error, to),
    }
}

/// Appends the line of a frame that is refused.
fn write_refused(number: u64, error: MessageError, to: &mut Vec<u8>) -> Result<(), Memory>
    ensures { OnOk result
        (to.new.items ≡ to.old.items ++ entry number (codes "refused: " ++ message_error_text error)) }
{
    match write!(to, "{number} refused: {error}\n") {
        Ok(()) => Ok(()),
        Err(_) => Err(Memory),
    }
}

/// Appends the line of a message.
fn write_message(number: u64, message: &Message, to: &mut Vec<u8>) -> Result<(), Memory>
    ensures { OnOk result
        (to.new.items ≡ to.old.items ++ entry number (message_text message.now)) }
{
    append_number(number, to)?;
    write_body(message, to)?;
    to.push(b'\n')?;
    Ok(())
}

/// Appends a line's number and the space behind it.
fn append_number(number: u64, to: &mut Vec<u8>) -> Result<(), Memory>
    ensures { OnOk result (to.new.items ≡ to.old.items ++ (decimal number ++ codes " ")) }
{
    let mut room = itoa::Buffer::new();
    to.extend_from_slice(room.format(number).as_bytes())?;
    to.push(b' ')?;
    Ok(())
}

fn write_body(message: &Message, to: &mut Vec<u8>) -> Result<(), Memory>
    ensures { OnOk result (to.new.items ≡ to.old.items ++ message_text message.now) }
{
    match message.body.what() {
        Horizontal::Other(name) => write_other(name.bytes(), to),
        _ => write_horizontal(message, to),
    }
}

fn write_other(name: &[u8], to: &mut Vec<u8>) -> Result<(), Memory>
    ensures { OnOk result (to.new.items ≡ to.old.items ++ (codes "other " ++ name.now)) }
{
    to.extend_from_slice(b"other ")?;
    to.extend_from_slice(name)?;
    Ok(())
}
