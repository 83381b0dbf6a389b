ghost use Rattle.std.specs.Prelude.{◌≡◌, ◌<◌, ◌^◌, [], length};
ghost use Rattle.line_status.specs.Status.{HasCauses};
ghost use Rattle.stream_text.specs.Stream.{EndsRead, IsReadStatus, Reads};

use crate::stream_reader::{Progress, take_some, write_ending};
use hermes_stream::Cutter;
use line_outside::{Pull, Pushed, Sink, Source, push_all};
use line_status::{InputWhy, PIECE_BYTES, Status, front, push_full};
use std::alloc::Global;

/// How many bytes of a stream are read at most.
const MOST_READ: u64 = 1_073_741_824;

/// Reads the stream of messages that the source has, and writes its read text.
pub fn read_stream<S: Source, K: Sink>(alloc: Global, stream: &mut S, text_to: &mut K) -> Status
    ensures reads { Reads (S.left stream.old) (S.left stream.new) (K.contents text_to.old)
        (K.contents text_to.new) result }
    ensures fits { IsReadStatus result }
    ensures causes { HasCauses result (S.faults stream.old) (S.faults stream.new)
        (K.faults text_to.old) (K.faults text_to.new) }
{
    let mut room = match vec![in alloc; 0u8; PIECE_BYTES] {
        Ok(room) => room,
        Err(_) => return Status::Memory,
    };
    let mut cutter = match Cutter::new(alloc) {
        Ok(cutter) => cutter,
        Err(_) => return Status::Memory,
    };
    let mut text = Vec::new(alloc);
    read_pieces(
        alloc,
        stream,
        room.as_mut_slice(),
        &mut cutter,
        &mut text,
        text_to,
    )
}

/// Reads the stream piece by piece, from its first byte on.
fn read_pieces<S: Source, K: Sink>(
    alloc: Global,
    stream: &mut S,
    room: &mut [u8],
    cutter: &mut Cutter,
    text: &mut Vec<u8>,
    text_to: &mut K,
) -> Status
    requires new { cutter.old ≡ [] }
    requires room { 0 < length room.old }
    requires none { text.old.items ≡ [] }
    ensures reads { Reads (S.left stream.old) (S.left stream.new) (K.contents text_to.old)
        (K.contents text_to.new) result }
    ensures fits { IsReadStatus result }
    ensures causes { HasCauses result (S.faults stream.old) (S.faults stream.new)
        (K.faults text_to.old) (K.faults text_to.new) }
{
    let mut far = Progress::start();
    loop {
        match stream.pull(room) {
            Pull::Bytes(count) => {
                let piece = front(room, count);
                let space = MOST_READ - far.taken;
                if count as u64 > space {
                    let part = front(piece, space as usize);
                    let Ok(now) = take_some(alloc, cutter, far, part, text) else {
                        return Status::Memory;
                    };
                    return end_read(now, cutter.waiting(), true, text, text_to);
                }
                let Ok(now) = take_some(alloc, cutter, far, piece, text) else {
                    return Status::Memory;
                };
                far = now;
                if let Pushed::Failed = push_full(text, text_to) {
                    return Status::WriteFault;
                }
            }
            Pull::End => {
                return end_read(far, cutter.waiting(), false, text, text_to);
            }
            Pull::Failed => {
                let _pushed = push_all(text_to, text.as_slice());
                return Status::ReadFault;
            }
        }
    }
}

/// Ends a reading: writes what waits, and what stands behind it.
fn end_read<K: Sink>(
    far: Progress,
    waiting: usize,
    large: bool,
    text: &mut Vec<u8>,
    text_to: &mut K,
) -> Status
    requires { far.done < 2 ^ 40 }
    ensures fits { IsReadStatus result }
    ensures ends { EndsRead far waiting large (K.contents text_to.old) (K.contents text_to.new)
        (K.faults text_to.old) (K.faults text_to.new) text.old.items result }
{
    if write_ending(far, waiting, large, text).is_err() {
        return Status::Memory;
    }
    match push_all(text_to, text.as_slice()) {
        Pushed::Failed => Status::WriteFault,
        Pushed::Whole => {
            if large {
                return Status::ScriptRefused {
                    line: 0,
                    why: InputWhy::TooLarge,
                };
            }
            Status::Done
        }
    }
}
