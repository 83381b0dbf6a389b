//! The happenings of the cases: the word of one, and behind it the words of its values.

use crate::acts::act_of;
use crate::reasons::reason_of;
use crate::values::{event_of, id_of, number_of, parted, quality_of, side_of};
use board_record::Sensed;
use line_base::Memory;
use line_report::Happening;
use line_world::Move;
use std::alloc::Global;

pub fn happening_of(alloc: Global, what: &str, about: &str) -> Result<Happening, Memory> {
    match what {
        "Done" => done_of(alloc, about),
        "No" => Ok(Happening::No(reason_of(alloc, about)?)),
        "Unvouched" => Ok(Happening::Unvouched),
        _ => Ok(numbered_of(what, about)),
    }
}

/// What a machine did: its number, and then its act.
fn done_of(alloc: Global, about: &str) -> Result<Happening, Memory> {
    let (number, act) = parted(about);
    let machine = number_of(number);
    let act = act_of(alloc, act)?;
    Ok(Happening::Done { machine, act })
}

/// The happenings that begin with a number.
fn numbered_of(what: &str, about: &str) -> Happening {
    let (number, rest) = parted(about);
    let number = number_of(number);
    match what {
        "Lanes" => Happening::Lanes { count: number },
        "Machine" => Happening::Machine {
            number,
            capacity: number_of(rest),
        },
        "Bridge" => Happening::Bridge {
            number,
            capacity: number_of(rest),
        },
        "Cut" => Happening::Cut { gap: number },
        "Stop" => Happening::Stop { machine: number },
        "Spoils" => Happening::Spoils {
            machine: number,
            side: side_of(rest),
        },
        "Moved" => Happening::Moved {
            gap: number,
            step: move_of(rest),
        },
        "Lie" => lie_of(number, rest),
        "Unseen" => Happening::Unseen {
            machine: number,
            side: side_of(rest),
        },
        _ => board_of(what, number, rest),
    }
}

fn lie_of(machine: u32, about: &str) -> Happening {
    let (side, event) = parted(about);
    Happening::Lie {
        machine,
        sensed: Sensed {
            side: side_of(side),
            event: event_of(event),
        },
    }
}

/// Those of a board. The number of one that is gone is its id.
fn board_of(what: &str, number: u32, about: &str) -> Happening {
    let (id, quality) = parted(about);
    let id = id_of(id);
    match what {
        "Shown" => Happening::Shown {
            machine: number,
            id,
            quality: quality_of(quality),
        },
        "ShownBetween" => Happening::ShownBetween { gap: number, id },
        "With" => Happening::With {
            machine: number,
            id,
        },
        "Between" => Happening::Between { gap: number, id },
        _ => Happening::Gone { id },
    }
}

fn move_of(word: &str) -> Move {
    match word {
        "Begin" => Move::Begin,
        "Left" => Move::Left,
        "Enter" => Move::Enter,
        "Back" => Move::Back,
        "HandIn" => Move::HandIn,
        _ => Move::Take,
    }
}
