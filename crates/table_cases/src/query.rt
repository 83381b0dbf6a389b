//! Forecasts and questions for boards. `forecasts 70` adds so many forecasts with the products 1, 2, ..
//! and tells how many are kept and the first and the last. `find a - x:y p:-` asks for a top and a bottom
//! barcode among boards, each given by its own two. `info a:b` and `forecast a:b` tell of a board with
//! these barcodes, `info a:b 2` and `forecast a:b 2` of one that is a panel with two circuits.

mod asked;
mod kept;
mod told;

use std::alloc::Global;
use std::io;
use std::io::Write;

/// Appends the answer.
pub fn tell(alloc: Global, case: &str, to: &mut Vec<u8>) -> io::Result<()> {
    let (what, words) = case.split_once(' ').unwrap_or((case, ""));
    match what {
        "forecasts" => kept::tell(alloc, words, to),
        "find" => asked::tell(alloc, words, to),
        "info" => told::tell(alloc, true, words, to),
        "forecast" => told::tell(alloc, false, words, to),
        _ => write!(to, "no case"),
    }
}
