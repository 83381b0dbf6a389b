//! A floor: a case has the words of what is done on a new floor.

mod done;
mod told;

use line_world::Floor;
use std::alloc::Global;
use std::io;
use std::io::Write;

/// Appends the answer to the last of them, and what is on the floor then.
pub fn tell(alloc: Global, case: &str, to: &mut Vec<u8>) -> io::Result<()> {
    let mut floor = Floor::new(alloc);
    tell_after(&mut floor, case, to)
}

fn tell_after(floor: &mut Floor, case: &str, to: &mut Vec<u8>) -> io::Result<()> {
    let begin = to.len();
    for word in case.split_whitespace() {
        to.truncate(begin);
        done::answer(floor, word, to)?;
    }
    told::floor(floor, to)
}
