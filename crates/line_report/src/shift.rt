//! What a shift tells of both of its lanes.

ghost use Rattle.std.specs.Prelude.{◌≡◌, ◌≤◌, ◌++◌, IfOk, OnOk, length};
ghost use Rattle.line_report.specs.Shifts.{before_gets, before_gives, behind_gets, first_from, from_gives, is_gets as tells_gets, is_gives as tells_gives, shift_told};

use crate::happened::Happened;
use crate::happening::Happening;
use crate::lanes::LaneHappened;
use line_base::Memory;
use node_core::Act;

/// Adds what a shift told, from a lane to another, by what the machine told on each: of both lanes
/// what came before the board went, then the shift, and then what came behind it. `Memory` where
/// there is none for it; a front of it may be added then.
pub fn tell_shift(
    from: u32,
    given: Happened,
    to: u32,
    got: Happened,
    told: &mut LaneHappened,
) -> Result<(), Memory>
    ensures { OnOk result (told.new ≡ told.old ++ shift_told from to given got) }
{
    let mut given = given;
    let mut got = got;
    let shifted = cut_at_gives(&mut given)?;
    let behind = cut_at_gets(&mut got)?;
    told.tell_all(from, given)?;
    told.tell_all(to, got)?;
    told.tell_all(from, shifted)?;
    told.tell_all(to, behind)
}

/// Cuts off the shift and all behind it.
#[tactic(auto, using(crate::proofs::Firsts::taken_first, crate::proofs::Firsts::dropped_first))]
fn cut_at_gives(told: &mut Happened) -> Result<Happened, Memory>
    ensures before { OnOk result (told.new ≡ before_gives told.old) }
    ensures behind { IfOk result (λ rest. rest ≡ from_gives told.old) }
{
    let at = gives_at(told.list());
    told.split_off(at)
}

/// Cuts off all behind the board's coming, which goes.
#[tactic(auto, using(crate::proofs::Firsts::taken_first, crate::proofs::Firsts::dropped_behind))]
fn cut_at_gets(told: &mut Happened) -> Result<Happened, Memory>
    ensures before { OnOk result (told.new ≡ before_gets told.old) }
    ensures behind { IfOk result (λ rest. rest ≡ behind_gets told.old) }
{
    let at = gets_at(told.list());
    let mut behind = told.split_off(at)?;
    behind.drop_first();
    Ok(behind)
}

/// How many happenings stand before the shift, or how many there are where there is none.
fn gives_at(told: &[Happening]) -> usize
    ensures within { result ≤ length told.now }
    ensures first { result ≡ first_from tells_gives 0 told.now }
{
    for (at, happening) in told.iter().enumerate() {
        if is_gives(happening) {
            return at;
        }
    }
    told.len()
}

/// How many stand before the coming of a board.
fn gets_at(told: &[Happening]) -> usize
    ensures within { result ≤ length told.now }
    ensures first { result ≡ first_from tells_gets 0 told.now }
{
    for (at, happening) in told.iter().enumerate() {
        if is_gets(happening) {
            return at;
        }
    }
    told.len()
}

fn is_gives(happening: &Happening) -> bool
    ensures { result ≡ tells_gives happening.now }
{
    match happening {
        Happening::Done {
            act: Act::Gives { .. },
            ..
        } => true,
        _ => false,
    }
}

fn is_gets(happening: &Happening) -> bool
    ensures { result ≡ tells_gets happening.now }
{
    match happening {
        Happening::Done {
            act: Act::Gets { .. },
            ..
        } => true,
        _ => false,
    }
}
