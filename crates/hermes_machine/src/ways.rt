ghost use Rattle.std.specs.Prelude.{◌≡◌, false, true, IfSome, is_some};
ghost use Rattle.std.specs.Option.{option_copied};
ghost use Rattle.hermes_machine.specs.Calls.{IsCopied, sent_on, unsent_on};

use crate::answer::{BAD_INPUT, DONE};
use line_base::Side;
use machine_port::{Port, copy_front};

/// The text that waits on a way, by its number.
fn unsent_on(port: &Port, way: u32) -> Option<&[u8]>
    ensures { option_copied result ≡ unsent_on way port.now }
{
    match way {
        0 => Some(port.way(Side::Entry).text()),
        1 => Some(port.way(Side::Exit).text()),
        2 => Some(port.supervisor().text()),
        3 => Some(port.refusal()),
        _ => None,
    }
}

/// Copies the front of a way's text, and answers how many bytes that are.
pub fn copy_unsent(port: &Port, way: u32, to: &mut [u8]) -> i64
    ensures bad_input { is_some (unsent_on way port.now) ≡ false → result ≡ BAD_INPUT }
    ensures copied { IfSome (unsent_on way port.now)
        (λ text. IsCopied text to.old to.new result) }
    ensures uncopied { is_some (unsent_on way port.now) ≡ false → to.new ≡ to.old }
{
    match unsent_on(port, way) {
        Some(text) => copy_front(text, 0, to) as i64,
        None => -3,
    }
}

/// So many bytes of a way's text wait no more.
pub fn take_sent(port: &mut Port, way: u32, count: usize) -> i32
    ensures bad_input { is_some (unsent_on way port.old) ≡ false → result ≡ BAD_INPUT }
    ensures done { is_some (unsent_on way port.old) ≡ true → result ≡ DONE }
    ensures sent { port.new ≡ sent_on way count port.old }
{
    match way {
        0 => port.sent(Side::Entry, count),
        1 => port.sent(Side::Exit, count),
        2 => port.sent_to_supervisor(count),
        3 => port.sent_refusal(count),
        _ => return BAD_INPUT,
    }
    DONE
}
