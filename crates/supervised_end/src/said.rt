ghost use Rattle.std.specs.Prelude.{◌≡◌, true, IfOk};
ghost use Rattle.line_base.specs.PlainText.{is_plain_text};
ghost use Rattle.supervised_end.specs.Said.{connected_already, notification, system_of, text_of, untaken};

use hermes_horizontal::Features;
use hermes_vertical::{System, Vertical, VerticalMessage, write_vertical};
use line_base::{Code, Memory, Moment, Severity, Text};
use node_core::No;
use std::alloc::Global;

/// The version of the standard that the machine speaks.
const VERSION: &[u8] = b"1.5";

/// A Notification of this number.
pub fn notification(number: u32, severity: Severity, text: Text) -> Vertical
    ensures { result ≡ notification number severity text }
{
    Vertical::Notification {
        code: Code { number },
        severity,
        text,
    }
}

/// How a machine of this id text describes itself.
pub fn system_of(alloc: Global, machine_id: &Text) -> Result<Vertical, Memory>
    ensures { IfOk result (λ body. body ≡ system_of machine_id.now) }
{
    let system = machine_id.copy(alloc)?;
    let version = Text::plain(alloc, VERSION)?;
    Ok(Vertical::SupervisoryServiceDescription(System {
        system,
        version,
        features: Features {
            check_alive: true,
            forecast: false,
            query: false,
            send: false,
        },
    }))
}

/// The text for a second connection.
pub fn refusal_of_second(alloc: Global, moment: Moment) -> Result<Vec<u8>, Memory>
    ensures { IfOk result (λ text. text.items ≡ text_of moment connected_already) }
{
    let body = connected_already(alloc)?;
    text_of(alloc, body, moment)
}

fn connected_already(alloc: Global) -> Result<Vertical, Memory>
    ensures { IfOk result (λ body. body ≡ connected_already) }
{
    let text = Text::plain(alloc, b"already connected")?;
    Ok(notification(2, Severity::Error, text))
}

/// The text of a message of this moment.
fn text_of(alloc: Global, body: Vertical, moment: Moment) -> Result<Vec<u8>, Memory>
    ensures { IfOk result (λ text. text.items ≡ text_of moment body) }
{
    let message = VerticalMessage {
        stamp: Some(moment),
        body,
    };
    let mut to = Vec::new(alloc);
    write_vertical(&message, &mut to)?;
    Ok(to)
}

/// What is told of an answer that isn't taken.
pub fn told_of_untaken(alloc: Global, why: No) -> Result<Vertical, Memory>
    ensures { IfOk result (λ body. body ≡ notification 0 Severity.Warning (untaken why)) }
{
    let text = Text::plain(alloc, untaken(why).as_bytes())?;
    Ok(notification(0, Severity::Warning, text))
}

fn untaken(why: No) -> &'static str
    ensures text { result.now ≡ untaken why }
    ensures plain { is_plain_text result.now ≡ true }
{
    match why {
        No::UnknownQuery => "unknown query",
        No::Answered(_) => "answered",
        _ => "not supervised",
    }
}
