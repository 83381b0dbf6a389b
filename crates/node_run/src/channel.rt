//! What the bytes of the configuration way say, message by message.

ghost use Rattle.std.specs.Prelude.{◌≡◌, IfOk};
ghost use Rattle.node_run.specs.Configuring.{FindsConfig, HearsConfig, MeansConfig, hears_config_behind};

use config_service::{ConfigError, ConfigMessage, read_config};
use hermes_stream::{Cut, Cutter};
use line_base::{Memory, Text};
use std::alloc::Global;
use supervised_end::Channel;

/// What a frame means to the configuration service.
#[derive(Drop)]
pub enum ConfigWord {
    /// It spells this message.
    Says(ConfigMessage),
    /// It spells none; the breach has this text.
    Wrong(Text),
}

/// What stands at the front of the bytes that wait on the configuration way.
#[derive(Drop)]
pub enum ConfigFound {
    /// A frame, that means this.
    Word(ConfigWord),
    /// No frame, and room for more bytes.
    More,
    /// As many bytes as a message may have, and no end of one.
    TooLong,
}

/// What the bytes that came say next to the configuration service.
pub fn next_config(alloc: Global, channel: &mut Channel) -> Result<ConfigFound, Memory>
    ensures { IfOk result (λ found. HearsConfig channel.old channel.new found) }
{
    channel.feed();
    let found = next_config_found(alloc, &mut channel.cutter)?;
    note_config(channel, &found);
    Ok(found)
}

/// What was found says whether bytes are heard further.
fn note_config(channel: &mut Channel, found: &ConfigFound)
    ensures { channel.new
        ≡ record channel.old {
          hears = hears_config_behind found.now channel.old.piece channel.old.hears;
        } }
{
    match found {
        ConfigFound::More => channel.hear_rest(),
        ConfigFound::Word(_) | ConfigFound::TooLong => {}
    }
}

/// What a frame means to the configuration service.
fn config_word_of(alloc: Global, frame: &[u8]) -> Result<ConfigWord, Memory>
    ensures { IfOk result (λ word. MeansConfig frame.now word) }
{
    match read_config(alloc, frame) {
        Ok(message) => Ok(ConfigWord::Says(message)),
        Err(ConfigError::Memory) => Err(Memory),
        Err(ConfigError::Refused { at, why }) => {
            let text = why.text(alloc, at)?;
            Ok(ConfigWord::Wrong(text))
        }
    }
}

/// What stands at the front of the bytes that wait on the configuration way.
fn next_config_found(alloc: Global, cutter: &mut Cutter) -> Result<ConfigFound, Memory>
    ensures { IfOk result (λ found. FindsConfig cutter.old cutter.new found) }
{
    match cutter.next() {
        Cut::Frame(frame) => {
            let word = config_word_of(alloc, frame)?;
            Ok(ConfigFound::Word(word))
        }
        Cut::NeedMore => Ok(ConfigFound::More),
        Cut::TooLong => Ok(ConfigFound::TooLong),
    }
}
