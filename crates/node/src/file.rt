ghost use Rattle.std.specs.Prelude.{None};

use line_base::Words;
use line_outside::{Pull, ReaderSource, Source};
use std::io::Read;
use std::rt::Files;
use std::{fs, str};

/// The settings file. One that can't be opened is a source whose pulls fail.
#[derive(Drop)]
pub struct SettingsFile<F: Read> {
    source: Option<ReaderSource<F>>,
    faults: u64,
}

impl<F: Read> SettingsFile<F> {
    /// The file that the first word names.
    pub fn open<R: Files<File = F>>(host: &R, words: &Words) -> SettingsFile<F> {
        SettingsFile {
            source: source_of(host, words),
            faults: 0,
        }
    }
}

/// A source over the file that the first word names, where it can be opened.
fn source_of<F: Read, R: Files<File = F>>(host: &R, words: &Words) -> Option<ReaderSource<F>> {
    let word = words.list().first()?;
    let path = str::from_utf8(word.bytes()).ok()?;
    let file = fs::open(host, path).ok()?;
    Some(ReaderSource::new(file))
}

impl<F: Read> Source for SettingsFile<F> {
    ghost left = { λ _. None };

    ghost faults = { λ file. file.faults };

    fn pull(&mut self, room: &mut [u8]) -> Pull {
        let pull = match &mut self.source {
            Some(source) => source.pull(room),
            None => Pull::Failed,
        };
        if pull == Pull::Failed {
            self.faults = self.faults.saturating_add(1);
        }
        pull
    }
}
