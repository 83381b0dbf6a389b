ghost use Rattle.std.specs.Prelude.{◌≡◌, ◌++◌, OnOk, IfOk, true};
ghost use Rattle.node_core.specs.Sides.{is_open};
ghost use Rattle.node_core.specs.Halves.{OffersFront};
ghost use Rattle.node_core.specs.Words.{Means, Finds, word_did, HearsPiece};

use crate::act::Outputs;
use crate::desk::Desk;
use crate::lane::Body;
use crate::word::{Next, Word};
use hermes_horizontal::{MessageError, read_horizontal};
use hermes_stream::{Cut, Cutter};
use line_base::{Memory, Side, Text};
use std::alloc::Global;

/// What a frame means.
fn word_of(alloc: Global, frame: &[u8]) -> Result<Word, Memory>
    ensures { IfOk result (λ word. Means frame.now word) }
{
    match read_horizontal(alloc, frame) {
        Ok(message) => Ok(Word::Says(message)),
        Err(MessageError::Memory) => Err(Memory),
        Err(MessageError::Refused { at, why }) => {
            let text = why.text(alloc, at)?;
            Ok(Word::Wrong(text))
        }
    }
}

/// What stands at the front of the bytes that wait; a frame is read where it is lent.
fn next_word(alloc: Global, cutter: &mut Cutter) -> Result<Next, Memory>
    ensures { IfOk result (λ next. Finds cutter.old cutter.new next) }
{
    match cutter.next() {
        Cut::Frame(frame) => {
            let word = word_of(alloc, frame)?;
            Ok(Next::Word(word))
        }
        Cut::NeedMore => Ok(Next::More),
        Cut::TooLong => Ok(Next::TooLong),
    }
}

impl Body {
    /// A side hears a word.
    fn hear_word(
        &mut self,
        desk: &Desk,
        side: Side,
        word: Word,
        to: &mut Outputs,
    ) -> Result<(), Memory>
        requires open { is_open side self.old ≡ true }
        requires offers { OffersFront self.old }
        ensures body { OnOk result (self.new ≡ (word_did desk.now side word self.old).body) }
        ensures acts { OnOk result (to.new ≡ to.old ++ (word_did desk.now side word self.old).acts) }
    {
        match word {
            Word::Says(message) => self.hear(desk, side, message, to),
            Word::Wrong(text) => self.breach(desk, side, text, to),
        }
    }
}

/// A side hears a piece of bytes, until it closes.
pub(crate) fn hear_piece(
    body: &mut Body,
    cutter: &mut Cutter,
    desk: &Desk,
    side: Side,
    piece: &[u8],
    to: &mut Outputs,
) -> Result<(), Memory>
    requires open { is_open side body.old ≡ true }
    requires offers { OffersFront body.old }
    ensures { OnOk result
        (HearsPiece desk.now side cutter.old piece.now cutter.new body.old body.new to.old to.new) }
{
    let mut at = 0;
    loop {
        at += cutter.feed(&piece[at..]);
        match next_word(desk.alloc(), cutter)? {
            Next::Word(word) => {
                body.hear_word(desk, side, word, to)?;
                if !body.is_open(side) {
                    return Ok(());
                }
            }
            Next::More => {
                if at == piece.len() {
                    return Ok(());
                }
            }
            Next::TooLong => {
                let text = Text::plain(desk.alloc(), b"message too long")?;
                body.breach(desk, side, text, to)?;
                return Ok(());
            }
        }
    }
}
