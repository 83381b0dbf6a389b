//! What a side hears of the bytes that flow to it. Each law is a contract over the definitions of
//! specs/.

ghost use Rattle.std.specs.Prelude.{◌≡◌, ◌++◌, Bool, List, ℕ};
ghost use Rattle.hermes_horizontal.specs.declared.message.Horizontal.{Horizontal};
ghost use Rattle.hermes_horizontal.specs.declared.message.Message.{Message as Whole};
ghost use Rattle.board_record.specs.Maker.{Maker};
ghost use Rattle.board_record.specs.declared.sensed.Sensed.{Sensed};
ghost use Rattle.node_core.specs.Desk.{Desk};
ghost use Rattle.node_core.specs.Event.{Event, event_of, maker_after};
ghost use Rattle.node_core.specs.Step.{machine_step};
ghost use Rattle.node_core.specs.Words.{AreWords};
ghost use Rattle.node_core.specs.declared.input.Input.{Input};
ghost use Rattle.node_core.specs.declared.lane.Body.{Body};
ghost use Rattle.node_core.specs.declared.word.Word.{Word};
ghost use Rattle.law_custody.specs.Bytes.{Flows, Spoiled, texts_of};
ghost use Rattle.law_link_messages.specs.Fit.{AreFit, AreFitWords, Fits, IsFitBody, IsFitDesk, IsFitEvent, IsFitInput, IsFitMaker};
ghost use Rattle.law_link_messages.specs.Heard.{AreSayable, Heard, HeardSpoiled};

/// Where the bytes at a side and those that come to it are the texts of messages, whole, the words
/// of a piece that arrives are the oldest of these messages; and where the side has a connection
/// behind them, the other messages flow on.
pub fn the_words_of_a_piece_are_the_oldest_messages()
    ensures { (old piece coming new : List ℕ) (still : Bool) (words : List Word)
        (messages : List Whole) → AreSayable messages
        → Flows old (piece ++ coming) (texts_of messages) → AreWords old piece new still words
        → Heard messages words new coming still }
{
    node_core::laws::one_meaning();
}

/// Where a NUL is in the next of the texts, the first word of a piece is a wrong one, or there is
/// none yet: so a side hears no message that was spoiled, and none behind it.
pub fn a_frame_with_a_nul_is_a_wrong_word()
    ensures { (old piece coming new : List ℕ) (still : Bool) (words : List Word)
        (messages : List Horizontal) → Spoiled old (piece ++ coming)
        → AreWords old piece new still words → HeardSpoiled messages words new coming still }
{
    hermes_horizontal::zero_is_refused();
    hermes_horizontal::refused_or_spelled();
}

/// The texts of fit messages are one frame each, and spell them alone: so what flows on a link
/// comes out as it was said.
pub fn fit_messages_are_sayable()
    ensures { (messages : List Whole) → AreFit messages → AreSayable messages }
{
    hermes_element::written_is_read();
    crate::frames::proper_text_is_one_frame();
}

/// A machine whose name is a text and whose lane has at most nine digits, and whose records are
/// fit, sends fit messages alone in a step, and its records stay fit: whatever befalls it, where
/// the words that it hears are fit, the ids and the barcode of a change by hand, and the record of a
/// board that comes from another lane.
pub fn a_machine_says_what_is_fit()
    ensures { (desk : Desk) (unread : List Sensed) (event : Event) (body : Body) → IsFitDesk desk
        → IsFitEvent event → IsFitBody body → Fits (machine_step desk unread event body) }
{}

/// The event that an input is, is fit where its words, its barcode and the record that comes with it
/// are, and the machine's number has 32 bits.
pub fn the_event_of_a_fit_input_is_fit()
    ensures { (maker : Maker) (input : Input) (words : List Word) → IsFitMaker maker
        → IsFitInput input → AreFitWords words → IsFitEvent (event_of maker input words)
        × IsFitMaker (maker_after input maker) }
{}

/// The words of a piece are fit, where the bytes are the texts of fit messages, whole.
pub fn the_words_of_fit_messages_are_fit()
    ensures { (old piece coming new : List ℕ) (still : Bool) (words : List Word)
        (messages : List Whole) → AreSayable messages → AreFit messages
        → Flows old (piece ++ coming) (texts_of messages) → AreWords old piece new still words
        → AreFitWords words }
{
    node_core::laws::one_meaning();
}

/// And where a NUL is in the next of the texts: the text of the refusal is one that may be told.
pub fn the_words_behind_a_nul_are_fit()
    ensures { (old piece coming new : List ℕ) (still : Bool) (words : List Word)
        → Spoiled old (piece ++ coming) → AreWords old piece new still words → AreFitWords words }
{
    hermes_horizontal::zero_is_refused();
    hermes_horizontal::refused_once();
    hermes_horizontal::refused_or_spelled();
}
