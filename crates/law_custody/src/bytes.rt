//! What the bytes of a link come to. Without a NUL put in, each frame is the text of the next
//! message that was not heard. With one, the next frame has it in it, and is refused: so no
//! machine blames its neighbour for what that neighbour said.

ghost use Rattle.std.specs.Prelude.{◌≡◌, ◌∷◌, ◌++◌, [], List, ℕ};
ghost use Rattle.hermes_stream.specs.Frames.{IsOneFrame, NeedMore, answer_of, left_of};
ghost use Rattle.hermes_stream.specs.Cutter.{GivesFrame, StaysTooLong, WantsMore};
ghost use Rattle.hermes_horizontal.specs.Canonical.{canonical};
ghost use Rattle.hermes_horizontal.specs.declared.message.Message.{Message};
ghost use Rattle.law_custody.specs.Bytes.{Flows, HasNul, IsRefusedFrame, Next, NextMessage, Spoiled, texts_of};

/// The texts that were sent on a link come out of its receiver's cutter whole and in order: a
/// frame that is cut is the first of those in flight, nothing is ever too long, and it doesn't
/// matter in which pieces the bytes arrive.
#[tactic(auto, using(crate::proofs::Texts::nothing_flows, crate::proofs::Texts::sends_one_frame, crate::proofs::Texts::arrives, crate::proofs::Texts::cuts_the_first, crate::proofs::Texts::wants_the_same, crate::proofs::Texts::never_too_long))]
pub fn texts_come_whole()
    ensures nothing { Flows [] [] [] }
    ensures sent { (waiting coming text : List ℕ) (texts : List (List ℕ)) → IsOneFrame text
        → Flows waiting coming texts → Flows waiting (coming ++ text) (texts ++ (text ∷ [])) }
    ensures arrived { (waiting piece coming : List ℕ) (texts : List (List ℕ))
        → Flows waiting (piece ++ coming) texts → Flows (waiting ++ piece) coming texts }
    ensures cut { (waiting coming frame : List ℕ) (texts : List (List ℕ))
        → GivesFrame waiting frame → Flows waiting coming texts → Next waiting coming texts frame }
    ensures more { (waiting coming : List ℕ) (texts : List (List ℕ)) → WantsMore waiting
        → Flows waiting coming texts → Flows (left_of waiting) coming texts }
    ensures short { (waiting coming : List ℕ) (texts : List (List ℕ)) → StaysTooLong waiting
        → Flows waiting coming texts → ⊥ }
{}

/// A NUL that is put before the next byte to arrive is in the next frame, whatever arrives and is
/// sent since. The message that it is in stays unheard.
#[tactic(auto, using(crate::proofs::Spoils::puts_a_nul, crate::proofs::Spoils::nul_arrives, crate::proofs::Spoils::nul_waits, crate::proofs::Spoils::nul_stays))]
pub fn a_nul_is_in_the_next_frame()
    ensures put { (waiting coming : List ℕ) → answer_of waiting ≡ NeedMore
        → Spoiled waiting (0 ∷ coming) }
    ensures arrived { (waiting piece coming : List ℕ) → Spoiled waiting (piece ++ coming)
        → Spoiled (waiting ++ piece) coming }
    ensures more { (waiting coming : List ℕ) → WantsMore waiting → Spoiled waiting coming
        → Spoiled (left_of waiting) coming }
    ensures sent { (waiting coming text : List ℕ) → Spoiled waiting coming
        → Spoiled waiting (coming ++ text) }
    ensures cut { (waiting coming frame : List ℕ) → GivesFrame waiting frame
        → Spoiled waiting coming → HasNul frame }
{}

/// The messages that were sent and not heard come out of the cutter in their order: a frame that
/// is cut is the text of the first of them. What is sent comes behind, if its text is one message
/// of a stream, as that of every message that a machine sends is.
#[tactic(auto, using(crate::proofs::Messages::sends_a_message, crate::proofs::Messages::cuts_the_first_message))]
pub fn each_frame_is_the_next_message()
    ensures sent { (waiting coming : List ℕ) (messages : List Message) (message : Message)
        → IsOneFrame (canonical message) → Flows waiting coming (texts_of messages)
        → Flows waiting (coming ++ canonical message) (texts_of (messages ++ (message ∷ []))) }
    ensures cut { (waiting coming frame : List ℕ) (messages : List Message)
        → GivesFrame waiting frame → Flows waiting coming (texts_of messages)
        → NextMessage waiting coming messages frame }
{}

/// The next frame of a side that met a NUL is refused. So a message is refused only where a NUL
/// was put in.
pub fn a_frame_with_a_nul_is_refused()
    ensures { (waiting coming frame : List ℕ) → GivesFrame waiting frame → Spoiled waiting coming
        → IsRefusedFrame frame }
{
    a_nul_is_in_the_next_frame();
    hermes_horizontal::zero_is_refused();
}
