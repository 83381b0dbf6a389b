//! Laws over the definitions.

ghost use Rattle.std.specs.Prelude.{◌≡◌, ◌∷◌, ◌++◌, ℕ, List, None, true, codes};
ghost use Rattle.line_base.specs.declared.states.Side.{Side};
ghost use Rattle.board_record.specs.declared.sensed.Sensed.{Sensed};
ghost use Rattle.hermes_stream.specs.Frames.{frames_of};
ghost use Rattle.hermes_horizontal.specs.Spelling.{IsRefused};
ghost use Rattle.hermes_horizontal.specs.Texts.{message_refusal_text};
ghost use Rattle.hermes_horizontal.specs.declared.fault.Fault.{Fault};
ghost use Rattle.node_core.specs.declared.lane.Body.{Body};
ghost use Rattle.node_core.specs.declared.word.Word.{Word};
ghost use Rattle.node_core.specs.declared.word.Word.TheVariants.{Wrong};
ghost use Rattle.node_core.specs.Desk.{Desk};
ghost use Rattle.node_core.specs.Sides.{is_open};
ghost use Rattle.node_core.specs.Words.{AreMeant, Means, too_long};
ghost use Rattle.node_core.specs.Breaking.{IsBreach, heard_before};

/// A frame means one thing at most: a message, or a refusal with its text. So the words that a
/// step brings are one list as far as its side stays open.
pub fn one_meaning()
    ensures { (frame : List ℕ) (a b : Word) → Means frame a → Means frame b → a ≡ b }
{
    hermes_horizontal::spelled_once();
    hermes_horizontal::refused_once();
}

/// A frame that is refused is a breach with the text of its refusal, behind what the frames before
/// it mean, where the side still has its connection then; and so are too many bytes without an
/// end.
pub fn wrong_bytes_are_a_breach()
    ensures refused { (desk : Desk) (unread : List Sensed) (side : Side) (bytes : List ℕ)
        (before : Body) (frames others : List (List ℕ)) (front : List Word) (frame : List ℕ)
        (at : ℕ) (why : Fault) → AreMeant frames front
        → (frames_of bytes).messages ≡ frames ++ frame ∷ others → IsRefused frame at why
        → is_open side (heard_before desk unread side front before) ≡ true
        → IsBreach desk unread side bytes before front (Wrong (message_refusal_text why at))
        (message_refusal_text why at) }
    ensures endless { (desk : Desk) (unread : List Sensed) (side : Side) (bytes : List ℕ)
        (before : Body) (front : List Word) → AreMeant (frames_of bytes).messages front
        → (frames_of bytes).rest ≡ None
        → is_open side (heard_before desk unread side front before) ≡ true
        → IsBreach desk unread side bytes before front too_long (codes "message too long") }
{
    hermes_horizontal::refused_or_spelled();
}
