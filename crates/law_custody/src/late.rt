//! What keeps the relation of a link where a machine takes an input before it has read all that its
//! sensors saw, as a machine that runs by itself does: nothing causes a close, so no sensor is told
//! of quickly enough to come before it. Each board is let go behind the reading.

ghost use Rattle.std.specs.Prelude.{◌≡◌, ◌∷◌, [], Bool, List, None, Ok, Option, Some, true, false, ℕ};
ghost use Rattle.line_base.specs.declared.states.Quality.{Quality as Grade};
ghost use Rattle.line_base.specs.declared.states.SensorEvent.TheVariants as event;
ghost use Rattle.line_base.specs.declared.states.Side.TheVariants.{Entry, Exit};
ghost use Rattle.line_base.specs.declared.states.Transfer.{Transfer as End};
ghost use Rattle.board_record.specs.declared.record.Record.{Record as Board};
ghost use Rattle.hermes_horizontal.specs.declared.message.Horizontal.{Horizontal as Message};
ghost use Rattle.hermes_horizontal.specs.declared.message.Horizontal.TheVariants as message;
ghost use Rattle.hermes_horizontal.specs.declared.message.Service.{Service as Description};
ghost use Rattle.session_core.specs.declared.state.SessionState.TheVariants.{Handshake, Standing};
ghost use Rattle.line_world.specs.Moves.{Around, around_move};
ghost use Rattle.line_world.specs.declared.moves.Move.{Move};
ghost use Rattle.line_world.specs.declared.moves.Move.TheVariants as moves;
ghost use Rattle.handover_out.specs.State.{board_of_phase as held_out};
ghost use Rattle.handover_out.specs.declared.input.OutInput.TheVariants as out_input;
ghost use Rattle.handover_out.specs.declared.phase.Phase.TheVariants as out;
ghost use Rattle.handover_in.specs.declared.input.InInput.TheVariants as in_input;
ghost use Rattle.law_custody.specs.Place.{InGap, MovesPlace, Place};
ghost use Rattle.law_custody.specs.Facts.{Has, HasDown, HasUp};
ghost use Rattle.law_custody.specs.Words.{DownWord, StartTransport, down_words, events_at, sent, up_words};
ghost use Rattle.law_custody.specs.Pair.{Ghost, LinkState, Pair};
ghost use Rattle.law_custody.specs.Events.{EntryShut, EntryStep, ExitShut, ExitStep, gone_by};
ghost use Rattle.law_custody.specs.Unread.{IsAwaited, IsBehind, IsEndRead};

/// The connection of an end is closed while events of its side are unread, whichever they are. An
/// outlet whose board has left, and whose exit has not read so, is stuck until it does.
pub fn an_end_is_closed_unread()
    ensures entry { (gone : ℕ → Bool) (kept : List Board) (g : Ghost) (l : LinkState) → Pair g l
        → IsBehind g l → EntryShut (gone_by gone) kept g l }
    ensures exit { (gone : ℕ → Bool) (g : Ghost) (l : LinkState) → Pair g l → IsBehind g l
        → ExitShut (gone_by gone) g l }
{}

/// The drive of an exit fails, and that of an entry, while events of that side are unread.
pub fn a_drive_fails_unread()
    ensures exit { (gone : ℕ → Bool) (g : Ghost) (l : LinkState) → Pair g l → IsBehind g l
        → ExitStep (gone_by gone) g l out_input.Fault l.around.up.unread l.up }
    ensures entry { (gone : ℕ → Bool) (kept : List Board) (g : Ghost) (l : LinkState) → Pair g l
        → IsBehind g l
        → EntryStep (gone_by gone) kept g l in_input.Fault l.around.down.unread l.down }
{}

/// An exit hears while events of its sensor are unread: what announces the downstream machine
/// ready or not, the stop of a transport, and the description of the downstream machine.
pub fn an_exit_hears_unread()
    ensures ready { (gone : ℕ → Bool) (g : Ghost) (l : LinkState) (quality : Grade)
        (rest : List Message) → Pair g (record l { up = message.MachineReady quality ∷ rest })
        → (l.exit ≡ Standing)
        × ExitStep (gone_by gone) g (record l { up = message.MachineReady quality ∷ rest })
        out_input.MachineReady l.around.up.unread rest }
    ensures revoked { (gone : ℕ → Bool) (g : Ghost) (l : LinkState) (rest : List Message)
        → Pair g (record l { up = message.RevokeMachineReady ∷ rest }) → (l.exit ≡ Standing)
        × ExitStep (gone_by gone) g (record l { up = message.RevokeMachineReady ∷ rest })
        out_input.RevokeMachineReady l.around.up.unread rest }
    ensures stop { (gone : ℕ → Bool) (g : Ghost) (l : LinkState) (s : End) (z : ℕ)
        (rest : List Message) → Pair g (record l { up = message.StopTransport s z ∷ rest })
        → IsBehind g l → (l.exit ≡ Standing)
        × ExitStep (gone_by gone) g (record l { up = message.StopTransport s z ∷ rest })
        (out_input.Stop s z) l.around.up.unread rest }
    ensures answered { (g : Ghost) (l : LinkState) (service answer : Description)
        (rest : List Message) → Pair g (record l { up = message.ServiceDescription service ∷ rest })
        → l.exit ≡ Handshake → held_out l.outlet.phase ≡ None
        → Pair g (record l {
          exit = Standing;
          up = rest;
          down = sent (message.ServiceDescription answer ∷ []) l.stands l.down;
        }) }
{}

/// An entry hears while events of its sensor are unread: an offer and its revocation, and the end
/// of a transfer, before which all is read but where it is complete.
pub fn an_entry_hears_unread()
    ensures available { (gone : ℕ → Bool) (kept : List Board) (g : Ghost) (l : LinkState)
        (q : Board) (rest : List Message)
        → Pair g (record l { down = message.BoardAvailable q ∷ rest }) → (l.entry ≡ Standing)
        × EntryStep (gone_by gone) kept g (record l { down = message.BoardAvailable q ∷ rest })
        (in_input.BoardAvailable q) l.around.down.unread rest }
    ensures revoked { (gone : ℕ → Bool) (kept : List Board) (g : Ghost) (l : LinkState)
        (rest : List Message) → Pair g (record l { down = message.RevokeBoardAvailable ∷ rest })
        → (l.entry ≡ Standing)
        × EntryStep (gone_by gone) kept g (record l { down = message.RevokeBoardAvailable ∷ rest })
        in_input.RevokeBoardAvailable l.around.down.unread rest }
    ensures finished { (gone : ℕ → Bool) (kept : List Board) (g : Ghost) (l : LinkState) (s : End)
        (z : ℕ) (rest : List Message)
        → Pair g (record l { down = message.TransportFinished s z ∷ rest }) → IsBehind g l
        → IsEndRead s (events_at Entry l.around.down.unread) → (l.entry ≡ Standing)
        × EntryStep (gone_by gone) kept g (record l { down = message.TransportFinished s z ∷ rest })
        (in_input.Finished s z) l.around.down.unread rest }
{}

/// A board moves at the gap of a link, let go behind the reading: it leaves the exit only where the
/// entry has read that it begins. What is unread then is behind the reading. Where a board begins,
/// its exit reads so at once.
pub fn a_board_is_let_go_behind_the_reading()
    ensures moved { (step : Move) (g : Ghost) (l : LinkState) (place : Place) (c : Around)
        → around_move step l.around ≡ Ok c → MovesPlace step g.place place
        → (step ≡ moves.Begin → ⊥)
        → (step ≡ moves.Left → Has event.Begun (events_at Entry l.around.down.unread) → ⊥)
        → IsBehind g l
        → IsBehind (record { place = place; board = g.board }) (record l { around = c }) }
    ensures begun { (g : Ghost) (l : LinkState) → g.place ≡ InGap
        → (Has event.Begun (events_at Exit l.around.up.unread) → ⊥) → IsBehind g l }
{}

/// While a word is on its way that tells where the board is, no board moves at the gap: the upstream
/// machine's description, the end of a transfer that isn't complete, and a start. So what was unread
/// as it was said is all that may be unread as it is heard.
pub fn no_board_moves_before_what_is_told()
    ensures down { (step : Move) (g : Ghost) (l : LinkState) (c : Around) (w : DownWord)
        → Pair g l → IsAwaited w → HasDown w (down_words l.down) → around_move step l.around ≡ Ok c
        → ⊥ }
    ensures up { (step : Move) (g : Ghost) (l : LinkState) (c : Around) (z : ℕ) → Pair g l
        → HasUp (StartTransport z) (up_words l.up) → around_move step l.around ≡ Ok c → ⊥ }
{}
