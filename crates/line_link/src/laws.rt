//! What holds of the bytes on their way, whatever is sent and arrives. Each law is a contract over
//! the definitions that the calls of `Link` meet.

ghost use Rattle.std.specs.Prelude.{◌≡◌, ℕ, true, List, ◌∷◌, ◌++◌, drop};
ghost use Rattle.line_link.specs.Flow.{Stream, coming, is_begun, with_arrival, with_nul, with_text};

/// Bytes arrive in the order in which they were sent: a text comes behind those that are on their
/// way, what arrives are the first of them, and a NUL byte that is put in comes next.
#[tactic(auto, using(crate::proofs::Coming::coming_of_text, crate::proofs::Coming::coming_of_arrival, crate::proofs::Coming::coming_of_nul))]
pub fn bytes_arrive_in_their_order()
    ensures sent { (text : List ℕ) (stream : Stream) → is_begun stream.texts stream.arrived ≡ true
        → coming (with_text text stream) ≡ coming stream ++ text }
    ensures arrived { (count : ℕ) (stream : Stream)
        → coming (with_arrival count stream) ≡ drop count (coming stream) }
    ensures spoiled { (stream : Stream) → is_begun stream.texts stream.arrived ≡ true
        → coming (with_nul stream) ≡ 0 ∷ coming stream }
{}
