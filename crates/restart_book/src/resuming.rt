ghost use Rattle.std.specs.Prelude.{◌≡◌, ◌<◌, ◌≤◌, ◌^◌, ℕ, List, IfOk, false};
ghost use Rattle.node_core.specs.Node.{NodeState, new_node};
ghost use Rattle.node_core.specs.declared.act.Act.{Act};
ghost use Rattle.restart_book.specs.Exactly.{AnswersBad, AnswersWhole};
ghost use Rattle.restart_book.specs.Replay.{IsBadAt, IsResumed, Resumes};
ghost use Rattle.restart_book.specs.declared.resuming.BookWhy.{BookWhy};

use crate::laws::a_book_has_one_answer;
use crate::replay::replay;
use machine_log::Drives;
use node_core::{Node, NodeProfile};
use std::alloc::Global;

/// A machine that has begun again, with its drives as its acts left them, and how many bytes of its
/// book are whole entries.
#[derive(Drop)]
pub struct Resumed {
    pub node: Node,
    pub drives: Drives,
    pub whole: u64,
}

/// Why a book isn't resumed at one of its entries.
#[derive(Clone, Copy, Debug, PartialEq, Eq)]
pub enum BookWhy {
    /// What stands there is neither an entry nor the front of one.
    Spelling,
    /// There is a reason against that input then.
    NotPossible,
}

/// Why a machine doesn't begin again.
#[derive(Clone, Copy, Debug, PartialEq, Eq)]
pub enum ResumeError {
    /// The entry that begins at this byte of the book can't be done.
    Bad { at: u64, why: BookWhy },
    /// Memory was wanting.
    Memory,
}

/// The machine of a profile, stepped with each whole entry of its book in order. A last entry that
/// is torn is left out.
///
/// `Bad` exactly where, behind so many bytes of whole entries that the machine does, what follows
/// is neither an entry nor the front of one, or is an entry that the machine may not be given
/// then. `Memory` where it was wanting.
pub fn resume(alloc: Global, profile: NodeProfile, book: &[u8]) -> Result<Resumed, ResumeError>
    requires least { 1 ≤ profile.capacity }
    requires most { profile.capacity ≤ 1024 }
    requires used { profile.used < 2 ^ 48 }
    // each answer has its cause
    ensures answer { Resumes profile book.now result }
    // and each cause its answer
    ensures whole { (whole : ℕ) (node : NodeState) (acts : List Act)
        → IsResumed (new_node profile) book.now whole node acts
        → AnswersWhole result whole node acts }
    ensures bad { (at : ℕ) (why : BookWhy)
        → IsBadAt (new_node profile) book.now at why → AnswersBad result at why }
    ensures awake { IfOk result (λ resumed. resumed.node.spent ≡ false) }
{
    a_book_has_one_answer();
    resume_once(alloc, profile, book)
}

fn resume_once(alloc: Global, profile: NodeProfile, book: &[u8]) -> Result<Resumed, ResumeError>
    requires least { 1 ≤ profile.capacity }
    requires most { profile.capacity ≤ 1024 }
    requires used { profile.used < 2 ^ 48 }
    ensures answer { Resumes profile book.now result }
    ensures awake { IfOk result (λ resumed. resumed.node.spent ≡ false) }
{
    let Ok(mut node) = Node::new(alloc, profile) else {
        return Err(ResumeError::Memory);
    };
    let mut drives = Drives::off();
    match replay(alloc, &mut node, &mut drives, book) {
        Ok(whole) => Ok(Resumed {
            node,
            drives,
            whole,
        }),
        Err(error) => {
            drop(node);
            Err(error)
        }
    }
}
