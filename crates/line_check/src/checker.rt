ghost use Rattle.std.specs.Prelude.{◌≡◌, ℕ, List, [], ◌∷◌, ◌++◌, None, Some, Err, OnOk, ◌+◌, ◌≤◌, length};
ghost use Rattle.line_check.specs.declared.why.CheckError.{CheckError as Failure};
ghost use Rattle.line_check.specs.Checking.{Ends, HasRead, answer_by, failure_of, lines_of};

use crate::known::Known;
use crate::why::{CheckError, Counts};
use std::alloc::Global;

/// Checks a merged log of the machines of a line, whose lines it is given one by one.
#[derive(Drop)]
pub struct Checker {
    known: Known,
    failed: Option<CheckError>,
}

impl Checker {
    /// A checker before its first line. It takes memory only as boards come.
    pub fn new(alloc: Global) -> Checker
        ensures reads { HasRead [] result }
        ensures ready { failure_of result ≡ None }
        ensures none { lines_of result ≡ 0 }
    {
        Checker {
            known: Known::new(alloc),
            failed: None,
        }
    }

    /// Takes the next line, given without its end.
    ///
    /// `No` at the first line for which a reason is certain, with that reason: at the line itself,
    /// or at the line before it where that was the last of a group behind which some id has marks
    /// and no standing. `Memory` where memory was wanting. After an error it answers that error
    /// again.
    pub fn line(&mut self, bytes: &[u8]) -> Result<(), CheckError>
        // whatever lines it has read, it has then read this one too
        ensures reads { (lines : List (List ℕ)) → HasRead lines self.old
            → HasRead (lines ++ bytes.now ∷ []) self.new }
        // it answers what it answers from then on
        ensures answer { result ≡ answer_by (failure_of self.new) }
        ensures again { (error : Failure) → failure_of self.old ≡ Some error → result ≡ Err error }
        // a line that is taken has its place and its length
        ensures counted { OnOk result (lines_of self.new ≡ lines_of self.old + 1) }
        ensures few { lines_of self.new ≤ 1000000 }
        ensures short { OnOk result (length bytes.now ≤ 4096) }
    {
        if let Some(error) = self.failed {
            return Err(error);
        }
        match self.known.take(bytes) {
            Ok(()) => Ok(()),
            Err(error) => {
                self.failed = Some(error);
                Err(error)
            }
        }
    }

    /// Ends the log: its counts where nothing is against it, else the first reason at the first
    /// line where one holds. `Memory` only where it was answered before.
    pub fn end(self) -> Result<Counts, CheckError>
        ensures ends { (lines : List (List ℕ)) → HasRead lines self → Ends lines result }
        ensures again { (error : Failure) → failure_of self ≡ Some error → result ≡ Err error }
        ensures memory { result ≡ Err CheckError.Memory
            → failure_of self ≡ Some CheckError.Memory }
    {
        match self.failed {
            Some(error) => Err(error),
            None => self.known.end(),
        }
    }
}
