ghost use Rattle.std.specs.Prelude.{◌≡◌, ◌≤◌, [], ◌∷◌, ◌++◌, IfErr, IfNone, IfSome, OnOk, false, is_some, vec_len};
ghost use Rattle.std.specs.Str.Lines.{strip_carriage_return};
ghost use Rattle.law_lanes.specs.Lanes.{lines_of, no_lanes, unvouched_of};
ghost use Rattle.line_commands.specs.Reader.{Place, Takes, Finishes, IsNumbered, progress_of};
ghost use Rattle.line_commands.specs.LineEnds.{HasNoEnd, IsFirstEnd, CutsLine};

use crate::script_run::{RunError, ScriptRun};
use std::alloc::Global;
use std::marker::Model;

/// The most bytes that may wait for their line's end: those of a line, and a carriage return.
const MOST_PENDING: usize = 4097;

/// Reads a script piece by piece, and does each line when its end is met. After `Memory` nothing
/// more can be done.
#[derive(Drop)]
pub struct ScriptReader {
    run: ScriptRun,
    pending: Vec<u8>,
}

impl Model for ScriptReader {
    ghost Value = { Place };

    ghost view = { λ reader. record { state = reader.run; pending = reader.pending.items } };

    ghost invariant = { λ reader. HasNoEnd reader.pending.items × (vec_len reader.pending ≤ 4097)
        × (reader.run.spent ≡ false → lines_of reader.run ≤ 1000000) };
}

impl ScriptReader {
    /// A reader before its script.
    pub fn new(alloc: Global) -> ScriptReader
        ensures { result ≡ record { state = no_lanes; pending = [] } }
    {
        ScriptReader {
            run: ScriptRun::new(alloc),
            pending: Vec::new(alloc),
        }
    }

    /// Takes the next piece of the script, and appends the report of the lines that end in it.
    pub fn take_piece(&mut self, piece: &[u8], to: &mut Vec<u8>) -> Result<(), RunError>
        requires unspent { self.old.state.spent ≡ false }
        ensures takes { Takes result self.old self.new piece.now to.old.items to.new.items }
        ensures unspent { OnOk result (self.new.state.spent ≡ false) }
        ensures numbered { IfErr result IsNumbered }
        ensures bounded { OnOk result (progress_of self.new ≤ 4099004097) }
        ensures waits { OnOk result (HasNoEnd self.new.pending) }
    {
        let mut rest = piece;
        while let Some((line, others)) = cut_line(rest) {
            if let Err(error) = self.end_line(line, to) {
                return Err(error);
            }
            rest = others;
        }
        self.keep(rest, to)
    }

    /// Takes the script's end: does its last line, if that lacks its end, and appends the
    /// report's last line.
    pub fn finish(&mut self, to: &mut Vec<u8>) -> Result<(), RunError>
        requires unspent { self.old.state.spent ≡ false }
        ensures finishes { Finishes result self.old self.new to.old.items to.new.items }
        ensures unspent { OnOk result (self.new.state.spent ≡ false) }
        ensures numbered { IfErr result IsNumbered }
    {
        if self.pending.is_empty() {
            return self.run.write_summary(to);
        }
        if let Err(error) = self.run.do_line(self.pending.as_slice(), to) {
            return Err(error);
        }
        self.run.write_summary(to)
    }

    /// Whether a line told what was not so.
    pub fn is_unvouched(&self) -> bool
        requires { self.now.state.spent ≡ false }
        ensures { result ≡ is_some (unvouched_of self.now.state) }
    {
        self.run.is_unvouched()
    }

    /// Takes the rest of a line and its end.
    fn end_line(&mut self, part: &[u8], to: &mut Vec<u8>) -> Result<(), RunError>
        requires rest { HasNoEnd part.now }
        requires unspent { self.old.state.spent ≡ false }
        ensures takes { Takes result self.old self.new (part.now ++ 10 ∷ []) to.old.items to.new.items }
        ensures unspent { OnOk result (self.new.state.spent ≡ false) }
        ensures numbered { IfErr result IsNumbered }
    {
        if self.pending.is_empty() {
            return self.run.do_line(without_return(part), to);
        }
        if part.len() > MOST_PENDING - self.pending.len() {
            return self.run.refuse_long(to);
        }
        if let Err(_) = self.pending.extend_from_slice(part) {
            return Err(RunError::Memory);
        }
        let done = self
            .run
            .do_line(without_return(self.pending.as_slice()), to);
        self.pending.clear();
        done
    }

    /// Keeps the front of a line that has not ended.
    fn keep(&mut self, part: &[u8], to: &mut Vec<u8>) -> Result<(), RunError>
        requires rest { HasNoEnd part.now }
        requires unspent { self.old.state.spent ≡ false }
        ensures takes { Takes result self.old self.new part.now to.old.items to.new.items }
        ensures unspent { OnOk result (self.new.state.spent ≡ false) }
        ensures numbered { IfErr result IsNumbered }
        ensures bounded { OnOk result (progress_of self.new ≤ 4099004097) }
        ensures waits { OnOk result (HasNoEnd self.new.pending) }
    {
        if part.len() > MOST_PENDING - self.pending.len() {
            return self.run.refuse_long(to);
        }
        if let Err(_) = self.pending.extend_from_slice(part) {
            return Err(RunError::Memory);
        }
        Ok(())
    }
}

/// A line without its end, and what follows the end.
fn cut_line(bytes: &[u8]) -> Option<(&[u8], &[u8])>
    ensures cut { IfSome result (λ parts. CutsLine bytes.now parts.0.now parts.1.now) }
    ensures none { IfNone result (HasNoEnd bytes.now) }
{
    match end_of(bytes) {
        Some(place) => Some((&bytes[..place], &bytes[place + 1..])),
        None => None,
    }
}

/// Where the first line end stands.
fn end_of(bytes: &[u8]) -> Option<usize>
    ensures found { IfSome result (IsFirstEnd bytes.now) }
    ensures none { IfNone result (HasNoEnd bytes.now) }
{
    for (place, byte) in bytes.iter().enumerate() {
        if *byte == b'\n' {
            return Some(place);
        }
    }
    None
}

/// A line without the carriage return before its end.
fn without_return(line: &[u8]) -> &[u8]
    ensures { result.now ≡ strip_carriage_return line.now }
{
    match line {
        [front @ .., b'\r'] => front,
        _ => line,
    }
}
