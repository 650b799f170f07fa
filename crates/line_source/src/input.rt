//! Lines of a source, one by one, of which no more than a limit is held.
ghost use Rattle.std.specs.Prelude.{◌≡◌, ◌≢◌, ◌<◌, ◌≤◌, ◌++◌, ◌∷◌, [], ℕ, List, IsErrOf, IsTrue, length, IfOk, IfSome, IfNone, None, OnSome, OnOk, OnErr};
ghost use Rattle.sector_disk.specs.Cause.{HasCause};
ghost use Rattle.hfs_language.specs.Lines.{HasNoNewline};
ghost use Rattle.line_source.specs.Batch.{has_newline};
ghost use Rattle.line_source.specs.Cause.{IsCause};
ghost use Rattle.line_source.specs.Handed.{AreLines, Refills, bytes_of};
ghost use Rattle.line_source.specs.Input.{ahead, weight, IsLine, SameSource, TakesLines, TakesNoMore};
ghost use Rattle.line_source.specs.Next.{GivesNext};

use crate::line::Line;
use crate::source::LineSource;
use crate::taken::Taken;
use hx_bytes::{Bytes, Failed, OutOfMemory};
use std::alloc::{AllocFailed, Global};
use std::marker::Model;

/// Lines that a source handed over, and bytes that were taken from it, of which none was given yet.
#[derive(Drop)]
pub struct Input {
    ready: Vec<Line>,
    taken: Taken,
}

impl Model for Input {
    ghost use Rattle.std.specs.Prelude.{ℕ, List, ◌++◌};
    ghost use Rattle.line_source.specs.Handed.{AreLines, bytes_of};

    ghost Value = { List ℕ };

    ghost view = { λ input. bytes_of input.ready.items ++ input.taken };

    ghost invariant = { λ input. AreLines input.ready.items };
}

/// Why no line was read.
#[derive(Clone, Copy, Debug, PartialEq, Eq)]
pub enum InputFault {
    /// The source failed.
    Source,
    /// There was no memory for the line.
    Memory,
}

impl From<Failed> for InputFault {
    ghost use Rattle.std.specs.Prelude.{◌≡◌};
    ghost use Rattle.line_source.specs.declared.input.InputFault.TheVariants.{Source};

    ghost from_gives = { λ _ e. e ≡ Source };

    fn from(_: Failed) -> Self {
        InputFault::Source
    }
}

impl From<OutOfMemory> for InputFault {
    ghost use Rattle.std.specs.Prelude.{◌≡◌};
    ghost use Rattle.line_source.specs.declared.input.InputFault.TheVariants.{Memory};

    ghost from_gives = { λ _ e. e ≡ Memory };

    fn from(_: OutOfMemory) -> Self {
        InputFault::Memory
    }
}

impl From<AllocFailed<Line>> for InputFault {
    ghost use Rattle.std.specs.Prelude.{◌≡◌};
    ghost use Rattle.line_source.specs.declared.input.InputFault.TheVariants.{Memory};

    ghost from_gives = { λ _ e. e ≡ Memory };

    fn from(_: AllocFailed<Line>) -> Self {
        InputFault::Memory
    }
}

impl Input {
    /// Nothing was taken yet.
    pub fn new(alloc: Global) -> Result<Input, OutOfMemory>
        ensures { IfOk result (λ input. input ≡ []) }
    {
        Ok(Input {
            ready: Vec::new(alloc),
            taken: Taken::new(alloc)?,
        })
    }

    /// The next line of the source, without its newline, or none at its end. Of a line of more than `limit` bytes only the first `limit + 1`
    /// are held.
    pub fn next_line<S: LineSource>(
        &mut self,
        alloc: Global,
        source: &mut S,
        limit: usize,
    ) -> Result<Option<Line>, InputFault>
        ensures line { IfOk result (λ next. IfSome next (λ line. (text : List ℕ) × IsLine limit text line
            × (IsTrue (S.stream source.old).tells → TakesLines self.old (S.stream source.old) (text ∷ []) self.new (S.stream source.new)))) }
        ensures end { IsTrue (S.stream source.old).tells → IfOk result (λ next. IfNone next ((ahead self.old (S.stream source.old) ≡ []) × (ahead self.new (S.stream source.new) ≡ []))) }
        // Whatever it answers, the bytes that were taken stood first.
        ensures gone { IsTrue (S.stream source.old).tells → (gone : List ℕ) × (ahead self.old (S.stream source.old) ≡ gone ++ (S.stream source.new).left) }
        ensures no_more { IsTrue (S.stream source.old).tells → TakesNoMore self.old (S.stream source.old) (S.stream source.new) }
        // Where the source failed, what is gone ends no line.
        ensures begun { IsTrue (S.stream source.old).tells → IsErrOf result InputFault.Source → (begun : List ℕ) × HasNoNewline begun × (ahead self.old (S.stream source.old) ≡ begun ++ (S.stream source.new).left) }
        ensures had_none { IsTrue (S.stream source.old).tells → IsErrOf result InputFault.Source → HasNoNewline self.old }
        // Each line brings the end nearer.
        ensures nearer { IfOk result (λ next. OnSome next (weight self.new (S.stream source.new) < weight self.old (S.stream source.old))) }
        ensures no_heavier { OnOk result (weight self.new (S.stream source.new) ≤ weight self.old (S.stream source.old)) }
        ensures same { SameSource (S.stream source.old) (S.stream source.new) }
        ensures cause { IsCause InputFault.Source (S.stream source.old).faults (S.stream source.new).faults result }
    {
        next_of(alloc, &mut self.ready, &mut self.taken, source, limit)
    }

    /// Whether a whole line, with its newline, was taken already.
    pub fn has_line(&self) -> bool
        ensures { result ≡ has_newline self.now }
    {
        if self.ready.is_empty() {
            return self.taken.has_line();
        }
        true
    }
}

// The first of the lines that are ready, or that the source hands over, or else the next that is cut out of its bytes.
fn next_of<S: LineSource>(
    alloc: Global,
    ready: &mut Vec<Line>,
    taken: &mut Taken,
    source: &mut S,
    limit: usize,
) -> Result<Option<Line>, InputFault>
    requires { AreLines ready.old.items }
    ensures lines { AreLines ready.new.items }
    ensures next { GivesNext limit (bytes_of ready.old.items ++ taken.old) (S.stream source.old) result (bytes_of ready.new.items ++ taken.new) (S.stream source.new) }
{
    match refill(alloc, ready, taken, source) {
        Ok(()) => {}
        Err(Failed) => return Err(InputFault::Source),
    }
    match first_of(ready) {
        Some(line) => held_line(alloc, line, limit),
        None => as_line(taken.next_line(alloc, source, limit)),
    }
}

// What is held of a line.
fn held_line(alloc: Global, line: Line, limit: usize) -> Result<Option<Line>, InputFault>
    ensures held { IfOk result (λ next. IfSome next (IsLine limit line)) }
    ensures some { IfOk result (λ next. next ≢ None) }
    ensures memory { IsErrOf result InputFault.Source → ⊥ }
{
    match line.held(alloc, limit) {
        Ok(held) => Ok(Some(held)),
        Err(OutOfMemory) => Err(InputFault::Memory),
    }
}

// A text is a line.
fn as_line(next: Result<Option<Bytes>, InputFault>) -> Result<Option<Line>, InputFault>
    ensures { result ≡ next }
{
    match next {
        Ok(Some(text)) => Ok(Some(Line::from_text(text))),
        Ok(None) => Ok(None),
        Err(fault) => Err(fault),
    }
}

// Has lines handed over, where none is left and no byte that was taken.
fn refill<S: LineSource>(
    alloc: Global,
    ready: &mut Vec<Line>,
    taken: &Taken,
    source: &mut S,
) -> Result<(), Failed>
    requires { AreLines ready.old.items }
    ensures lines { AreLines ready.new.items }
    ensures refills { OnOk result (Refills (bytes_of ready.old.items ++ taken.now) (S.stream source.old) (bytes_of ready.new.items ++ taken.now) (S.stream source.new)) }
    ensures kept { OnErr result (((S.stream source.new).left ≡ (S.stream source.old).left) × (bytes_of ready.old.items ++ taken.now ≡ [])) }
    ensures same { SameSource (S.stream source.old) (S.stream source.new) }
    ensures cause { HasCause (S.stream source.old).faults (S.stream source.new).faults result }
{
    if !ready.is_empty() {
        return Ok(());
    }
    if !taken.is_empty() {
        return Ok(());
    }
    *ready = source.take_lines(alloc)?;
    Ok(())
}

// Takes the first of some lines.
fn first_of(ready: &mut Vec<Line>) -> Option<Line>
    ensures some { IfSome result (λ line. ready.old.items ≡ line ∷ ready.new.items) }
    ensures none { IfNone result ((ready.old.items ≡ []) × (ready.new.items ≡ [])) }
{
    if ready.is_empty() {
        return None;
    }
    Some(ready.remove(0))
}
