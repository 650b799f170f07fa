//! Lines in memory: those that are there without waiting come behind the others, and those that were served leave from the front.
ghost use Rattle.std.specs.Prelude.{◌≡◌, ◌⊎◌, ◌≤◌, ◌<◌, ◌+◌, ◌++◌, [], ℕ, List, IsErrOf, IsTrue, IfOk, OnOk, OnErr, true, false, drop, length};
ghost use Rattle.hfs_language.specs.Lines.{HasNoNewline};
ghost use Rattle.line_source.specs.Batch.{AddsLines, has_newline};
ghost use Rattle.line_source.specs.Cause.{IsCause};
ghost use Rattle.line_source.specs.Input.{ahead, SameSource};

use crate::input::{Input, InputFault};
use crate::line::Line;
use crate::source::LineSource;
use std::alloc::Global;

impl Input {
    /// Adds lines to those in memory, up to `most` in all, as long as a whole line was taken already. Where none is in memory it waits for the
    /// first. Where none is in memory behind it the source is at its end.
    pub fn read_lines<S: LineSource>(
        &mut self,
        alloc: Global,
        source: &mut S,
        limit: usize,
        most: usize,
        lines: &mut Vec<Line>,
    ) -> Result<(), InputFault>
        requires { 0 < most }
        ensures lines { OnOk result (AddsLines limit lines.old.items self.old (S.stream source.old) lines.new.items self.new (S.stream source.new)) }
        ensures most { length lines.old.items ≤ most → OnOk result (length lines.new.items ≤ most) }
        // It stops where there are so many, or no whole line was taken.
        ensures stops { IsTrue (S.stream source.old).tells → OnOk result ((most ≤ length lines.new.items) ⊎ (has_newline self.new ≡ false)) }
        ensures end { IsTrue (S.stream source.old).tells → OnOk result (lines.new.items ≡ [] → (ahead self.old (S.stream source.old) ≡ []) × (ahead self.new (S.stream source.new) ≡ [])) }
        // The source is asked only where no line is in memory, nor was a whole one taken.
        ensures needed { IsTrue (S.stream source.old).tells → (S.stream source.new ≡ S.stream source.old) ⊎ ((lines.old.items ≡ []) × HasNoNewline self.old) }
        // Whatever it answers, the bytes that were taken stood first.
        ensures gone { IsTrue (S.stream source.old).tells → (gone : List ℕ) × (ahead self.old (S.stream source.old) ≡ gone ++ (S.stream source.new).left) }
        // Where the source failed, what is gone ends no line.
        ensures begun { IsTrue (S.stream source.old).tells → IsErrOf result InputFault.Source → (begun : List ℕ) × HasNoNewline begun × (ahead self.old (S.stream source.old) ≡ begun ++ (S.stream source.new).left) }
        ensures same { SameSource (S.stream source.old) (S.stream source.new) }
        ensures cause { IsCause InputFault.Source (S.stream source.old).faults (S.stream source.new).faults result }
    {
        if !lines.is_empty() {
            return self.read_ready(alloc, source, limit, most, lines);
        }
        let added = self.read_line(alloc, source, limit, lines)?;
        if !added {
            return Ok(());
        }
        self.read_ready(alloc, source, limit, most, lines)
    }

    // Adds lines as long as a whole line was taken, up to so many in all.
    fn read_ready<S: LineSource>(
        &mut self,
        alloc: Global,
        source: &mut S,
        limit: usize,
        most: usize,
        lines: &mut Vec<Line>,
    ) -> Result<(), InputFault>
        ensures lines { OnOk result (AddsLines limit lines.old.items self.old (S.stream source.old) lines.new.items self.new (S.stream source.new)) }
        ensures most { length lines.old.items ≤ most → OnOk result (length lines.new.items ≤ most) }
        ensures stops { IsTrue (S.stream source.old).tells → OnOk result ((most ≤ length lines.new.items) ⊎ (has_newline self.new ≡ false)) }
        ensures still { IsTrue (S.stream source.old).tells → S.stream source.new ≡ S.stream source.old }
        ensures gone { IsTrue (S.stream source.old).tells → (gone : List ℕ) × (ahead self.old (S.stream source.old) ≡ gone ++ (S.stream source.new).left) }
        ensures whole { IsTrue (S.stream source.old).tells → IsErrOf result InputFault.Source → ⊥ }
        ensures same { SameSource (S.stream source.old) (S.stream source.new) }
        ensures cause { IsCause InputFault.Source (S.stream source.old).faults (S.stream source.new).faults result }
    {
        while lines.len() < most {
            let ready = self.has_line();
            if !ready {
                return Ok(());
            }
            let added = self.read_line(alloc, source, limit, lines)?;
            if !added {
                return Ok(());
            }
        }
        Ok(())
    }

    // Adds the next line, if there is one.
    fn read_line<S: LineSource>(
        &mut self,
        alloc: Global,
        source: &mut S,
        limit: usize,
        lines: &mut Vec<Line>,
    ) -> Result<bool, InputFault>
        ensures lines { OnOk result (AddsLines limit lines.old.items self.old (S.stream source.old) lines.new.items self.new (S.stream source.new)) }
        ensures one { IfOk result (λ added. IsTrue added → length lines.new.items ≡ length lines.old.items + 1) }
        ensures none { IfOk result (λ added. added ≡ false → length lines.new.items ≡ length lines.old.items) }
        ensures end { IsTrue (S.stream source.old).tells → IfOk result (λ added. added ≡ false → (ahead self.old (S.stream source.old) ≡ []) × (ahead self.new (S.stream source.new) ≡ [])) }
        ensures needed { IsTrue (S.stream source.old).tells → (S.stream source.new ≡ S.stream source.old) ⊎ HasNoNewline self.old }
        ensures gone { IsTrue (S.stream source.old).tells → (gone : List ℕ) × (ahead self.old (S.stream source.old) ≡ gone ++ (S.stream source.new).left) }
        ensures begun { IsTrue (S.stream source.old).tells → IsErrOf result InputFault.Source → (begun : List ℕ) × HasNoNewline begun × (ahead self.old (S.stream source.old) ≡ begun ++ (S.stream source.new).left) }
        ensures had_none { IsTrue (S.stream source.old).tells → IsErrOf result InputFault.Source → HasNoNewline self.old }
        ensures same { SameSource (S.stream source.old) (S.stream source.new) }
        ensures cause { IsCause InputFault.Source (S.stream source.old).faults (S.stream source.new).faults result }
    {
        match self.next_line(alloc, source, limit)? {
            Some(line) => {
                lines.push(line)?;
                Ok(true)
            }
            None => Ok(false),
        }
    }
}

/// Takes the first lines away.
pub fn drop_first(lines: &mut Vec<Line>, count: usize)
    requires { count ≤ length lines.old.items }
    ensures { lines.new.items ≡ drop count lines.old.items }
{
    for at in 0..count {
        lines.remove(0);
    }
}
