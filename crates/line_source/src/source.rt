//! A source of bytes that may have some of them as lines.
ghost use Rattle.std.specs.Prelude.{◌≡◌, ◌≤◌, IfOk, OnErr};
ghost use Rattle.sector_disk.specs.Cause.{HasCause};
ghost use Rattle.line_source.specs.Handed.{HandsOver};

use crate::line::Line;
use hx_bytes::Failed;
use sector_disk::Source;
use std::alloc::Global;

/// A source that may hand over whole lines, of which no byte has to be looked at. It is asked for lines where none of its bytes is left that was taken
/// before, and where it has none it is asked for bytes.
pub trait LineSource: Source {
    /// Hands over the next lines that it has as lines, at most 4,194,304 bytes of them with their newlines, or none. It counts as a take. Where it
    /// fails, which its count of faults tells, no byte is lost.
    fn take_lines(&mut self, alloc: Global) -> Result<Vec<Line>, Failed>
        ensures lines { IfOk result (λ lines. HandsOver (Self.stream self.old) lines.items (Self.stream self.new)) }
        ensures kept { OnErr result ((Self.stream self.new).left ≡ (Self.stream self.old).left) }
        ensures names { (Self.stream self.new).names ≡ (Self.stream self.old).names }
        ensures tells { (Self.stream self.new).tells ≡ (Self.stream self.old).tells }
        ensures no_more { (Self.stream self.new).takes ≤ (Self.stream self.old).takes }
        ensures cause { HasCause (Self.stream self.old).faults (Self.stream self.new).faults result };
}
