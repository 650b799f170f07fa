//! Bytes that were taken from a source, and the lines that are cut out of them.
ghost use Rattle.std.specs.Prelude.{◌≡◌, ◌≢◌, ◌<◌, ◌≤◌, ◌++◌, ◌∷◌, ◌+◌, ◌-◌, ◌↔◌, [], ℕ, List, IsErrOf, IsTrue, length, MatchOption, IfOk, IfSome, IfNone, OnSome, OnOk, OnErr, false, take};
ghost use Rattle.sector_disk.specs.Cause.{HasCause};
ghost use Rattle.hfs_language.specs.Lines.{HasNoNewline};
ghost use Rattle.line_source.specs.Cause.{IsCause};
ghost use Rattle.line_source.specs.Batch.{has_newline};
ghost use Rattle.line_source.specs.Cutting.{Cuts};
ghost use Rattle.line_source.specs.Input.{ahead, weight, IsLine, SameSource, TakesLines, TakesNoMore, most_taken};

use crate::input::InputFault;
use hx_bytes::{Bytes, Failed, OutOfMemory};
use memchr::memchr;
use sector_disk::Source;
use std::alloc::Global;
use std::marker::Model;

/// How many bytes are taken of a source at a time, at most.
const BUFFER: usize = 4_194_304;

/// How many are taken the first time, at most. Where so many came, eight times as many are taken the next time.
const FIRST: usize = 65_536;

/// Bytes that were taken from a source and belong to no line yet.
#[derive(Drop)]
pub(crate) struct Taken {
    buffer: Vec<u8>,
    start: usize,
    end: usize,
}

impl Model for Taken {
    ghost use Rattle.std.specs.Prelude.{ℕ, List, ◌≤◌, ◌<◌, ◌-◌, length, take, drop};
    ghost use Rattle.line_source.specs.Input.{most_taken};

    ghost Value = { List ℕ };

    ghost view = { λ taken. take (taken.end - taken.start) (drop taken.start taken.buffer.items) };

    ghost invariant = { λ taken. (taken.start ≤ taken.end) × (taken.end ≤ length taken.buffer.items) × (0 < length taken.buffer.items) × (length taken.buffer.items ≤ most_taken) };
}

impl Taken {
    /// Nothing was taken yet.
    pub(crate) fn new(alloc: Global) -> Result<Taken, OutOfMemory>
        ensures { IfOk result (λ taken. taken ≡ []) }
    {
        Ok(Taken {
            buffer: vec![in alloc; 0; FIRST]?,
            start: 0,
            end: 0,
        })
    }

    /// The text of the next line of the source, without its newline, or none at its end. Of a line of more than `limit` bytes only the first `limit + 1`
    /// are held.
    pub(crate) fn next_line<S: Source>(
        &mut self,
        alloc: Global,
        source: &mut S,
        limit: usize,
    ) -> Result<Option<Bytes>, InputFault>
        ensures line { IfOk result (λ next. IfSome next (λ line. (text : List ℕ) × IsLine limit text line
            × (IsTrue (S.stream source.old).tells → TakesLines self.old (S.stream source.old) (text ∷ []) self.new (S.stream source.new)))) }
        ensures end { IsTrue (S.stream source.old).tells → IfOk result (λ next. IfNone next ((ahead self.old (S.stream source.old) ≡ []) × (ahead self.new (S.stream source.new) ≡ []))) }
        // Whatever it answers, the bytes that were taken stood first.
        ensures gone { IsTrue (S.stream source.old).tells → (gone : List ℕ) × (ahead self.old (S.stream source.old) ≡ gone ++ (S.stream source.new).left) }
        ensures no_more { IsTrue (S.stream source.old).tells → TakesNoMore self.old (S.stream source.old) (S.stream source.new) }
        // Where the source failed, what is gone ends no line.
        ensures begun { IsTrue (S.stream source.old).tells → IsErrOf result InputFault.Source → (begun : List ℕ) × HasNoNewline begun × (ahead self.old (S.stream source.old) ≡ begun ++ (S.stream source.new).left) }
        ensures had_none { IsTrue (S.stream source.old).tells → IsErrOf result InputFault.Source → HasNoNewline self.old }
        // Each line brings the end nearer.
        ensures nearer { IfOk result (λ next. OnSome next (weight self.new (S.stream source.new) < weight self.old (S.stream source.old))) }
        ensures no_heavier { OnOk result (weight self.new (S.stream source.new) ≤ weight self.old (S.stream source.old)) }
        ensures same { SameSource (S.stream source.old) (S.stream source.new) }
        ensures cause { IsCause InputFault.Source (S.stream source.old).faults (S.stream source.new).faults result }
    {
        let mut line = Vec::new(alloc);
        loop {
            let some = self.has_more(source)?;
            if !some {
                let last = Bytes::from_vec(line);
                if last.is_empty() {
                    return Ok(None);
                }
                return Ok(Some(last));
            }
            let ended = self.cut(&mut line, limit)?;
            if ended {
                return Ok(Some(Bytes::from_vec(line)));
            }
        }
    }

    /// Whether a whole line, with its newline, was taken already.
    pub(crate) fn has_line(&self) -> bool
        ensures { result ≡ has_newline self.now }
    {
        has_newline(&self.buffer[self.start..self.end])
    }

    // Takes bytes of the source where none is left of those taken before, and answers whether there are some.
    fn has_more<S: Source>(&mut self, source: &mut S) -> Result<bool, Failed>
        ensures bytes { IsTrue (S.stream source.old).tells → OnOk result (ahead self.new (S.stream source.new) ≡ ahead self.old (S.stream source.old)) }
        ensures some { IfOk result (λ some. IsTrue some ↔ (self.new ≢ [])) }
        ensures end { IsTrue (S.stream source.old).tells → IfOk result (λ some. some ≡ false → (ahead self.old (S.stream source.old) ≡ []) × (ahead self.new (S.stream source.new) ≡ [])) }
        ensures kept { OnErr result (((S.stream source.new).left ≡ (S.stream source.old).left) × (self.old ≡ [])) }
        ensures still { self.old ≢ [] → (S.stream source.new ≡ S.stream source.old) × (self.new ≡ self.old) }
        ensures few { length self.new ≤ most_taken }
        ensures no_more { weight self.new (S.stream source.new) ≤ weight self.old (S.stream source.old) }
        ensures same { SameSource (S.stream source.old) (S.stream source.new) }
        ensures cause { HasCause (S.stream source.old).faults (S.stream source.new).faults result }
    {
        if self.is_empty() {
            self.fill(source)?;
            return Ok(!self.is_empty());
        }
        Ok(true)
    }

    pub(crate) fn is_empty(&self) -> bool
        ensures none { IsTrue result ↔ (self.now ≡ []) }
        ensures few { length self.now ≤ most_taken }
    {
        self.start == self.end
    }

    // Takes bytes of the source, where none are left of those taken before.
    fn fill<S: Source>(&mut self, source: &mut S) -> Result<(), Failed>
        requires { self.old ≡ [] }
        ensures filled { IsTrue (S.stream source.old).tells → OnOk result ((S.stream source.old).left ≡ self.new ++ (S.stream source.new).left) }
        ensures end { IsTrue (S.stream source.old).tells → OnOk result (self.new ≡ [] → (S.stream source.old).left ≡ []) }
        ensures few { length self.new ≤ most_taken }
        ensures kept { OnErr result ((S.stream source.new).left ≡ (S.stream source.old).left) }
        ensures no_more { weight self.new (S.stream source.new) ≤ weight self.old (S.stream source.old) }
        ensures same { SameSource (S.stream source.old) (S.stream source.new) }
        ensures cause { HasCause (S.stream source.old).faults (S.stream source.new).faults result }
    {
        widen(&mut self.buffer, self.end);
        let count = source.take(&mut self.buffer)?;
        self.start = 0;
        self.end = count;
        Ok(())
    }

    // Takes the bytes up to a newline, and it, or all where none is among them, and adds them to a line. Answers whether a newline was there.
    fn cut(&mut self, line: &mut Vec<u8>, limit: usize) -> Result<bool, OutOfMemory>
        ensures cuts { IfOk result (λ ended. Cuts limit self.old line.old.items ended self.new line.new.items) }
        ensures kept { OnErr result (self.new ≡ self.old) }
    {
        let bytes = &self.buffer[self.start..self.end];
        match memchr(10, bytes) {
            Some(at) => {
                lengthen(line, &bytes[..at], limit)?;
                self.start += at + 1;
                Ok(true)
            }
            None => {
                lengthen(line, bytes, limit)?;
                self.start = self.end;
                Ok(false)
            }
        }
    }
}

// Makes room for eight times as many bytes, where so many fill the buffer and memory is found.
fn widen(buffer: &mut Vec<u8>, count: usize)
    requires some { 0 < length buffer.old.items }
    requires few { length buffer.old.items ≤ most_taken }
    ensures wider { length buffer.old.items ≤ length buffer.new.items }
    ensures few { length buffer.new.items ≤ most_taken }
{
    if count < buffer.len() {
        return;
    }
    let room = (buffer.len() * 8).min(BUFFER);
    if let Err(_) = buffer.resize(room, 0) {
        return;
    }
}

// Whether a newline is among the bytes.
pub(crate) fn has_newline(bytes: &[u8]) -> bool
    ensures { result ≡ has_newline bytes.now }
{
    match memchr(10, bytes) {
        Some(at) => true,
        None => false,
    }
}

// Bytes more of a line, which isn't held behind the first that is too many.
fn lengthen(line: &mut Vec<u8>, piece: &[u8], limit: usize) -> Result<(), OutOfMemory>
    ensures { OnOk result ((text : List ℕ) → IsLine limit text line.old.items → IsLine limit (text ++ piece.now) line.new.items) }
{
    line.extend_from_slice(front(piece, line.len(), limit))?;
    Ok(())
}

// The bytes that are held behind so many of a line.
pub(crate) fn front(piece: &[u8], held: usize, limit: usize) -> &[u8]
    ensures { result.now ≡ take (limit + 1 - held) piece.now }
{
    if limit < held {
        return &[];
    }
    let room = limit - held;
    if room < piece.len() {
        return &piece[..room + 1];
    }
    piece
}
