//! A row of flags in pieces, each of which is taken when the first of its flags is set.
ghost use Rattle.std.specs.Prelude.{◌≡◌, ◌<◌, ◌≤◌, ◌+◌, ◌-◌, ◌*◌, ◌/◌, ◌%◌, ◌^◌, [], ℕ, true, false, length, replicate, slice_index_or, IfOk, OnOk, OnErr, if◌then◌else◌};
ghost use Rattle.flag_rows.specs.Bits.{has, mark};
ghost use Rattle.fsck_list.specs.Pieces.{flag_at, AreWhole};

use flag_rows::Bits;
use hx_bytes::{Extent, OutOfMemory};
use std::alloc::Global;
use std::marker::Model;

/// So many flags. Those that are set take memory, and those beside them: 1 KiB for 8,192 flags.
#[derive(Drop)]
pub(crate) struct Pieces {
    alloc: Global,
    pieces: Vec<Bits>,
    count: usize,
}

impl Model for Pieces {
    ghost use Rattle.std.specs.Prelude.{List, Bool};
    ghost use Rattle.fsck_list.specs.Pieces.{flags_in, ArePieces};

    ghost Value = { List Bool };

    ghost view = { λ p. flags_in p.count p.pieces.items };

    ghost invariant = { λ p. ArePieces p.count p.pieces.items };
}

/// So many pieces, all of them lacking.
fn lacking(alloc: Global, many: usize) -> Result<Vec<Bits>, OutOfMemory>
    ensures { IfOk result (λ pieces. pieces.items ≡ replicate many []) }
{
    let mut pieces = Vec::with_capacity(alloc, many)?;
    for _taken in 0..many {
        pieces.push(Bits::clear(alloc, 0)?)?;
    }
    Ok(pieces)
}

/// Takes a piece, where it is lacking.
fn take_piece(alloc: Global, pieces: &mut Vec<Bits>, at: usize) -> Result<(), OutOfMemory>
    requires inside { at < length pieces.old.items }
    requires whole { AreWhole pieces.old.items }
    ensures long { length pieces.new.items ≡ length pieces.old.items }
    ensures whole { AreWhole pieces.new.items }
    ensures there { OnOk result (length (slice_index_or pieces.new.items at []) ≡ 8192) }
    ensures same { (k : ℕ) → flag_at pieces.new.items k ≡ flag_at pieces.old.items k }
{
    if pieces[at].len() == 0 {
        pieces[at] = Bits::clear(alloc, 8192)?;
    }
    Ok(())
}

/// The first flag of a piece, from a place on up to another, that is set, or the other place.
fn first_set(pieces: &Vec<Bits>, from: usize, to: usize) -> usize
    requires order { from ≤ to }
    requires inside { from / 8192 < length pieces.now.items }
    requires one { to ≤ from / 8192 * 8192 + 8192 }
    requires there { length (slice_index_or pieces.now.items (from / 8192) []) ≡ 8192 }
    ensures from { from ≤ result }
    ensures to { result ≤ to }
    ensures before { (k : ℕ) → from ≤ k → k < result → flag_at pieces.now.items k ≡ false }
    ensures found { result < to → flag_at pieces.now.items result ≡ true }
{
    let piece = from / 8192;
    let start = piece * 8192;
    start + pieces[piece].first_before(from - start, to - start, true)
}

/// Sets so many flags of a piece.
fn set_flags(pieces: &mut Vec<Bits>, from: usize, count: usize)
    requires inside { from / 8192 < length pieces.old.items }
    requires one { from % 8192 + count ≤ 8192 }
    requires few { from < 2 ^ 32 }
    requires there { length (slice_index_or pieces.old.items (from / 8192) []) ≡ 8192 }
    requires whole { AreWhole pieces.old.items }
    ensures long { length pieces.new.items ≡ length pieces.old.items }
    ensures whole { AreWhole pieces.new.items }
    ensures sets { (k : ℕ) → flag_at pieces.new.items k ≡ (if has (record { start = from; count = count }) k then true else flag_at pieces.old.items k) }
{
    pieces[from / 8192].fill(
        Extent {
            start: (from % 8192) as u32,
            count: count as u32,
        },
        true,
    );
}

impl Pieces {
    /// So many flags, of which none is set.
    pub(crate) fn new(alloc: Global, count: u32) -> Result<Pieces, OutOfMemory>
        ensures { IfOk result (λ flags. flags ≡ replicate count false) }
    {
        let count = count as usize;
        let pieces = lacking(alloc, (count + 8191) / 8192)?;
        Ok(Pieces {
            alloc,
            pieces,
            count,
        })
    }

    pub(crate) fn len(&self) -> usize
        ensures size { result ≡ length self.now }
        ensures bound { result < 2 ^ 32 }
    {
        self.count
    }

    pub(crate) fn get(&self, at: usize) -> bool
        requires { at < length self.now }
        ensures { result ≡ slice_index_or self.now at false }
    {
        let piece = &self.pieces[at / 8192];
        let into = at % 8192;
        if into >= piece.len() {
            return false;
        }
        piece.get(into)
    }

    /// Sets the flags from a place on that come before the first of them that is set already, up to another place and to the end of the
    /// piece, and says where it ended.
    pub(crate) fn set_clear(&mut self, from: usize, to: usize) -> Result<usize, OutOfMemory>
        requires order { from < to }
        requires inside { to ≤ length self.old }
        ensures from { IfOk result (λ stop. from ≤ stop) }
        ensures to { IfOk result (λ stop. stop ≤ to) }
        ensures clear { IfOk result (λ stop. (k : ℕ) → from ≤ k → k < stop → slice_index_or self.old k false ≡ false) }
        ensures found { IfOk result (λ stop. stop ≡ from → slice_index_or self.old from false ≡ true) }
        ensures sets { IfOk result (λ stop. self.new ≡ mark self.old (record { start = from; count = stop - from }) true) }
        ensures same { OnErr result (self.new ≡ self.old) }
    {
        let _count = self.len();
        let end = to.min(from / 8192 * 8192 + 8192);
        take_piece(self.alloc, &mut self.pieces, from / 8192)?;
        let stop = first_set(&self.pieces, from, end);
        set_flags(&mut self.pieces, from, stop - from);
        Ok(stop)
    }
}
