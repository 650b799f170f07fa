//! The tree of sums over chunks of flags.
ghost use Rattle.std.specs.Prelude.{◌≡◌, ◌<◌, ◌≤◌, ◌+◌, ◌-◌, ◌*◌, ◌/◌, ◌^◌, ℕ, true, false, [], length, replicate, IfOk};
ghost use Rattle.flag_rows.specs.Sums.{sum_of, clear_of, joined};
ghost use Rattle.flag_rows.specs.Trees.{part, node, IsJoined, JoinedBut, SameOutside, AreSummed};

use crate::bits::Bits;
use crate::sums::{Sum, join};
use hx_bytes::{Extent, OutOfMemory};
use std::alloc::Global;

/// The sum of so many free flags.
fn free_run(count: u32) -> Sum
    ensures { result ≡ sum_of (replicate count true) }
{
    Sum {
        size: count,
        free: count,
        front: count,
        back: count,
        top: Extent { start: 0, count },
    }
}

/// The sum of so many flags of which none is free.
fn used_run(count: u32) -> Sum
    ensures { result ≡ sum_of (replicate count false) }
{
    Sum {
        size: count,
        free: 0,
        front: 0,
        back: 0,
        top: Extent { start: 0, count: 0 },
    }
}

/// The sum of the flags from one place up to another, of which the clear ones are free.
pub fn scan(bits: &Bits, start: usize, end: usize) -> Sum
    requires order { start ≤ end }
    requires inside { end ≤ length bits.now }
    ensures { result ≡ sum_of (part (clear_of bits.now) start (end - start)) }
{
    let _size = bits.len();
    let mut sum = free_run(0);
    let mut at = start;
    while at < end {
        let taken = bits.first_before(at, end, true);
        let free = bits.first_before(taken, end, false);
        sum = join(
            sum,
            join(
                free_run((taken - at) as u32),
                used_run((free - taken) as u32),
            ),
        );
        at = free;
    }
    sum
}

/// Makes a node the sum of the two below it.
fn join_one(nodes: &mut [Sum], at: usize)
    requires { 2 * at + 1 < length nodes.old }
    ensures size { length nodes.new ≡ length nodes.old }
    ensures others { SameOutside nodes.old nodes.new at (at + 1) }
    ensures here { node nodes.new at ≡ joined (node nodes.old (2 * at)) (node nodes.old (2 * at + 1)) }
{
    nodes[at] = join(nodes[2 * at], nodes[2 * at + 1]);
}

/// Makes the nodes from one to another the sums of those below them.
fn join_level(nodes: &mut [Sum], low: usize, high: usize)
    requires order { low ≤ high }
    requires first { 1 ≤ low }
    requires inside { 2 * high + 1 < length nodes.old }
    ensures size { length nodes.new ≡ length nodes.old }
    ensures others { SameOutside nodes.old nodes.new low (high + 1) }
    ensures joined { (chunks : ℕ) → JoinedBut nodes.old chunks low high → JoinedBut nodes.new chunks (low / 2) (high / 2) }
{
    for at in low..high + 1 {
        join_one(nodes, at);
    }
}

/// Makes all nodes above those from one to another the sums of those below them.
fn join_up(nodes: &mut [Sum], chunks: usize, first: usize, last: usize)
    requires order { first ≤ last }
    requires inside { last < chunks }
    requires size { length nodes.old ≡ 2 * chunks }
    requires joined { JoinedBut nodes.old chunks ((chunks + first) / 2) ((chunks + last) / 2) }
    ensures size { length nodes.new ≡ length nodes.old }
    ensures leaves { (i : ℕ) → chunks ≤ i → node nodes.new i ≡ node nodes.old i }
    ensures joins { (i : ℕ) → 1 ≤ i → i < chunks → IsJoined nodes.new i }
{
    let mut low = (chunks + first) / 2;
    let mut high = (chunks + last) / 2;
    while high > 0 {
        join_level(nodes, low.max(1), high);
        low /= 2;
        high /= 2;
    }
}

/// Sums these chunks anew.
fn scan_chunks(bits: &Bits, nodes: &mut [Sum], chunks: usize, first: usize, last: usize)
    requires order { first ≤ last }
    requires inside { last < chunks }
    requires few { chunks ≤ 2 ^ 23 }
    requires size { length nodes.old ≡ 2 * chunks }
    ensures size { length nodes.new ≡ length nodes.old }
    ensures others { SameOutside nodes.old nodes.new (chunks + first) (chunks + last + 1) }
    ensures chunks { (p : ℕ) → first ≤ p → p ≤ last → node nodes.new (chunks + p) ≡ sum_of (part (clear_of bits.now) (p * 1024) 1024) }
{
    let size = bits.len();
    for p in first..last + 1 {
        let start = (p * 1024).min(size);
        let end = (start + 1024).min(size);
        nodes[chunks + p] = scan(bits, start, end);
    }
}

/// Sums these chunks anew, and all that stands above them.
pub fn sum_anew(bits: &Bits, nodes: &mut [Sum], chunks: usize, first: usize, last: usize)
    requires order { first ≤ last }
    requires inside { last < chunks }
    requires few { chunks ≤ 2 ^ 23 }
    requires size { length nodes.old ≡ 2 * chunks }
    requires leaves { (p : ℕ) → p < chunks → (first ≤ p → last < p) → node nodes.old (chunks + p) ≡ sum_of (part (clear_of bits.now) (p * 1024) 1024) }
    requires joins { JoinedBut nodes.old chunks ((chunks + first) / 2) ((chunks + last) / 2) }
    ensures { AreSummed (clear_of bits.now) chunks nodes.new }
{
    scan_chunks(bits, nodes, chunks, first, last);
    join_up(nodes, chunks, first, last);
}

/// The same in a vector.
pub fn renew(bits: &Bits, nodes: &mut Vec<Sum>, chunks: usize, first: usize, last: usize)
    requires order { first ≤ last }
    requires inside { last < chunks }
    requires few { chunks ≤ 2 ^ 23 }
    requires size { length nodes.old.items ≡ 2 * chunks }
    requires leaves { (p : ℕ) → p < chunks → (first ≤ p → last < p) → node nodes.old.items (chunks + p) ≡ sum_of (part (clear_of bits.now) (p * 1024) 1024) }
    requires joins { JoinedBut nodes.old.items chunks ((chunks + first) / 2) ((chunks + last) / 2) }
    ensures { AreSummed (clear_of bits.now) chunks nodes.new.items }
{
    sum_anew(bits, nodes, chunks, first, last);
}

/// So many sums of no flags.
pub fn no_sums(alloc: Global, count: usize) -> Result<Vec<Sum>, OutOfMemory>
    ensures { IfOk result (λ nodes. nodes.items ≡ replicate count (sum_of [])) }
{
    let mut nodes = Vec::new(alloc);
    let none = free_run(0);
    for _ in 0..count {
        nodes.push(none)?;
    }
    Ok(nodes)
}
