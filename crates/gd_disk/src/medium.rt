//! What a laboratory in memory keeps of its bytes, and what a loss of power leaves of them.
ghost use Rattle.std.specs.Prelude.{◌≡◌, ◌⊎◌, ◌≤◌, ◌+◌, ◌<◌, ℕ, length, slice_index, replicate, IfOk};
ghost use Rattle.gd_disk.specs.Disk.{with_bytes, with_mask, Altered, Torn};
ghost use Rattle.gd_disk.specs.Image.{CanBe, FoundBy, IsMarked, IsSettled, IsSpan};
ghost use Rattle.gd_disk.specs.Laboratory.{halves, left_of, torn_image};

use crate::TORN_BYTE;
use crate::bytes::put;
use std::alloc::{AllocError, Global};

/// The mark of a byte that is as at the last good sync.
pub(crate) const UNMARKED: u8 = 0;

/// The mark of a byte in the first half of the last write that wrote it.
pub(crate) const FIRST_HALF: u8 = 1;

/// The mark of a byte in the second half.
pub(crate) const SECOND_HALF: u8 = 2;

const _: () = prove!(UNMARKED == 0);

const _: () = prove!(FIRST_HALF == 1);

const _: () = prove!(SECOND_HALF == 2);

/// At each place the byte of the last good sync, the byte now, and a mark where it was written since, by the half of
/// the write that it stood in. The marks stand from `low` on and before `high`.
#[derive(Drop)]
pub(crate) struct Medium {
    /// The bytes of the last good sync.
    pub(crate) durable: Vec<u8>,
    /// The bytes now.
    pub(crate) current: Vec<u8>,
    /// By which half of a write each was written since, if it was.
    pub(crate) marks: Vec<u8>,
    pub(crate) low: usize,
    pub(crate) high: usize,
    ghost marked: { IsMarked durable.items current.items marks.items },
    ghost span: { IsSpan low high marks.items },
}

impl Medium {
    /// So many zeros, durable and now.
    pub(crate) fn zeros(alloc: Global, len: usize) -> Result<Medium, AllocError>
        ensures durable { IfOk result (λ medium. medium.durable.items ≡ replicate len 0) }
        ensures current { IfOk result (λ medium. medium.current.items ≡ replicate len 0) }
        ensures marks { IfOk result (λ medium. medium.marks.items ≡ replicate len UNMARKED) }
        ensures only { IfOk result (λ medium. IsSettled medium.marks.items medium.durable.items medium.current.items) }
    {
        Ok(Medium {
            durable: vec![in alloc; 0; len]?,
            current: vec![in alloc; 0; len]?,
            marks: vec![in alloc; UNMARKED; len]?,
            low: 0,
            high: 0,
        })
    }

    /// Writes bytes at a place, and marks them.
    pub(crate) fn write(&mut self, at: usize, bytes: &[u8])
        requires { at + length bytes.now ≤ length self.old.current.items }
        ensures durable { self.new.durable ≡ self.old.durable }
        ensures current { self.new.current.items ≡ with_bytes at bytes.now self.old.current.items }
        ensures marks { self.new.marks.items ≡ with_bytes at (halves (length bytes.now)) self.old.marks.items }
        ensures loss { FoundBy (Torn at (length bytes.now)) self.old.marks.items self.old.durable.items
            self.new.marks.items self.new.durable.items }
    {
        write_marked(&self.durable, &mut self.current, &mut self.marks, at, bytes);
        let (low, high) = span_with(self.low, self.high, at, at + bytes.len());
        self.low = low;
        self.high = high;
    }

    /// Makes the bytes now durable.
    pub(crate) fn settle(&mut self)
        ensures durable { self.new.durable.items ≡ self.old.current.items }
        ensures current { self.new.current ≡ self.old.current }
        ensures marks { self.new.marks.items ≡ replicate (length self.old.current.items) UNMARKED }
        ensures only { IsSettled self.new.marks.items self.new.durable.items self.new.current.items }
    {
        settle_span(
            &mut self.durable,
            &self.current,
            &mut self.marks,
            self.low,
            self.high,
        );
        self.low = 0;
        self.high = 0;
    }

    /// Makes durable what a loss of a kind leaves.
    pub(crate) fn lose(&mut self, torn: u8)
        ensures current { self.new.current.items
            ≡ torn_image torn self.old.durable.items self.old.current.items self.old.marks.items }
        ensures durable { self.new.durable.items ≡ self.new.current.items }
        ensures marks { self.new.marks.items ≡ replicate (length self.new.current.items) UNMARKED }
        ensures could_be { CanBe self.old.marks.items self.old.durable.items self.new.current.items }
        ensures only { IsSettled self.new.marks.items self.new.durable.items self.new.current.items }
    {
        tear(
            &self.durable,
            &mut self.current,
            &self.marks,
            self.low,
            self.high,
            torn,
        );
        self.settle();
    }

    /// Combines a byte with a mask by exclusive or, in each image that may be found.
    pub(crate) fn alter(&mut self, at: usize, mask: u8)
        requires { at < length self.old.current.items }
        ensures durable { self.new.durable.items ≡ with_mask at mask self.old.durable.items }
        ensures current { self.new.current.items ≡ with_mask at mask self.old.current.items }
        ensures marks { self.new.marks ≡ self.old.marks }
        ensures loss { FoundBy (Altered at mask) self.old.marks.items self.old.durable.items
            self.new.marks.items self.new.durable.items }
    {
        alter_byte(&mut self.durable, at, mask);
        alter_byte(&mut self.current, at, mask);
    }
}

/// The span of the marks, from `low` on and before `high`, with a range more. A span with no place in it has no mark.
fn span_with(low: usize, high: usize, at: usize, end: usize) -> (usize, usize)
    requires span { low ≤ high }
    requires range { at ≤ end }
    ensures ordered { result.0 ≤ result.1 }
    ensures low { (low ≡ high) ⊎ (result.0 ≤ low) }
    ensures high { (low ≡ high) ⊎ (high ≤ result.1) }
    ensures from { result.0 ≤ at }
    ensures to { end ≤ result.1 }
    ensures within { (result.1 ≡ end) ⊎ (result.1 ≡ high) }
{
    if low == high {
        return (at, end);
    }
    (low.min(at), high.max(end))
}

/// Marks a range, each half by a mark of its own.
fn mark(marks: &mut [u8], at: usize, n: usize)
    requires { at + n ≤ length marks.old }
    ensures halves { marks.new ≡ with_bytes at (halves n) marks.old }
    ensures elsewhere { (i : ℕ) → (i < at) ⊎ (at + n ≤ i) → slice_index marks.new i ≡ slice_index marks.old i }
    ensures marked { (i : ℕ) → at ≤ i → i < at + n → slice_index marks.new i ≡ 0 → ⊥ }
{
    let half = n / 2;
    mark_span(marks, at, at + half, FIRST_HALF);
    mark_span(marks, at + half, at + n, SECOND_HALF);
}

/// Writes, and marks what is written.
fn write_marked(durable: &[u8], current: &mut [u8], marks: &mut [u8], at: usize, bytes: &[u8])
    requires fits { at + length bytes.now ≤ length durable.now }
    requires marked { IsMarked durable.now current.old marks.old }
    ensures marked { IsMarked durable.now current.new marks.new }
    ensures written { current.new ≡ with_bytes at bytes.now current.old }
    ensures halves { marks.new ≡ with_bytes at (halves (length bytes.now)) marks.old }
    ensures elsewhere { (i : ℕ) → (i < at) ⊎ (at + length bytes.now ≤ i)
        → slice_index marks.new i ≡ slice_index marks.old i }
    ensures loss { FoundBy (Torn at (length bytes.now)) marks.old durable.now marks.new durable.now }
{
    put(current, at, bytes);
    mark(marks, at, bytes.len());
}

/// Puts one mark, or none, on each place of a span.
fn mark_span(marks: &mut [u8], low: usize, high: usize, mark: u8)
    requires ordered { low ≤ high }
    requires within { high ≤ length marks.old }
    ensures elsewhere { (i : ℕ) → (i < low) ⊎ (high ≤ i) → slice_index marks.new i ≡ slice_index marks.old i }
    ensures marked { (i : ℕ) → low ≤ i → i < high → slice_index marks.new i ≡ mark }
{
    marks[low..high].fill(mark);
}

/// Copies what is marked, and takes the marks away.
fn settle_span(durable: &mut [u8], current: &[u8], marks: &mut [u8], low: usize, high: usize)
    requires marked { IsMarked durable.old current.now marks.old }
    requires span { IsSpan low high marks.old }
    ensures durable { durable.new ≡ current.now }
    ensures marks { marks.new ≡ replicate (length current.now) UNMARKED }
{
    put(durable, low, &current[low..high]);
    mark_span(marks, low, high, UNMARKED);
}

/// Puts what a loss leaves in place of the bytes now.
fn tear(durable: &[u8], current: &mut [u8], marks: &[u8], low: usize, high: usize, torn: u8)
    requires marked { IsMarked durable.now current.old marks.now }
    requires span { IsSpan low high marks.now }
    ensures torn { current.new ≡ torn_image torn durable.now current.old marks.now }
    ensures could_be { CanBe marks.now durable.now current.new }
{
    for i in low..high {
        current[i] = torn_byte(torn, durable[i], current[i], marks[i]);
    }
}

/// What a loss of a kind leaves at a place with this mark, or with none.
fn torn_byte(torn: u8, old: u8, new: u8, mark: u8) -> u8
    ensures { result ≡ left_of torn old new mark }
{
    if mark == UNMARKED {
        return old;
    }
    match torn {
        0 => old,
        1 => new,
        2 if mark == FIRST_HALF => new,
        2 => old,
        _ => TORN_BYTE,
    }
}

/// Combines a byte with a mask by exclusive or.
fn alter_byte(bytes: &mut [u8], at: usize, mask: u8)
    requires { at < length bytes.old }
    ensures { bytes.new ≡ with_mask at mask bytes.old }
{
    bytes[at] ^= mask;
}
