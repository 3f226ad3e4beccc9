//! Where bytes are written to.
ghost use Rattle.std.specs.Prelude.{◌≡◌, ◌≤◌, ◌+◌, ◌-◌, ◌++◌, ℕ, List, [], Some, length, IfOk, take, IsOk, ◌↔◌};
ghost use Rattle.std.specs.declared.option.Option.{Option};
ghost use Rattle.std.specs.Io.KnownBytes.{Appends};
ghost use Rattle.gd_base.specs.Outside.Causes.{HasCause, GivesFront};

use crate::source::Failed;
use std::alloc::{AllocError, Global};
use std::io::Write;
use std::marker::Model;

/// A stream of bytes to be given.
pub trait Sink {
    /// The bytes that were taken, where the sink tells them.
    ghost taken: { Self → Option (List ℕ) };

    /// How often it has failed, up to 2^64 - 1.
    ghost faults: { Self → ℕ };

    /// Appends all the bytes, or fails and appends a front of them.
    fn give(&mut self, bytes: &[u8]) -> Result<(), Failed>
        ensures bytes { GivesFront (taken self.old) (taken self.new) result bytes.now }
        ensures cause { HasCause (faults self.old) (faults self.new) result };
}

/// Any writer of std as a sink. It gives up at the first write that fails or takes nothing, and flushes nothing.
#[derive(Drop)]
pub struct Writing<W> {
    inner: W,
    faults: u64,
}

impl<W: Write> Writing<W> {
    /// This writer, after what it has taken, with no fault yet.
    pub fn new(inner: W) -> Self
        ensures taken { ⟦<Writing<W> as Sink>⟧.taken result ≡ W.contents inner }
        ensures faults { ⟦<Writing<W> as Sink>⟧.faults result ≡ 0 }
    {
        Writing { inner, faults: 0 }
    }
}

impl<W: Write> Sink for Writing<W> {
    ghost taken = { λ s. W.contents s.inner };

    ghost faults = { λ s. s.faults };

    fn give(&mut self, bytes: &[u8]) -> Result<(), Failed> {
        let mut at = 0;
        while at < bytes.len() {
            let count = write_some(&mut self.inner, &bytes[at..]);
            if count == 0 {
                self.faults = self.faults.saturating_add(1);
                return Err(Failed);
            }
            at += count;
        }
        Ok(())
    }
}

/// Writes what one call takes, and says how many bytes: none at a failure.
fn write_some<W: Write>(inner: &mut W, bytes: &[u8]) -> usize
    ensures bound { result ≤ length bytes.now }
    ensures bytes { Appends (W.contents inner.old) (W.contents inner.new) (take result bytes.now) }
{
    match inner.write(bytes) {
        Ok(count) => count,
        Err(_) => 0,
    }
}

/// Memory with a fixed room. A give past the room is a fault, and appends what fits.
#[derive(Drop)]
pub struct MemorySink {
    bytes: Vec<u8>,
    room: usize,
    faults: u64,
}

impl Model for MemorySink {
    ghost use Rattle.std.specs.Prelude.{◌≤◌, vec_len, vec_capacity, ◌-◌};
    ghost use Rattle.gd_base.specs.Outside.InMemory.{SinkState};

    ghost Value = { SinkState };

    ghost view = { λ s. record { taken = s.bytes.items; room = s.room; faults = s.faults } };

    ghost invariant = { λ s. (vec_len s.bytes ≤ s.room) × (s.room ≤ vec_capacity s.bytes) };
}

impl MemorySink {
    /// Room for `room` bytes, taken now.
    pub fn with_room(alloc: Global, room: usize) -> Result<Self, AllocError>
        ensures { IfOk result (λ sink. (sink.taken ≡ []) × (sink.room ≡ room) × (sink.faults ≡ 0)) }
    {
        let bytes = Vec::with_capacity(alloc, room)?;
        Ok(MemorySink {
            bytes,
            room,
            faults: 0,
        })
    }

    /// The bytes taken.
    pub fn bytes(&self) -> &[u8]
        ensures { result.now ≡ self.now.taken }
    {
        self.bytes.as_slice()
    }
}

impl Sink for MemorySink {
    ghost taken = { λ s. Some s.taken };

    ghost faults = { λ s. s.faults };

    fn give(&mut self, bytes: &[u8]) -> Result<(), Failed>
        ensures bytes { GivesFront (Some self.old.taken) (Some self.new.taken) result bytes.now }
        ensures cause { HasCause self.old.faults self.new.faults result }
        // It fails exactly where the bytes don't fit, takes those that do, and counts no other fault.
        ensures fits { IsOk result ↔ (length self.old.taken + length bytes.now ≤ self.old.room) }
        ensures taken { self.new.taken ≡ self.old.taken ++ take (self.old.room - length self.old.taken) bytes.now }
        ensures room { self.new.room ≡ self.old.room }
    {
        let count = bytes.len().min(self.room - self.bytes.len());
        if self.bytes.extend_from_slice(&bytes[..count]).is_ok() && count == bytes.len() {
            return Ok(());
        }
        self.faults = self.faults.saturating_add(1);
        Err(Failed)
    }
}
