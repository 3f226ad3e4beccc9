//! A stream of bytes that may fail.
ghost use Rattle.std.specs.Prelude.{◌≡◌, ◌≤◌, ◌<◌, ◌-◌, ◌++◌, ◌↔◌, ℕ, List, [], Some, length, min, take, drop, IsErr, IfOk};
ghost use Rattle.std.specs.declared.option.Option.{Option};
ghost use Rattle.std.specs.Io.{ReadsAtMost};
ghost use Rattle.std.specs.Io.KnownBytes.{ReadConsumes};
ghost use Rattle.gd_base.specs.Outside.Causes.{HasCause};
ghost use Rattle.gd_base.specs.Outside.InMemory.{call_more};

use std::io::Read;
use std::marker::Model;

/// A source or a sink failed; a disk has an error of its own, of the same name. It comes only where its count of faults
/// rose in that call, or stands at 2^64 - 1.
#[derive(Clone, Copy, Debug, PartialEq, Eq)]
pub struct Failed;

/// A stream of bytes to be taken.
pub trait Source {
    /// The bytes that are left, where the source tells them.
    ghost left: { Self → Option (List ℕ) };

    /// How often it has failed, up to 2^64 - 1.
    ghost faults: { Self → ℕ };

    /// Moves the next bytes into the front of `into`, at most as many as it has room for, and answers their number.
    /// `Ok(0)` with room is the end. At a failure no byte is lost.
    fn take(&mut self, into: &mut [u8]) -> Result<usize, Failed>
        ensures bound { ReadsAtMost result into.new }
        ensures bytes { ReadConsumes (left self.old) (left self.new) result into.new }
        ensures cause { HasCause (faults self.old) (faults self.new) result };
}

/// Any reader of std as a source. An interrupted read is a fault like any other.
#[derive(Drop)]
pub struct Reading<R> {
    inner: R,
    faults: u64,
}

impl<R: Read> Reading<R> {
    /// This reader, from where it stands, with no fault yet.
    pub fn new(inner: R) -> Self
        ensures left { ⟦<Reading<R> as Source>⟧.left result ≡ R.remaining inner }
        ensures faults { ⟦<Reading<R> as Source>⟧.faults result ≡ 0 }
    {
        Reading { inner, faults: 0 }
    }
}

impl<R: Read> Source for Reading<R> {
    ghost left = { λ s. R.remaining s.inner };

    ghost faults = { λ s. s.faults };

    fn take(&mut self, into: &mut [u8]) -> Result<usize, Failed> {
        match self.inner.read(into) {
            Ok(count) => Ok(count),
            Err(_) => {
                self.faults = self.faults.saturating_add(1);
                Err(Failed)
            }
        }
    }
}

/// Bytes in memory, which fail at one call or at none. Each other call fills the whole room, or as much as bytes are
/// left.
#[derive(Drop)]
pub struct MemorySource {
    bytes: Vec<u8>,
    at: usize,
    until: Option<u64>,
    faults: u64,
}

impl Model for MemorySource {
    ghost use Rattle.std.specs.Prelude.{drop, ◌≤◌, vec_len};
    ghost use Rattle.gd_base.specs.Outside.InMemory.{SourceState};

    ghost Value = { SourceState };

    ghost view = { λ s. record { left = drop s.at s.bytes.items; until = s.until; faults = s.faults } };

    ghost invariant = { λ s. s.at ≤ vec_len s.bytes };
}

impl MemorySource {
    /// These bytes. The call `fail_at`, counted from 1, fails, and no other.
    pub fn of(bytes: Vec<u8>, fail_at: Option<u64>) -> Self
        ensures left { result.left ≡ bytes.items }
        ensures until { result.until ≡ fail_at }
        ensures faults { result.faults ≡ 0 }
    {
        MemorySource {
            bytes,
            at: 0,
            until: fail_at,
            faults: 0,
        }
    }
}

impl Source for MemorySource {
    ghost left = { λ s. Some s.left };

    ghost faults = { λ s. s.faults };

    fn take(&mut self, into: &mut [u8]) -> Result<usize, Failed>
        ensures bound { ReadsAtMost result into.new }
        ensures bytes { ReadConsumes (Some self.old.left) (Some self.new.left) result into.new }
        ensures cause { HasCause self.old.faults self.new.faults result }
        // It fails at that one call, and counts no fault at another.
        ensures fails { IsErr result ↔ (self.old.until ≡ Some 1) }
        ensures until { self.new.until ≡ call_more self.old.until }
        ensures count { IfOk result (λ n. n ≡ min (length into.new) (length self.old.left)) }
    {
        match self.until {
            Some(1) => {
                self.until = None;
                self.faults = self.faults.saturating_add(1);
                return Err(Failed);
            }
            Some(calls) => self.until = Some(calls.saturating_sub(1)),
            None => {}
        }
        Ok(copy_front(&self.bytes, &mut self.at, into))
    }
}

/// Copies the bytes from `at` on, as many as there is room for, and moves `at` behind them.
fn copy_front(bytes: &Vec<u8>, at: &mut usize, into: &mut [u8]) -> usize
    requires { at.old ≤ length bytes.now.items }
    ensures count { result ≡ min (length into.new) (length bytes.now.items - at.old) }
    ensures within { at.new ≤ length bytes.now.items }
    ensures bytes { drop at.old bytes.now.items ≡ take result into.new ++ drop at.new bytes.now.items }
    ensures end { result ≡ 0 → 0 < length into.new → drop at.new bytes.now.items ≡ [] }
{
    let start = *at;
    let count = into.len().min(bytes.len() - start);
    into[..count].copy_from_slice(&bytes[start..start + count]);
    *at = start + count;
    count
}
