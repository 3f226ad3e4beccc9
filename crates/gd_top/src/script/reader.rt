//! The lines of a script, taken one after another from a buffer of what the source gave.

ghost use Rattle.std.specs.Prelude.{◌≡◌, ◌≤◌, ◌++◌, [], ◌∷◌, length, Err, IfOk, OnErr, OnOk, IfNone, option_to_list};
ghost use Rattle.std.specs.Io.KnownBytes.{Consumes, Keeps, IsAtEnd, prepend_known};
ghost use Rattle.gd_base.specs.Outside.Causes.{HasCause, Rose};
ghost use Rattle.gd_top.specs.Script.Lines.{HasNoEnd};
ghost use Rattle.gd_top.specs.Script.LineTaken.{TakesByte, TakesLine};

use crate::halt::Halt;
use arrayvec::ArrayVec;
use gd_base::{Failed, Source};
use gd_script::LINE_LEN;
use std::marker::Model;

/// The most lines of a script.
pub const MOST_LINES: u64 = 1_000_000;

const _: () = prove!(MOST_LINES == 1_000_000);

/// The bytes of a line, without its LF.
pub(crate) type LineBytes = ArrayVec<u8, LINE_LEN>;

/// The room of the buffer in bytes.
const AHEAD_LEN: usize = 4096;

/// A buffer of a fixed room, seen as the bytes that wait in it. One is a local of the top call and is lent down.
#[derive(Drop)]
pub(crate) struct Ahead {
    buffer: [u8; AHEAD_LEN],
    at: usize,
    end: usize,
}

impl Model for Ahead {
    ghost use Rattle.std.specs.Prelude.{ℕ, List, drop, take, ◌≤◌};

    ghost Value = { List ℕ };

    ghost view = { λ a. drop a.at (take a.end a.buffer) };

    ghost invariant = { λ a. (a.at ≤ a.end) × (a.end ≤ 4096) };
}

impl Ahead {
    /// A buffer in which nothing waits.
    pub(crate) fn new() -> Self
        ensures { result ≡ [] }
    {
        Ahead {
            buffer: [0; AHEAD_LEN],
            at: 0,
            end: 0,
        }
    }

    /// Takes the next byte that waits.
    pub(crate) fn pop(&mut self) -> Option<u8>
        ensures front { self.old ≡ option_to_list result ++ self.new }
        ensures empty { IfNone result (self.old ≡ []) }
    {
        if self.at == self.end {
            return None;
        }
        let byte = self.buffer[self.at];
        self.at += 1;
        Some(byte)
    }

    /// Takes bytes from the source, where none waits. None waits afterwards only at the source's end, or where it failed.
    pub(crate) fn refill<S: Source>(&mut self, source: &mut S) -> Result<(), Failed>
        requires { self.old ≡ [] }
        ensures bytes { OnOk result (Consumes (S.left source.old) (S.left source.new) self.new) }
        ensures end { OnOk result (self.new ≡ [] → IsAtEnd (S.left source.new)) }
        ensures none { OnErr result ((self.new ≡ []) × Keeps (S.left source.old) (S.left source.new)) }
        ensures cause { HasCause (S.faults source.old) (S.faults source.new) result }
    {
        self.at = 0;
        self.end = 0;
        self.end = source.take(&mut self.buffer)?;
        Ok(())
    }
}

/// Takes the next byte, or none at the end of the input.
pub(crate) fn next_byte<S: Source>(source: &mut S, ahead: &mut Ahead) -> Result<Option<u8>, Halt>
    ensures taken { TakesByte (prepend_known ahead.old (S.left source.old))
        (prepend_known ahead.new (S.left source.new)) result }
    ensures end { IfOk result
        (λ b. IfNone b (IsAtEnd (prepend_known ahead.new (S.left source.new)))) }
    ensures empty { OnErr result (ahead.new ≡ []) }
    ensures cause { HasCause (S.faults source.old) (S.faults source.new) result }
{
    if let Some(byte) = ahead.pop() {
        return Ok(Some(byte));
    }
    match ahead.refill(source) {
        Ok(()) => Ok(ahead.pop()),
        Err(Failed) => Err(Halt::ReadFault),
    }
}

/// Takes the next line, whatever stood in `line` before: true with a line that ended with LF, and false at the end of the
/// input. It is a script fault at the line's 121st byte, behind which nothing is taken, and at the end of the input behind a
/// line's first byte.
pub(crate) fn next_line<S: Source>(
    source: &mut S,
    ahead: &mut Ahead,
    line: &mut LineBytes,
) -> Result<bool, Halt>
    ensures taken { TakesLine (prepend_known ahead.old (S.left source.old))
        (prepend_known ahead.new (S.left source.new)) line.new.items result }
    ensures no_end { HasNoEnd line.new.items }
    ensures short { length line.new.items ≤ LINE_LEN }
    // At a fault of the source nothing waits: all that was taken is in the lines before and in this one.
    ensures empty { result ≡ Err Halt.ReadFault → ahead.new ≡ [] }
    ensures later { S.faults source.old ≤ S.faults source.new }
    ensures cause { result ≡ Err Halt.ReadFault → Rose (S.faults source.old) (S.faults source.new) }
{
    line.clear();
    for _ in 0..LINE_LEN {
        match next_byte(source, ahead)? {
            None if line.is_empty() => return Ok(false),
            None => return Err(Halt::ScriptFault),
            Some(b'\n') => return Ok(true),
            Some(byte) => line.push(byte),
        }
    }
    match next_byte(source, ahead)? {
        None => Err(Halt::ScriptFault),
        Some(b'\n') => Ok(true),
        Some(_) => Err(Halt::ScriptFault),
    }
}
