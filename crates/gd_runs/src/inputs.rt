//! Sources that give a script in pieces, or one line without end.

ghost use Rattle.std.specs.Prelude.{None};
ghost use Rattle.std.specs.Io.KnownBytes.{ReadConsumes};
ghost use Rattle.std.specs.Io.{ReadsAtMost};
ghost use Rattle.gd_base.specs.Outside.Causes.{HasCause};

use gd_base::{Failed, MemorySource, Source};

/// The most bytes of a piece.
const PIECE_LEN: usize = 16;

/// Bytes in memory in pieces of at most `most`. It doesn't tell what is left.
#[derive(Drop)]
pub struct Pieces {
    /// The bytes that are given.
    pub bytes: MemorySource,
    /// The most bytes of a piece.
    pub most: usize,
}

impl Source for Pieces {
    ghost left = { λ s. None };

    ghost faults = { λ s. s.bytes.faults };

    fn take(&mut self, into: &mut [u8]) -> Result<usize, Failed> {
        let mut piece = [0; PIECE_LEN];
        let room = into.len().min(self.most).min(PIECE_LEN);
        let count = self.bytes.take(&mut piece[..room])?;
        into[..count].copy_from_slice(&piece[..count]);
        Ok(count)
    }
}

/// So many empty lines. It doesn't tell what is left.
#[derive(Drop)]
pub struct EmptyLines {
    /// How many lines are still to come.
    pub lines: usize,
}

impl Source for EmptyLines {
    ghost left = { λ s. None };

    ghost faults = { λ s. 0 };

    fn take(&mut self, into: &mut [u8]) -> Result<usize, Failed> {
        let count = into.len().min(self.lines);
        into[..count].fill(b'\n');
        self.lines -= count;
        Ok(count)
    }
}
