//! What words say.

use crate::name::Name;
use gd_base::What;
use std::alloc::AllocError;

/// A command, with what it is told.
#[derive(Debug, Drop)]
pub enum Command {
    /// Makes an empty memory in the image.
    Init { image: Name },
    /// Carries out the script of the input over a laboratory.
    Trial,
    /// Carries out the script of the input over the image.
    Run { image: Name },
    /// Shows a text of the machine that the image keeps.
    Show { what: What, image: Name },
    /// Says how the two copies of the image stand.
    Check { image: Name },
    /// Carries out so many items, made from the seed, over a laboratory.
    Soak { count: u64, seed: u64 },
}

/// The words, taken apart.
#[derive(Debug, Drop)]
pub struct Words {
    /// The command.
    pub command: Command,
    /// The name of the setup file, if one is given.
    pub setup: Option<Name>,
    /// The seed of the random words: 1 where none is given.
    pub seed: u64,
}

/// Why words weren't read.
#[derive(Clone, Copy, PartialEq, Eq, Debug)]
pub enum WordsError {
    /// They are in no row of docs/COMMANDS.md.
    Usage,
    /// There was no memory to read them.
    OutOfMemory,
}
