//! Names of files.

ghost use Rattle.std.specs.Prelude.{◌≡◌, ℕ, List, IfErr, IfOk};
ghost use Rattle.std.specs.String.{string_bytes};

use crate::words::WordsError;
use std::alloc::Global;
use std::marker::Model;

/// The name of a file, as it stands among the words. It may be empty, and then no file has it.
#[derive(Debug, Drop)]
pub struct Name {
    text: String,
}

impl Model for Name {
    ghost Value = { List ℕ };

    ghost view = { λ n. string_bytes n.text };
}

impl Name {
    /// The name of this text.
    pub(crate) fn new(alloc: Global, text: &str) -> Result<Name, WordsError>
        ensures text { IfOk result (λ n. n ≡ text.now) }
        ensures memory { IfErr result (λ e. e ≡ WordsError.OutOfMemory) }
    {
        match String::from_str(alloc, text) {
            Ok(text) => Ok(Name { text }),
            Err(_) => Err(WordsError::OutOfMemory),
        }
    }

    /// Its text.
    pub fn as_str(&self) -> &str
        ensures { result.now ≡ self.now }
    {
        self.text.as_str()
    }
}
