//! The values that have a name in scripts.

ghost use Rattle.std.specs.Prelude.{◌≡◌, ◌≤◌, length, List, ℕ};
ghost use Rattle.gd_script.specs.Reading.{value_named};

/// A value that a word of a script names.
pub(crate) trait Named {
    ghost name_of: { Self → List ℕ };

    /// The word.
    fn word(&self) -> &'static str
        ensures value { result.now ≡ name_of self.now };
}

/// The one of them that this word names, or none.
pub(crate) fn find_named<T: Named + Copy>(all: &[T], word: &[u8]) -> Option<T>
    ensures { result ≡ value_named T.name_of all.now word.now }
{
    for one in all {
        if one.word().as_bytes() == word {
            return Some(*one);
        }
    }
    None
}
