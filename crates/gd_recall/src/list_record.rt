//! What a record of a list is: its bytes both ways, its place in the history, and what is asked of it.

ghost use Rattle.std.specs.Prelude.{◌≡◌, ℕ, Bool, List, IsTrue, length};

/// A record of one of the lists, of so many bytes.
pub(crate) trait ListRecord: Copy {
    /// How many bytes it has.
    ghost LEN: { ℕ };

    /// Its bytes.
    ghost bytes_of: { Self → List ℕ };

    /// The record that is read in bytes.
    ghost record_of: { List ℕ → Self };

    /// The place of its entry.
    ghost place_of: { Self → ℕ };

    /// Whether it can stand in a payload.
    ghost test: { Self → Bool };

    /// How many bytes it has.
    const LEN: usize;

    /// Writes its bytes.
    fn write(&self, into: &mut [u8])
        requires size { length into.old ≡ LEN }
        requires recorded { IsTrue (test self.now) }
        ensures { into.new ≡ bytes_of self.now };

    /// The record that is read in bytes, whatever they are.
    fn read(bytes: &[u8]) -> Self
        requires { length bytes.now ≡ LEN }
        ensures { result ≡ record_of bytes.now };

    /// The place of its entry in the history.
    fn place(&self) -> u64
        ensures { result ≡ place_of self.now };

    /// Whether it can stand in a payload.
    fn is_recorded(&self) -> bool
        ensures { result ≡ test self.now };
}
