//! Why a run ends.

/// Why a run ends before the end of its input.
#[derive(Clone, Copy, Debug, PartialEq, Eq)]
pub enum Halt {
    /// A line of the script is a fault. It changed nothing.
    ScriptFault,
    /// The input failed.
    ReadFault,
    /// The disk failed, other than by a cut.
    DiskFault,
    /// The output failed.
    WriteFault,
    /// The memory was made under another setup.
    SetupDiffers,
}
