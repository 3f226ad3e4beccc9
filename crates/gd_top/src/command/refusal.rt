//! Why a command ends before anything is made or opened.

ghost use Rattle.std.specs.Prelude.{◌≡◌};
ghost use Rattle.gd_top.specs.Claims.Refusals.{refusal_status, refusal_text};

use crate::status::Status;
use gd_base::Text;
use gd_games::SetupFault;

/// Why a command ends before anything is made or opened.
#[derive(Clone, Copy, Debug, PartialEq, Eq)]
pub enum Refusal {
    /// The words are in no row of docs/COMMANDS.md.
    Usage,
    /// The file of the setup failed.
    ReadFault,
    /// The file of the setup breaks this rule first.
    Setup(SetupFault),
    /// Memory was wanted.
    OutOfMemory,
}

impl Refusal {
    /// The status with which the command ends.
    pub(crate) fn status(&self) -> Status
        ensures { result ≡ refusal_status self.now }
    {
        match self {
            Refusal::Usage => Status::Usage,
            Refusal::ReadFault => Status::ReadFault,
            Refusal::Setup(_) => Status::SetupRefused,
            Refusal::OutOfMemory => Status::OutOfMemory,
        }
    }

    /// Writes the line that is printed over what stands in `text`.
    pub(crate) fn write_line(&self, text: &mut Text)
        ensures { text.new.bytes ≡ refusal_text self.now }
    {
        text.clear();
        match self {
            Refusal::Usage => text.push_str("usage\n"),
            Refusal::ReadFault => text.push_str("read fault\n"),
            Refusal::Setup(fault) => {
                text.push_str("setup ");
                text.push_str(fault.name());
                text.push_str("\n");
            }
            Refusal::OutOfMemory => text.push_str("no memory\n"),
        }
    }
}
