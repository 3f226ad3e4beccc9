//! The files that the words name.

ghost use Rattle.std.specs.Prelude.{◌≡◌, None};
ghost use Rattle.std.specs.Io.{ReadsAtMost};
ghost use Rattle.std.specs.Io.KnownBytes.{ReadConsumes};
ghost use Rattle.gd_base.specs.Outside.Causes.{HasCause};
ghost use Rattle.gd_disk.specs.Untold.{file_state};
ghost use Rattle.gd_store.specs.OpenAnswer.{IsOpenable};
ghost use Rattle.gd_top.specs.Code.Named.{image_named};
ghost use Rattle.gd_disk.specs.declared.lengths.TheConstants.{DISK_LEN};

use gd_base::{Failed, Source};
use gd_disk::{DISK_LEN, FileDisk};
use gd_words::{Command, Words};
use std::fs::{File, OpenFile};
use std::io::Read;
use std::rt::Files;

/// The file of a setup. It tells none of its bytes to a contract. Where it can't be opened each take fails.
#[derive(Drop)]
pub(crate) struct SetupFile {
    file: Option<File>,
    faults: u64,
}

impl SetupFile {
    /// The file that the words name, or none where they name none.
    pub(crate) fn of(files: &impl Files<File = File>, said: Option<&Words>) -> SetupFile {
        SetupFile {
            file: open_setup(files, said),
            faults: 0,
        }
    }
}

/// The file of the setup, where the words name one and it can be opened.
fn open_setup(files: &impl Files<File = File>, said: Option<&Words>) -> Option<File> {
    let name = said?.setup.as_ref()?;
    File::open(files, name.as_str()).ok()
}

impl Source for SetupFile {
    ghost left = { λ s. None };

    ghost faults = { λ s. s.faults };

    fn take(&mut self, into: &mut [u8]) -> Result<usize, Failed> {
        if let Some(file) = &mut self.file {
            if let Ok(count) = file.read(into) {
                return Ok(count);
            }
        }
        self.faults = self.faults.saturating_add(1);
        Err(Failed)
    }
}

/// The disk of the image that the words name, which `init` makes first where there is no such file. Where the words name none,
/// or the file can't be opened or has another length, it is a disk that is off.
pub(crate) fn image_disk(files: &impl Files<File = File>, said: Option<&Words>) -> FileDisk
    ensures size { (file_state result).size ≡ DISK_LEN }
    ensures openable { IsOpenable (file_state result) }
{
    match said {
        Some(said) => {
            let name = image_name(&said.command);
            if let Command::Init { .. } = &said.command {
                make_image(files, name);
            }
            FileDisk::at(files, name)
        }
        None => FileDisk::at(files, ""),
    }
}

/// The name of a command's image. A command without one has the empty name, and no file has that.
fn image_name(command: &Command) -> &str
    ensures { result.now ≡ image_named command.now }
{
    match command {
        Command::Init { image }
        | Command::Run { image }
        | Command::Show { image, .. }
        | Command::Check { image } => image.as_str(),
        Command::Trial | Command::Soak { .. } => "",
    }
}

/// Makes a file of zeros of a disk's length, where no file has this name. A failure shows when the file is opened.
fn make_image(files: &impl Files<File = File>, name: &str) {
    if let Ok(file) = File::options()
        .write(true)
        .create_new(true)
        .open(files, name)
    {
        let _made = file.set_len(DISK_LEN);
    }
}
