//! A disk over a file.
ghost use Rattle.std.specs.Prelude.{◌≡◌, IsOk, IsErr, is_some, true, false};
ghost use Rattle.gd_disk.specs.Disk.{next_count};

use crate::{DISK_LEN, Disk, Off};
use std::fs::File;
use std::os::unix::fs::FileExt;
use std::rt::Files;

/// A disk over one file of `DISK_LEN` bytes. It tells none of its content to a contract. A call that the file fails is
/// a counted failure, and leaves the disk off; a read or a write that is interrupted or cut short is carried on. A sync
/// is one of the file's data. What the file holds and keeps is the system's word.
#[derive(Drop)]
pub struct FileDisk {
    /// None where it couldn't be opened or has another length.
    file: Option<File>,
    is_on: bool,
    stops: u64,
    faults: u64,
    reads: u64,
    syncs: u64,
}

/// The file at this path, where it can be read and written and has a disk's length.
fn open_file(files: &impl Files<File = File>, path: &str) -> Option<File> {
    let file = File::options()
        .read(true)
        .write(true)
        .open(files, path)
        .ok()?;
    let found = file.metadata().ok()?;
    if found.len() == DISK_LEN {
        Some(file)
    } else {
        None
    }
}

impl FileDisk {
    ghost use Rattle.gd_disk.specs.Disk.{IsSynced};
    ghost use Rattle.gd_disk.specs.Untold.{file_state, HasDoneNothing};

    /// The disk over the file at this path, for reading and writing. It shows as a disk of `DISK_LEN` bytes that is off
    /// where the file can't be opened or has another length: then each call fails.
    pub fn at(files: &impl Files<File = File>, path: &str) -> FileDisk
        ensures fresh { HasDoneNothing (file_state result) }
        ensures synced { IsSynced (file_state result) }
    {
        FileDisk::over(open_file(files, path))
    }

    /// The disk over an open file, or one that is off.
    fn over(file: Option<File>) -> FileDisk
        ensures fresh { HasDoneNothing (file_state result) }
        ensures on { (file_state result).is_on ≡ is_some file }
    {
        FileDisk {
            is_on: file.is_some(),
            file,
            stops: 0,
            faults: 0,
            reads: 0,
            syncs: 0,
        }
    }

    /// Whether the power is on. A call on a disk that is off is counted.
    fn admits(&mut self) -> bool
        ensures answer { result ≡ self.old.is_on }
        ensures on { result ≡ true → self.new ≡ self.old }
        ensures off { result ≡ false → (self.new.is_on ≡ false) × (self.new.stops ≡ next_count self.old.stops) }
        ensures faults { self.new.faults ≡ self.old.faults }
        ensures reads { self.new.reads ≡ self.old.reads }
        ensures syncs { self.new.syncs ≡ self.old.syncs }
    {
        if self.is_on {
            return true;
        }
        self.stops = self.stops.saturating_add(1);
        false
    }

    /// What a call answers that the file did, or failed to do. A failure is counted, and the power goes off.
    fn answers(&mut self, is_done: bool) -> Result<(), Off>
        ensures done { is_done ≡ true → IsOk result × (self.new ≡ self.old) }
        ensures failed { is_done ≡ false → IsErr result × (self.new.is_on ≡ false) }
        ensures stop { is_done ≡ false → self.new.stops ≡ next_count self.old.stops }
        ensures fault { is_done ≡ false → self.new.faults ≡ next_count self.old.faults }
        ensures reads { self.new.reads ≡ self.old.reads }
        ensures syncs { self.new.syncs ≡ self.old.syncs }
    {
        if is_done {
            return Ok(());
        }
        self.is_on = false;
        self.faults = self.faults.saturating_add(1);
        self.stops = self.stops.saturating_add(1);
        Err(Off)
    }
}

impl Disk for FileDisk {
    ghost use Rattle.gd_disk.specs.Untold.{file_state};

    ghost state = { file_state };

    fn len(&self) -> u64 {
        DISK_LEN
    }

    fn stops(&self) -> u64 {
        self.stops
    }

    fn read(&mut self, at: u64, into: &mut [u8]) -> Result<(), Off> {
        if !self.admits() {
            return Err(Off);
        }
        let is_done = match &self.file {
            Some(file) => file.read_exact_at(into, at).is_ok(),
            None => false,
        };
        self.answers(is_done)?;
        self.reads = self.reads.saturating_add(1);
        Ok(())
    }

    fn write(&mut self, at: u64, bytes: &[u8]) -> Result<(), Off> {
        if !self.admits() {
            return Err(Off);
        }
        let is_done = match &self.file {
            Some(file) => file.write_all_at(bytes, at).is_ok(),
            None => false,
        };
        self.answers(is_done)
    }

    fn sync(&mut self) -> Result<(), Off> {
        if !self.admits() {
            return Err(Off);
        }
        let is_done = match &self.file {
            Some(file) => self.syncs < u64::MAX && file.sync_data().is_ok(),
            None => false,
        };
        self.answers(is_done)?;
        self.syncs += 1;
        Ok(())
    }
}
