//! What no clause says of a disk over a file (gd_disk): that bytes reach the file, and over which files it is off.
use gd_disk::{DISK_LEN, Disk, FileDisk, Off};
use std::alloc::{AllocError, Global};
use std::fs;
use std::process::Abort;
use std::test::Fail;

const NEW: [u8; 5] = [21, 22, 23, 24, 25];

fn zeros(alloc: Global, len: u64) -> Result<Vec<u8>, AllocError> {
    vec![in alloc; 0; len as usize]
}

fn write<D: Disk>(rt: &impl Abort, disk: &mut D, at: u64) -> Result<(), Off> {
    assert!(rt; disk.len() == DISK_LEN);
    assert!(rt; at <= DISK_LEN - NEW.len() as u64);
    disk.write(at, &NEW)
}

fn contents<D: Disk>(rt: &impl Abort, disk: &mut D, at: u64) -> Result<[u8; 5], Off> {
    assert!(rt; disk.len() == DISK_LEN);
    let mut bytes = [0; NEW.len()];
    assert!(rt; at <= DISK_LEN - NEW.len() as u64);
    disk.read(at, &mut bytes)?;
    Ok(bytes)
}

/// Whether each kind of call fails, and is counted.
fn is_off<D: Disk>(rt: &impl Abort, disk: &mut D) -> bool {
    let before = disk.stops();
    contents(rt, disk, 0) == Err(Off)
        && write(rt, disk, 0) == Err(Off)
        && disk.sync() == Err(Off)
        && disk.stops() == before.saturating_add(3)
}

#[test]
fn keeps_bytes_in_a_file(rt: HostRuntime) -> Result<(), Fail> {
    let path = "file_disk_kept";
    fs::write(&rt, path, zeros(rt.alloc(), DISK_LEN)?.as_slice())?;
    let mut disk = FileDisk::at(&rt, path);
    let last = DISK_LEN - NEW.len() as u64;
    write(&rt, &mut disk, 2)?;
    write(&rt, &mut disk, last)?;
    disk.sync()?;
    assert_eq!(rt; contents(&rt, &mut disk, 2)?, NEW);
    assert_eq!(rt; disk.stops(), 0);
    let mut again = FileDisk::at(&rt, path);
    assert_eq!(rt; contents(&rt, &mut again, last)?, NEW);
    let bytes = fs::read(&rt, path)?;
    assert!(rt; bytes.starts_with(&[0, 0, 21, 22, 23, 24, 25, 0, 0]));
    assert!(rt; bytes.ends_with(&[0, 21, 22, 23, 24, 25]));
    assert!(rt; bytes.len() as u64 == DISK_LEN);
    fs::remove_file(&rt, path)?;
    Ok(())
}

#[test]
fn is_off_over_a_folder(rt: HostRuntime) -> Result<(), Fail> {
    let folder = "file_disk_folder";
    fs::create_dir_all(&rt, folder)?;
    assert!(rt; is_off(&rt, &mut FileDisk::at(&rt, folder)));
    fs::remove_dir(&rt, folder)?;
    Ok(())
}

#[test]
fn a_disk_over_a_file_that_is_not_there_makes_none(rt: HostRuntime) -> Result<(), Fail> {
    let path = "file_disk_missing";
    assert!(rt; is_off(&rt, &mut FileDisk::at(&rt, path)));
    assert_eq!(rt; fs::exists(&rt, path)?, false);
    Ok(())
}

#[test]
fn is_off_over_a_file_of_another_length(rt: HostRuntime) -> Result<(), Fail> {
    let path = "file_disk_length";
    for len in [0, DISK_LEN - 1, DISK_LEN + 1] {
        fs::write(&rt, path, zeros(rt.alloc(), len)?.as_slice())?;
        assert!(rt; is_off(&rt, &mut FileDisk::at(&rt, path)), "{len}");
    }
    fs::remove_file(&rt, path)?;
    Ok(())
}

/// The file is cut short under an open disk.
#[test]
fn a_read_past_the_end_is_a_failure(rt: HostRuntime) -> Result<(), Fail> {
    let path = "file_disk_short";
    fs::write(&rt, path, zeros(rt.alloc(), DISK_LEN)?.as_slice())?;
    let mut disk = FileDisk::at(&rt, path);
    assert_eq!(rt; contents(&rt, &mut disk, 0)?, [0; 5]);
    fs::write(&rt, path, b"abc".as_slice())?;
    assert_eq!(rt; contents(&rt, &mut disk, 0), Err(Off));
    assert_eq!(rt; disk.stops(), 1);
    assert!(rt; is_off(&rt, &mut disk));
    fs::remove_file(&rt, path)?;
    Ok(())
}
