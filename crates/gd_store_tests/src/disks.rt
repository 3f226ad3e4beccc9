//! Disks in memory and in a laboratory (gd_disk): worked bytes of what a loss leaves, and the calls of each.
use gd_disk::{CutUnit, Disk, Failed, LabDisk, MOST_CUTS, MOST_TORN, MemoryDisk, MemoryLab, Off};
use std::process::Abort;
use std::test::Fail;

const OLD: [u8; 8] = [1, 2, 3, 4, 5, 6, 7, 8];

const NEW: [u8; 5] = [21, 22, 23, 24, 25];

/// What each kind of tearing leaves of NEW, written over OLD from place 2 on.
const LEFT: [[u8; 8]; 4] = [
    [1, 2, 3, 4, 5, 6, 7, 8],
    [1, 2, 21, 22, 23, 24, 25, 8],
    [1, 2, 21, 22, 5, 6, 7, 8],
    [1, 2, 0xA5, 0xA5, 0xA5, 0xA5, 0xA5, 8],
];

fn contents<D: Disk>(rt: &impl Abort, disk: &mut D) -> Result<[u8; 8], Off> {
    assert!(rt; disk.len() == 8);
    let mut bytes = [0; 8];
    disk.read(0, &mut bytes)?;
    Ok(bytes)
}

fn write<D: Disk>(rt: &impl Abort, disk: &mut D, at: u64, bytes: &[u8]) -> Result<(), Off> {
    assert!(rt; disk.len() == 8);
    assert!(rt; bytes.len() <= 8);
    assert!(rt; at <= 8 - bytes.len() as u64);
    disk.write(at, bytes)
}

fn write_synced<D: Disk>(rt: &impl Abort, disk: &mut D, at: u64, bytes: &[u8]) -> Result<(), Off> {
    write(rt, disk, at, bytes)?;
    disk.sync()
}

fn arm<L: LabDisk>(rt: &impl Abort, lab: &mut L, unit: CutUnit, count: u32, torn: u8) {
    assert!(rt; lab.cuts_armed() < MOST_CUTS);
    assert!(rt; count >= 1);
    assert!(rt; torn <= MOST_TORN);
    lab.arm(unit, count, torn);
}

fn turn_on<L: LabDisk>(rt: &impl Abort, lab: &mut L) -> Result<(), Failed> {
    assert!(rt; !lab.powered());
    lab.power_on()
}

fn alter<L: LabDisk>(rt: &impl Abort, lab: &mut L, at: u64, mask: u8) {
    assert!(rt; !lab.powered());
    assert!(rt; at < lab.len());
    lab.alter(at, mask);
}

/// OLD is durable, and the power is cut while NEW is written over it.
fn torn_write<L: LabDisk>(
    rt: &impl Abort,
    lab: &mut L,
    unit: CutUnit,
    torn: u8,
) -> Result<[u8; 8], Fail> {
    write_synced(rt, lab, 0, &OLD)?;
    arm(rt, lab, unit, 1, torn);
    assert_eq!(rt; write_synced(rt, lab, 2, &NEW), Err(Off));
    assert_eq!(rt; lab.cuts_armed(), 0);
    turn_on(rt, lab)?;
    Ok(contents(rt, lab)?)
}

#[test]
fn tears_in_each_kind(rt: HostRuntime) -> Result<(), Fail> {
    for unit in [CutUnit::Call, CutUnit::Sync] {
        for (torn, left) in LEFT.iter().enumerate() {
            let mut lab = MemoryLab::new(rt.alloc(), 8)?;
            let found = torn_write(&rt, &mut lab, unit, torn as u8)?;
            assert_eq!(rt; found, *left, "{unit:?} {torn}");
        }
    }
    Ok(())
}

#[test]
fn counts_a_cut_from_when_it_became_the_first(rt: HostRuntime) -> Result<(), Fail> {
    let mut lab = MemoryLab::new(rt.alloc(), 8)?;
    arm(&rt, &mut lab, CutUnit::Sync, 1, 0);
    arm(&rt, &mut lab, CutUnit::Call, 2, 1);
    assert_eq!(rt; write_synced(&rt, &mut lab, 0, &OLD), Err(Off));
    assert_eq!(rt; lab.cuts_armed(), 1);
    turn_on(&rt, &mut lab)?;
    assert_eq!(rt; contents(&rt, &mut lab)?, [0; 8]);
    write(&rt, &mut lab, 0, &OLD)?;
    assert_eq!(rt; lab.sync(), Err(Off));
    assert_eq!(rt; lab.cuts_armed(), 0);
    turn_on(&rt, &mut lab)?;
    assert_eq!(rt; contents(&rt, &mut lab)?, OLD);
    Ok(())
}

#[test]
fn is_off_after_a_fault(rt: HostRuntime) -> Result<(), Fail> {
    let mut lab = MemoryLab::faulty(rt.alloc(), 8, 4)?;
    arm(&rt, &mut lab, CutUnit::Call, 9, 3);
    write_synced(&rt, &mut lab, 0, &OLD)?;
    write(&rt, &mut lab, 2, &NEW)?;
    assert_eq!(rt; contents(&rt, &mut lab), Err(Off));
    assert_eq!(rt; lab.cuts_armed(), 1);
    assert_eq!(rt; write(&rt, &mut lab, 0, &NEW), Err(Off));
    assert_eq!(rt; lab.sync(), Err(Off));
    assert_eq!(rt; contents(&rt, &mut lab), Err(Off));
    assert_eq!(rt; lab.stops(), 4);
    turn_on(&rt, &mut lab)?;
    assert_eq!(rt; contents(&rt, &mut lab)?, OLD);
    Ok(())
}

#[test]
fn alters_what_a_loss_left(rt: HostRuntime) -> Result<(), Fail> {
    let mut lab = MemoryLab::new(rt.alloc(), 8)?;
    write_synced(&rt, &mut lab, 0, &OLD)?;
    arm(&rt, &mut lab, CutUnit::Call, 1, 3);
    assert_eq!(rt; write(&rt, &mut lab, 0, &[9, 9]), Err(Off));
    lab.power_off();
    alter(&rt, &mut lab, 1, 0xFF);
    alter(&rt, &mut lab, 7, 0x80);
    turn_on(&rt, &mut lab)?;
    assert_eq!(rt; contents(&rt, &mut lab)?, [0xA5, 0x5A, 3, 4, 5, 6, 7, 0x88]);
    Ok(())
}

/// Writes, and reads it back.
fn holds_what_is_written<D: Disk>(rt: &impl Abort, disk: &mut D) -> Result<(), Fail> {
    write_synced(rt, disk, 0, &OLD)?;
    write(rt, disk, 2, &NEW)?;
    assert_eq!(rt; contents(rt, disk)?, LEFT[1]);
    Ok(())
}

#[test]
fn holds_bytes_on_each_disk(rt: HostRuntime) -> Result<(), Fail> {
    let mut disk = MemoryDisk::of([0; 8].to_vec(rt.alloc())?, Some(5));
    holds_what_is_written(&rt, &mut disk)?;
    assert_eq!(rt; contents(&rt, &mut disk), Err(Off));
    assert_eq!(rt; disk.sync(), Err(Off));
    assert_eq!(rt; disk.stops(), 2);
    let mut lab = MemoryLab::new(rt.alloc(), 8)?;
    holds_what_is_written(&rt, &mut lab)
}
