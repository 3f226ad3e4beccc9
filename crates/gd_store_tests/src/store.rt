//! What no clause of gd_store says: that the calls succeed, the bytes of a copy, and what is found after a cut at each call.
ghost use Rattle.std.specs.Prelude.{◌≡◌, length, IfOk, OnOk};
ghost use Rattle.gd_disk.specs.Disk.{IsSynced};
ghost use Rattle.gd_store.specs.OpenAnswer.{IsOpenable};

use gd_disk::{
    COPY_LEN, CutUnit, DISK_LEN, Disk, FileDisk, LabDisk, MemoryDisk, MemoryLab, PAGE_COUNT,
    PAGE_LEN,
};
use gd_store::{Booted, CopyState, Found, Made, Opened, PageState, Room, Store, Why, boot};
use sha2::{Digest, Sha256};
use std::alloc::{AllocError, Global};
use std::fs;
use std::process::Abort;
use std::test::Fail;

const PAYLOAD_LEN: usize = PAGE_LEN * PAGE_COUNT;

/// The gate and the header of an open copy at sequence 0.
const HEADER: [u8; 17] = [
    0xA5, 0x47, 0x44, 0x43, 0x4D, 0, 0, 0, 32, 0, 0, 0, 0, 0, 0, 0, 0,
];

/// The digests of a page of 0x00 and of one of 0x1f, and the seal of a copy at sequence 0 whose page i has the byte i.
const PAGE_0: [u8; 32] = [
    0x07, 0x6a, 0x27, 0xc7, 0x9e, 0x5a, 0xce, 0x2a, 0x3d, 0x47, 0xf9, 0xdd, 0x2e, 0x83, 0xe4, 0xff,
    0x6e, 0xa8, 0x87, 0x2b, 0x3c, 0x22, 0x18, 0xf6, 0x6c, 0x92, 0xb8, 0x9b, 0x55, 0xf3, 0x65, 0x60,
];

const PAGE_31: [u8; 32] = [
    0x81, 0xc6, 0xf0, 0xca, 0x61, 0x22, 0xc3, 0x85, 0xf0, 0x42, 0x3c, 0x5c, 0xb8, 0x4e, 0x54, 0x18,
    0x8b, 0x2f, 0x43, 0x80, 0x03, 0xf5, 0x7a, 0x06, 0x5b, 0x8e, 0x94, 0xa6, 0x0d, 0x0b, 0x5f, 0x59,
];

const SEAL: [u8; 32] = [
    0x50, 0xf1, 0xe5, 0x56, 0xc9, 0xcc, 0x49, 0x93, 0xd5, 0x2d, 0x92, 0x72, 0x7e, 0x42, 0xe7, 0x80,
    0x8f, 0xaf, 0xe1, 0x73, 0x56, 0x5b, 0x8a, 0x73, 0x78, 0x42, 0x73, 0xc3, 0xbd, 0xdf, 0xf2, 0xd6,
];

/// A payload whose page i has the byte `first + i` all over.
fn payload(alloc: Global, first: u8) -> Result<Vec<u8>, AllocError>
    ensures { IfOk result (λ v. length v.items ≡ PAYLOAD_LEN) }
{
    let mut bytes = vec![in alloc; 0; PAYLOAD_LEN]?;
    for i in 0..PAYLOAD_LEN {
        bytes[i] = first.wrapping_add((i / PAGE_LEN) as u8);
    }
    Ok(bytes)
}

fn made<D: Disk + Drop>(rt: &impl Abort, disk: D, room: Room) -> Result<(D, Room), Fail>
    ensures { IfOk result (λ parts. IsSynced (D.state parts.0)) }
{
    assert!(rt; disk.len() == DISK_LEN);
    match Store::make(disk, room) {
        Made::Done { disk, room } => Ok((disk, room)),
        Made::Off { disk: _, room: _ } => Err(Fail::new("off while a memory was made")),
    }
}

fn opened<D: Disk + Drop>(rt: &impl Abort, disk: D, room: Room) -> Result<(Store<D>, Found), Fail>
    requires { IsOpenable (D.state disk) }
{
    assert!(rt; disk.len() == DISK_LEN);
    match Store::open(disk, room) {
        Opened::Ready { store, found } => Ok((store, found)),
        Opened::Lost {
            found: _,
            disk: _,
            room: _,
        } => Err(Fail::new("lost")),
        Opened::Off { disk: _, room: _ } => Err(Fail::new("off while a store was opened")),
    }
}

fn commit<D: Disk>(rt: &impl Abort, store: &mut Store<D>, payload: &[u8]) -> bool {
    assert!(rt; payload.len() == PAYLOAD_LEN);
    assert!(rt; store.sequence() < 1000);
    store.commit(payload).is_ok()
}

fn both(state: CopyState) -> Found {
    Found { a: state, b: state }
}

/// Makes, commits, closes, opens again and boots.
fn keeps<D: Disk + Drop>(rt: &impl Abort, alloc: Global, disk: D) -> Result<(), Fail> {
    let (first, second) = (payload(alloc, 1)?, payload(alloc, 50)?);
    let mut room = Room::new(alloc)?;
    room.payload_mut().copy_from_slice(&first);
    let (disk, room) = made(rt, disk, room)?;
    let (mut store, found) = opened(rt, disk, room)?;
    assert_eq!(rt; found, both(CopyState::Sound(0)));
    assert!(rt; store.payload() == first.as_slice());
    assert!(rt; commit(rt, &mut store, &second));
    assert_eq!(rt; (store.sequence(), store.stops()), (1, 0));
    assert!(rt; store.payload() == second.as_slice());
    assert!(rt; !store.is_stopped());
    let (disk, room) = store.close();
    assert!(rt; room.payload() == second.as_slice());
    let (store, found) = opened(rt, disk, room)?;
    assert_eq!(rt; found, both(CopyState::Sound(1)));
    assert!(rt; store.payload() == second.as_slice());
    let (mut disk, mut room) = store.close();
    assert!(rt; disk.len() == DISK_LEN);
    assert_eq!(rt;
        boot(&mut disk, &mut room),
        Booted::Ready { found, sequence: 1 }
    );
    Ok(())
}

#[test]
fn keeps_a_payload(rt: HostRuntime) -> Result<(), Fail> {
    let zeros = vec![in rt.alloc(); 0; DISK_LEN as usize]?;
    keeps(&rt, rt.alloc(), MemoryDisk::of(zeros, None))?;
    keeps(&rt, rt.alloc(), MemoryLab::new(rt.alloc(), DISK_LEN)?)
}

/// Whether the copy at this place of a disk is that of such a payload at sequence 0.
fn is_spelled<D: Disk>(
    rt: &impl Abort,
    disk: &mut D,
    at: u64,
    copy: &mut [u8],
    pages: &[u8],
) -> bool {
    assert!(rt; disk.len() == DISK_LEN);
    assert!(rt; copy.len() == COPY_LEN);
    assert!(rt; at <= COPY_LEN as u64);
    disk.read(at, copy).is_ok()
        && copy[..17] == HEADER[..]
        && copy[17..49] == PAGE_0[..]
        && copy[1009..1041] == PAGE_31[..]
        && copy[1041..1073] == SEAL[..]
        && copy[1073..] == pages[..]
}

#[test]
fn spells_a_copy(rt: HostRuntime) -> Result<(), Fail> {
    let pages = payload(rt.alloc(), 0)?;
    let mut room = Room::new(rt.alloc())?;
    room.payload_mut().copy_from_slice(&pages);
    let zeros = vec![in rt.alloc(); 0; DISK_LEN as usize]?;
    let (mut disk, _room) = made(&rt, MemoryDisk::of(zeros, None), room)?;
    let mut copy = vec![in rt.alloc(); 0; COPY_LEN]?;
    assert!(rt; is_spelled(&rt, &mut disk, 0, &mut copy, &pages));
    assert!(rt; is_spelled(&rt, &mut disk, COPY_LEN as u64, &mut copy, &pages));
    Ok(())
}

/// How a copy is to be found: sound with a payload, or bad.
#[derive(Clone, Copy, Debug, Drop)]
struct Given {
    state: CopyState,
    first: u8,
}

fn sound(sequence: u64, first: u8) -> Given {
    Given {
        state: CopyState::Sound(sequence),
        first,
    }
}

fn bad(why: Why) -> Given {
    Given {
        state: CopyState::Bad(why),
        first: 0,
    }
}

/// The open copy of these pages, as docs/FORMATS.md spells it.
fn sealed(alloc: Global, sequence: u64, pages: &[u8]) -> Result<Vec<u8>, AllocError>
    requires { length pages.now ≡ PAYLOAD_LEN }
{
    let mut body = Vec::new(alloc);
    body.extend_from_slice(&HEADER[1..9])?;
    body.extend_from_slice(&sequence.to_be_bytes())?;
    for i in 0..PAGE_COUNT {
        let digest = Sha256::digest(&pages[PAGE_LEN * i..PAGE_LEN * i + PAGE_LEN]);
        body.extend_from_slice(&digest)?;
    }
    let seal = Sha256::digest(&body);
    body.extend_from_slice(&seal)?;
    body.extend_from_slice(pages)?;
    let mut copy = Vec::new(alloc);
    copy.push(HEADER[0])?;
    copy.extend_from_slice(&body)?;
    Ok(copy)
}

/// Such a copy: one that is bad is a sound one with a byte altered.
fn copy_of(alloc: Global, given: Given) -> Result<Vec<u8>, AllocError> {
    let (sequence, altered) = match given.state {
        CopyState::Sound(sequence) => (sequence, None),
        CopyState::Bad(Why::Shut) => (9, Some((0, HEADER[0]))),
        CopyState::Bad(Why::BadHeader) => (9, Some((6, 1))),
        CopyState::Bad(Why::BadRoot) => (9, Some((1041, 1))),
        CopyState::Bad(Why::BadPage(page)) => (
            9,
            Some((1073 + PAGE_LEN * (page % 32) as usize, 1)),
        ),
    };
    let mut copy = sealed(alloc, sequence, &payload(alloc, given.first)?)?;
    if let Some((at, mask)) = altered {
        if let Some(byte) = copy.get_mut(at) {
            *byte ^= mask;
        }
    }
    Ok(copy)
}

/// The two copies, and the sequence and the payload that are booted.
fn pairs() -> [(Given, Given, Option<(u64, u8)>); 9] {
    [
        (sound(4, 1), sound(4, 1), Some((4, 1))),
        (sound(4, 1), sound(4, 2), None),
        (sound(4, 1), sound(5, 2), Some((5, 2))),
        (sound(5, 2), sound(4, 1), Some((5, 2))),
        (bad(Why::Shut), sound(4, 1), Some((4, 1))),
        (sound(4, 1), bad(Why::BadHeader), Some((4, 1))),
        (bad(Why::BadRoot), sound(4, 1), Some((4, 1))),
        (sound(4, 1), bad(Why::BadPage(3)), Some((4, 1))),
        (bad(Why::Shut), bad(Why::BadPage(31)), None),
    ]
}

/// Whether this is booted, with this payload.
fn boots_as<D: Disk>(
    rt: &impl Abort,
    alloc: Global,
    disk: &mut D,
    found: Found,
    booted: Option<(u64, u8)>,
) -> Result<bool, AllocError> {
    assert!(rt; disk.len() == DISK_LEN);
    let mut room = Room::new(alloc)?;
    let answer = boot(disk, &mut room);
    match booted {
        None => Ok(answer == Booted::Lost(found)),
        Some((sequence, first)) => {
            let kept = payload(alloc, first)?;
            Ok(answer == Booted::Ready { found, sequence } && room.payload()[..] == kept[..])
        }
    }
}

#[test]
fn boots_the_later_sound_copy(rt: HostRuntime) -> Result<(), Fail> {
    for (a, b, booted) in pairs() {
        let mut bytes = copy_of(rt.alloc(), a)?;
        bytes.extend_from_slice(&copy_of(rt.alloc(), b)?)?;
        let mut disk = MemoryDisk::of(bytes, None);
        let found = Found {
            a: a.state,
            b: b.state,
        };
        assert!(rt;
            boots_as(&rt, rt.alloc(), &mut disk, found, booted)?,
            "{a:?} {b:?}"
        );
    }
    Ok(())
}

fn turned_on<L: LabDisk>(rt: &impl Abort, lab: &mut L) -> Result<(), Fail>
    ensures { OnOk result (IsSynced (L.state lab.new)) }
{
    assert!(rt; !lab.powered());
    Ok(lab.power_on()?)
}

/// A cut, at call `count` of its unit.
#[derive(Clone, Copy, Debug, Drop)]
struct Cut {
    unit: CutUnit,
    count: u32,
    torn: u8,
}

fn arm<L: LabDisk>(rt: &impl Abort, lab: &mut L, cut: Cut) {
    assert!(rt; lab.cuts_armed() < 256);
    assert!(rt; cut.count >= 1);
    assert!(rt; cut.torn <= 3);
    lab.arm(cut.unit, cut.count, cut.torn);
}

/// A memory at sequence 1 in both copies, off, with a cut armed.
fn memory<L: LabDisk + Drop>(
    rt: &impl Abort,
    alloc: Global,
    lab: L,
    cut: Cut,
) -> Result<(L, Room), Fail> {
    let (lab, room) = made(rt, lab, Room::new(alloc)?)?;
    let (mut store, _found) = opened(rt, lab, room)?;
    assert!(rt; commit(rt, &mut store, &payload(alloc, 1)?));
    let (mut lab, room) = store.close();
    lab.power_off();
    arm(rt, &mut lab, cut);
    Ok((lab, room))
}

/// What is booted after a loss of power now.
fn boot_after<L: LabDisk>(rt: &impl Abort, lab: &mut L, room: &mut Room) -> Result<Booted, Fail> {
    lab.power_off();
    turned_on(rt, lab)?;
    assert!(rt; lab.len() == DISK_LEN);
    Ok(boot(lab, room))
}

/// What is found after a loss of power now.
fn found_after<L: LabDisk + Drop>(rt: &impl Abort, lab: L, room: Room) -> Result<Found, Fail> {
    let mut lab = lab;
    let mut room = room;
    match boot_after(rt, &mut lab, &mut room)? {
        Booted::Ready { found, sequence: _ } => Ok(found),
        Booted::Lost(found) => Ok(found),
        Booted::Off => Err(Fail::new("off in a boot")),
    }
}

/// The payload at sequence 1 with two pages changed, the first and the last.
fn changed(alloc: Global) -> Result<Vec<u8>, AllocError>
    ensures { IfOk result (λ v. length v.items ≡ PAYLOAD_LEN) }
{
    let mut bytes = payload(alloc, 1)?;
    bytes[0] ^= 1;
    bytes[PAYLOAD_LEN - 1] ^= 1;
    Ok(bytes)
}

/// Whether a commit to sequence 2 succeeds under a cut, where two pages have changed, and what is found after it. A
/// commit after it fails by one call, and so does the check of a page.
fn commit_under<L: LabDisk + Drop>(
    rt: &impl Abort,
    alloc: Global,
    lab: L,
    cut: Cut,
) -> Result<(bool, Found), Fail> {
    let (mut lab, room) = memory(rt, alloc, lab, cut)?;
    turned_on(rt, &mut lab)?;
    let (mut store, _found) = opened(rt, lab, room)?;
    let is_done = commit(rt, &mut store, &changed(alloc)?);
    if store.is_stopped() {
        let before = store.stops();
        assert!(rt; !commit(rt, &mut store, &payload(alloc, 3)?));
        assert!(rt; store.check_page(0).is_err());
        assert!(rt; store.stops() == before.saturating_add(2));
    }
    let (lab, room) = store.close();
    Ok((is_done, found_after(rt, lab, room)?))
}

/// The same of a making.
fn make_under<L: LabDisk + Drop>(
    rt: &impl Abort,
    alloc: Global,
    lab: L,
    cut: Cut,
) -> Result<(bool, Found), Fail> {
    let (mut lab, room) = memory(rt, alloc, lab, cut)?;
    turned_on(rt, &mut lab)?;
    assert!(rt; lab.len() == DISK_LEN);
    match Store::make(lab, room) {
        Made::Done { disk, room } => Ok((true, found_after(rt, disk, room)?)),
        Made::Off { disk, room } => Ok((false, found_after(rt, disk, room)?)),
    }
}

/// What a copy is found to be after a cut at call `call` of the six that write it over another, torn in this way.
fn written(call: u32, torn: u8, old: CopyState, new: CopyState) -> CopyState {
    let shut = CopyState::Bad(Why::Shut);
    match call {
        0 => old,
        1 | 2 => { if torn == 1 { shut } else { old } }
        3 | 4 => shut,
        5 | 6 => { if torn == 1 || torn == 3 { new } else { shut } }
        _ => new,
    }
}

/// Of the calls that write a copy of which two pages have changed, the one of the six that it stands for: the front and
/// the pages, calls 3 to 5, are written in place of a body.
fn of_six(call: u32) -> u32 {
    match call {
        0..=2 => call,
        3..=5 => 3,
        _ => call.saturating_sub(2),
    }
}

/// After a cut at a call of a commit, of which the first eight write copy a.
fn left_by_commit(call: u32, torn: u8) -> Found {
    let (old, new) = (CopyState::Sound(1), CopyState::Sound(2));
    Found {
        a: written(of_six(call), torn, old, new),
        b: written(of_six(call.saturating_sub(8)), torn, old, new),
    }
}

/// After one at a call of a making: the first three shut both gates, and four write each copy.
fn left_by_making(call: u32, torn: u8) -> Found {
    let (old, new) = (CopyState::Sound(1), CopyState::Sound(0));
    let shut = CopyState::Bad(Why::Shut);
    match call {
        0 | 1 => Found {
            a: written(call, torn, old, new),
            b: old,
        },
        2 | 3 => both(written(1, torn, old, new)),
        _ => Found {
            a: written(call.saturating_sub(1), torn, shut, new),
            b: written(call.saturating_sub(5), torn, shut, new),
        },
    }
}

/// A cut at call `call`, and one at sync `sync`.
fn by_calls(call: u32, torn: u8) -> Cut {
    Cut {
        unit: CutUnit::Call,
        count: call,
        torn,
    }
}

fn by_syncs(sync: u32, torn: u8) -> Cut {
    Cut {
        unit: CutUnit::Sync,
        count: sync,
        torn,
    }
}

#[test]
fn a_cut_at_each_call_of_a_commit(rt: HostRuntime) -> Result<(), Fail> {
    for torn in 0..4 {
        for call in 1..18 {
            let lab = MemoryLab::new(rt.alloc(), DISK_LEN)?;
            let (is_done, found) = commit_under(&rt, rt.alloc(), lab, by_calls(call, torn))?;
            assert_eq!(rt; is_done, call == 17, "{call} {torn}");
            assert_eq!(rt; found, left_by_commit(call, torn), "{call} {torn}");
        }
    }
    Ok(())
}

/// The syncs of a commit follow the shutting of a gate, the pages and the opening of the gate.
#[test]
fn a_cut_at_each_sync_of_a_commit(rt: HostRuntime) -> Result<(), Fail> {
    for torn in 0..4 {
        for (sync, call) in [(1, 2), (2, 6), (3, 8), (4, 10), (5, 14), (6, 16)] {
            let lab = MemoryLab::new(rt.alloc(), DISK_LEN)?;
            let (is_done, found) = commit_under(&rt, rt.alloc(), lab, by_syncs(sync, torn))?;
            assert!(rt; !is_done, "{sync} {torn}");
            assert_eq!(rt; found, left_by_commit(call, torn), "{sync} {torn}");
        }
    }
    Ok(())
}

#[test]
fn a_cut_at_each_call_of_a_making(rt: HostRuntime) -> Result<(), Fail> {
    for torn in 0..4 {
        for call in 1..13 {
            let lab = MemoryLab::new(rt.alloc(), DISK_LEN)?;
            let (is_done, found) = make_under(&rt, rt.alloc(), lab, by_calls(call, torn))?;
            assert_eq!(rt; is_done, call == 12, "{call} {torn}");
            assert_eq!(rt; found, left_by_making(call, torn), "{call} {torn}");
        }
    }
    Ok(())
}

#[test]
fn a_cut_at_each_sync_of_a_making(rt: HostRuntime) -> Result<(), Fail> {
    for torn in 0..4 {
        for (sync, call) in [(1, 3), (2, 5), (3, 7), (4, 9), (5, 11)] {
            let lab = MemoryLab::new(rt.alloc(), DISK_LEN)?;
            let (is_done, found) = make_under(&rt, rt.alloc(), lab, by_syncs(sync, torn))?;
            assert!(rt; !is_done, "{sync} {torn}");
            assert_eq!(rt; found, left_by_making(call, torn), "{sync} {torn}");
        }
    }
    Ok(())
}

/// The places of the two copies, and of a byte of page 3 in a copy.
const COPY_A: u64 = 0;

const COPY_B: u64 = COPY_LEN as u64;

const PAGE_3: u64 = 1073 + 3 * PAGE_LEN as u64;

/// The bytes that the copy at this place has after a loss of power now. The power is off again after it.
fn copy_found<L: LabDisk>(
    rt: &impl Abort,
    alloc: Global,
    lab: &mut L,
    at: u64,
) -> Result<Vec<u8>, Fail> {
    lab.power_off();
    turned_on(rt, lab)?;
    assert!(rt; lab.len() == DISK_LEN);
    assert!(rt; at <= COPY_B);
    let mut copy = vec![in alloc; 0; COPY_LEN]?;
    assert!(rt; lab.read(at, &mut copy).is_ok());
    lab.power_off();
    Ok(copy)
}

/// Opens a store, and gives the disk back: whether it was opened.
fn open_and_close<D: Disk + Drop>(rt: &impl Abort, disk: D, room: Room) -> Result<(bool, D), Fail>
    requires { IsOpenable (D.state disk) }
{
    assert!(rt; disk.len() == DISK_LEN);
    match Store::open(disk, room) {
        Opened::Ready { store, found: _ } => Ok((true, store.close().0)),
        Opened::Off { disk, room: _ } => Ok((false, disk)),
        Opened::Lost {
            found: _,
            disk: _,
            room: _,
        } => Err(Fail::new("lost")),
    }
}

/// Alters a byte of page 3 of the copy at this place.
fn alter_page<L: LabDisk>(rt: &impl Abort, lab: &mut L, at: u64) {
    assert!(rt; !lab.powered());
    assert!(rt; lab.len() == DISK_LEN);
    assert!(rt; at <= COPY_B);
    lab.alter(at + PAGE_3, 1);
}

/// Whether an opening succeeds under a cut, where page 3 of the copy at `bad` was altered and the copy at `sound` holds
/// the payload at sequence 1, and what is booted after it. That payload is booted, and the sound copy stays as it was.
fn repair_under<L: LabDisk + Drop>(
    rt: &impl Abort,
    alloc: Global,
    lab: L,
    cut: Cut,
    bad: u64,
    sound: u64,
) -> Result<(bool, Booted), Fail> {
    let (mut lab, room) = memory(rt, alloc, lab, cut)?;
    let before = copy_found(rt, alloc, &mut lab, sound)?;
    alter_page(rt, &mut lab, bad);
    turned_on(rt, &mut lab)?;
    let (is_done, mut lab) = open_and_close(rt, lab, room)?;
    let mut room = Room::new(alloc)?;
    let booted = boot_after(rt, &mut lab, &mut room)?;
    assert!(rt; room.payload()[..] == payload(alloc, 1)?[..], "{cut:?}");
    assert!(rt;
        copy_found(rt, alloc, &mut lab, sound)? == before,
        "{cut:?}"
    );
    Ok((is_done, booted))
}

/// The cuts of a repair, each with the call that it falls on: the six calls, and the three syncs among them, which are
/// each second call. The cut behind each of them comes too late.
fn cuts_of_a_repair(torn: u8) -> [(Cut, u32); 11] {
    [
        (by_calls(1, torn), 1),
        (by_calls(2, torn), 2),
        (by_calls(3, torn), 3),
        (by_calls(4, torn), 4),
        (by_calls(5, torn), 5),
        (by_calls(6, torn), 6),
        (by_calls(7, torn), 7),
        (by_syncs(1, torn), 2),
        (by_syncs(2, torn), 4),
        (by_syncs(3, torn), 6),
        (by_syncs(4, torn), 7),
    ]
}

/// What the copy that is repaired is found to be after a cut at this call.
fn left_by_repair(call: u32, torn: u8) -> CopyState {
    written(
        call,
        torn,
        CopyState::Bad(Why::BadPage(3)),
        CopyState::Sound(1),
    )
}

#[test]
fn a_cut_in_a_repair_of_copy_a(rt: HostRuntime) -> Result<(), Fail> {
    for torn in 0..4 {
        for (cut, call) in cuts_of_a_repair(torn) {
            let lab = MemoryLab::new(rt.alloc(), DISK_LEN)?;
            let (is_done, booted) = repair_under(&rt, rt.alloc(), lab, cut, COPY_A, COPY_B)?;
            let found = Found {
                a: left_by_repair(call, torn),
                b: CopyState::Sound(1),
            };
            assert_eq!(rt; is_done, call == 7, "{cut:?}");
            assert_eq!(rt; booted, Booted::Ready { found, sequence: 1 }, "{cut:?}");
        }
    }
    Ok(())
}

#[test]
fn a_cut_in_a_repair_of_copy_b(rt: HostRuntime) -> Result<(), Fail> {
    for torn in 0..4 {
        for (cut, call) in cuts_of_a_repair(torn) {
            let lab = MemoryLab::new(rt.alloc(), DISK_LEN)?;
            let (is_done, booted) = repair_under(&rt, rt.alloc(), lab, cut, COPY_B, COPY_A)?;
            let found = Found {
                a: CopyState::Sound(1),
                b: left_by_repair(call, torn),
            };
            assert_eq!(rt; is_done, call == 7, "{cut:?}");
            assert_eq!(rt; booted, Booted::Ready { found, sequence: 1 }, "{cut:?}");
        }
    }
    Ok(())
}

/// Arms a cut through a store, and commits: whether it succeeds, and how many cuts are armed before and after it.
fn cut_in_a_store<L: LabDisk + Drop>(
    rt: &impl Abort,
    alloc: Global,
    lab: L,
) -> Result<(bool, u32, u32), Fail> {
    let (lab, room) = made(rt, lab, Room::new(alloc)?)?;
    let (mut store, _found) = opened(rt, lab, room)?;
    assert!(rt; store.cuts_armed() < 256);
    store.arm(CutUnit::Sync, 6, 1);
    let before = store.cuts_armed();
    let is_done = commit(rt, &mut store, &payload(alloc, 1)?);
    Ok((is_done, before, store.cuts_armed()))
}

#[test]
fn a_cut_armed_through_a_store(rt: HostRuntime) -> Result<(), Fail> {
    let lab = MemoryLab::new(rt.alloc(), DISK_LEN)?;
    assert_eq!(rt; cut_in_a_store(&rt, rt.alloc(), lab)?, (false, 1, 0));
    Ok(())
}

/// The bytes of a disk with no memory.
fn blank(alloc: Global) -> Result<Vec<u8>, AllocError> {
    vec![in alloc; 0; DISK_LEN as usize]
}

/// A memory in a file, seen by a second opening and by a read of the file.
#[test]
fn keeps_a_payload_in_a_file(rt: HostRuntime) -> Result<(), Fail> {
    let path = "store_kept";
    fs::write(&rt, path, blank(rt.alloc())?.as_slice())?;
    keeps(&rt, rt.alloc(), FileDisk::at(&rt, path))?;
    let kept = payload(rt.alloc(), 50)?;
    let (store, found) = opened(&rt, FileDisk::at(&rt, path), Room::new(rt.alloc())?)?;
    assert_eq!(rt; found, both(CopyState::Sound(1)));
    assert_eq!(rt; store.stops(), 0);
    assert!(rt; store.payload() == kept.as_slice());
    let copy = copy_of(rt.alloc(), sound(1, 50))?;
    let bytes = fs::read(&rt, path)?;
    assert!(rt; bytes.starts_with(&copy));
    assert!(rt; bytes.ends_with(&copy));
    fs::remove_file(&rt, path)?;
    Ok(())
}

/// What is told of two pages of an open store.
fn told_of_pages<D: Disk>(store: &mut Store<D>) -> Result<(PageState, PageState), Fail> {
    match (store.check_page(3), store.check_page(4)) {
        (Ok(third), Ok(fourth)) => Ok((third, fourth)),
        (_, _) => Err(Fail::new("off in a check")),
    }
}

/// Bytes of page 3 of copy b and of page 4 of copy a are altered in the file of an open store.
#[test]
fn tells_an_altered_page(rt: HostRuntime) -> Result<(), Fail> {
    let path = "store_checked";
    fs::write(&rt, path, blank(rt.alloc())?.as_slice())?;
    let (disk, room) = made(&rt, FileDisk::at(&rt, path), Room::new(rt.alloc())?)?;
    let (mut store, _found) = opened(&rt, disk, room)?;
    assert!(rt; commit(&rt, &mut store, &changed(rt.alloc())?));
    let both_hold = PageState { a: true, b: true };
    assert_eq!(rt; told_of_pages(&mut store)?, (both_hold, both_hold));
    let mut bytes = fs::read(&rt, path)?;
    assert!(rt; bytes.len() == DISK_LEN as usize);
    bytes[COPY_LEN + 1073 + 3 * PAGE_LEN] ^= 1;
    bytes[1073 + 4 * PAGE_LEN + 511] ^= 0x80;
    fs::write(&rt, path, bytes.as_slice())?;
    let only_a = PageState { a: true, b: false };
    let only_b = PageState { a: false, b: true };
    assert_eq!(rt; told_of_pages(&mut store)?, (only_a, only_b));
    assert!(rt; !store.is_stopped());
    fs::remove_file(&rt, path)?;
    Ok(())
}
