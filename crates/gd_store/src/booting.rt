//! What a disk boots to, with the payload in a room.

ghost use Rattle.std.specs.Prelude.{◌≡◌, true, OnOk, OnErr, Some, None, ◌≤◌, length, IfOk};
ghost use Rattle.gd_disk.specs.Disk.{IfTold, Unchanged, Answers, Rose};
ghost use Rattle.gd_disk.specs.CutRuns.{RunOf};
ghost use Rattle.gd_disk.specs.Runs.{LeavesOnly};
ghost use Rattle.gd_store.specs.Copy.{stored_payload, copy_len, state_of, lowest_bad, stored_sequence, copy_a, copy_b, latest_copy, LiesWithin};
ghost use Rattle.gd_store.specs.Choice.{choice_meaning};
ghost use Rattle.gd_store.specs.Booting.{BootedAs, outcome, BootedCopies, IsLatest, with_payload};
ghost use Rattle.gd_store.specs.Lost.{IsLost, IsLostWhere, LostFinds};
ghost use Rattle.gd_store.specs.Reads.{HasReadBoth, HasReadFewer};
ghost use Rattle.gd_store.specs.Room.{room_payload};
ghost use Rattle.gd_store.specs.Writing.{From};

use crate::copy::layout::{MOST_PAGES, OPEN};
use crate::copy::sealing::header_prefix;
use crate::{CopyState, Found, LAYOUT, Layout, Room, Why};
use gd_disk::{DIGEST_LEN, DIGESTS_AT, DISK_LEN, Disk, FRAME_LEN, Off, PAGE_LEN};
use sha2::{Digest, Sha256};

/// What a boot answers.
#[derive(Clone, Copy, PartialEq, Eq, Debug, Drop)]
pub enum Booted {
    /// A copy is booted, at this sequence.
    Ready { found: Found, sequence: u64 },
    /// No copy is sound, or both are at one sequence with different payloads.
    Lost(Found),
    /// A read failed, and the disk is off.
    Off,
}

/// Reads both copies, and writes nothing to the disk. At Ready the room holds the payload of the sound copy with
/// the later sequence. Lost comes exactly where no copy is sound, or both are at one sequence with different payloads.
/// Off comes where a read failed.
pub fn boot<D: Disk>(disk: &mut D, room: &mut Room) -> Booted
    requires size { (D.state disk.old).size ≡ DISK_LEN }
    ensures what { IfTold (D.state disk.old).seen (BootedAs LAYOUT result (room_payload room.new)) }
    ensures copies { IfTold (D.state disk.old).seen (BootedCopies LAYOUT result room.new) }
    ensures lost { IfTold (D.state disk.old).seen (λ image. IsLostWhere result (IsLost LAYOUT image)) }
    ensures lost_states { LostFinds result }
    ensures latest { IsLatest result }
    ensures seen { OnOk (outcome result) ((D.state disk.new).seen ≡ (D.state disk.old).seen) }
    ensures any_moment { LeavesOnly (D.state disk.old) (D.state disk.new) (From (D.state disk.old) Unchanged) }
    ensures answer { Answers (outcome result) (D.state disk.old) (D.state disk.new) }
    ensures syncs { (D.state disk.new).syncs ≡ (D.state disk.old).syncs }
    ensures armed { (D.state disk.new).armed ≡ (D.state disk.old).armed }
    ensures fault { OnErr (outcome result) ((D.state disk.old).is_on ≡ true
        → Rose (D.state disk.old).faults (D.state disk.new).faults) }
    ensures run { RunOf 0 (outcome result) (D.state disk.old) (D.state disk.new) }
    ensures read { OnOk (outcome result) (HasReadBoth (D.state disk.old).reads (D.state disk.new).reads) }
    ensures read_fewer { OnErr (outcome result) (HasReadFewer (D.state disk.old).reads (D.state disk.new).reads) }
{
    match read_copies(disk, LAYOUT, &mut room.a, &mut room.b) {
        Err(Off) => Booted::Off,
        Ok(read) => {
            let found = Found {
                a: read.a,
                b: read.b,
            };
            match take_payload(room, read.choice) {
                Some(sequence) => Booted::Ready { found, sequence },
                None => Booted::Lost(found),
            }
        }
    }
}

/// Copies the payload of the booted copy.
fn take_payload(room: &mut Room, choice: Choice) -> Option<u64>
    ensures booted { choice_meaning choice (stored_payload LAYOUT room.old.a.items)
        (stored_payload LAYOUT room.old.b.items) ≡ with_payload result room.new.payload.items }
    ensures a { room.new.a.items ≡ room.old.a.items }
    ensures b { room.new.b.items ≡ room.old.b.items }
{
    let first = FRAME_LEN + DIGEST_LEN * LAYOUT.pages as usize;
    match choice {
        Choice::CopyA(sequence) => {
            room.payload.copy_from_slice(&room.a[first..]);
            Some(sequence)
        }
        Choice::CopyB(sequence) => {
            room.payload.copy_from_slice(&room.b[first..]);
            Some(sequence)
        }
        Choice::Lost => None,
    }
}

/// The sequence in the header of a copy.
fn sequence(copy: &[u8]) -> u64
    requires { DIGESTS_AT ≤ length copy.now }
    ensures { result ≡ stored_sequence copy.now }
{
    let mut bytes = [0; 8];
    bytes.copy_from_slice(&copy[9..DIGESTS_AT]);
    u64::from_be_bytes(bytes)
}

/// The lowest page whose digest isn't the kept one.
fn lowest_bad_page(layout: Layout, copy: &[u8]) -> Option<u8>
    requires length { length copy.now ≡ copy_len layout.pages }
    requires pages { layout.pages ≤ MOST_PAGES }
    ensures { result ≡ lowest_bad layout copy.now 0 layout.pages }
{
    let pages = layout.pages as usize;
    let first = FRAME_LEN + DIGEST_LEN * pages;
    for i in 0..pages {
        let digest = Sha256::digest(&copy[first + PAGE_LEN * i..first + PAGE_LEN * i + PAGE_LEN]);
        let kept = DIGESTS_AT + DIGEST_LEN * i;
        if digest[..] != copy[kept..kept + DIGEST_LEN] {
            return Some(i as u8);
        }
    }
    None
}

/// What a copy is: the first of the causes that applies, or sound.
#[tactic(auto, unfolding(crate::specs::Copy::state_of, crate::specs::Copy::stored_head, crate::specs::Copy::stored_seal))]
pub(crate) fn state(layout: Layout, copy: &[u8]) -> CopyState
    requires length { length copy.now ≡ copy_len layout.pages }
    requires pages { layout.pages ≤ MOST_PAGES }
    ensures { result ≡ state_of layout copy.now }
{
    if copy[0] != OPEN {
        return CopyState::Bad(Why::Shut);
    }
    if copy[1..9] != header_prefix(layout)[..] {
        return CopyState::Bad(Why::BadHeader);
    }
    let head = DIGESTS_AT + DIGEST_LEN * layout.pages as usize;
    let seal = Sha256::digest(&copy[1..head]);
    if seal[..] != copy[head..head + DIGEST_LEN] {
        return CopyState::Bad(Why::BadRoot);
    }
    match lowest_bad_page(layout, copy) {
        Some(page) => CopyState::Bad(Why::BadPage(page)),
        None => CopyState::Sound(sequence(copy)),
    }
}

/// Which of two copies is booted, at its sequence.
#[derive(Clone, Copy, PartialEq, Eq, Debug, Drop)]
pub(crate) enum Choice {
    CopyA(u64),
    CopyB(u64),
    Lost,
}

/// Of two copies with these states and payloads, the sound one with the later sequence.
fn choose(a: CopyState, b: CopyState, payload_a: &[u8], payload_b: &[u8]) -> Choice
    ensures { choice_meaning result payload_a.now payload_b.now ≡ latest_copy a b payload_a.now payload_b.now }
{
    match (a, b) {
        (CopyState::Sound(m), CopyState::Sound(n)) => {
            if m < n {
                Choice::CopyB(n)
            } else if n < m {
                Choice::CopyA(m)
            } else if payload_a == payload_b {
                Choice::CopyA(m)
            } else {
                Choice::Lost
            }
        }
        (CopyState::Sound(m), CopyState::Bad(_)) => Choice::CopyA(m),
        (CopyState::Bad(_), CopyState::Sound(n)) => Choice::CopyB(n),
        (CopyState::Bad(_), CopyState::Bad(_)) => Choice::Lost,
    }
}

/// What was read: the states of the two copies, and which is booted.
#[derive(Drop)]
pub(crate) struct Read {
    pub(crate) a: CopyState,
    pub(crate) b: CopyState,
    pub(crate) choice: Choice,
}

/// Reads both copies, and says which is booted.
pub(crate) fn read_copies<D: Disk>(
    disk: &mut D,
    layout: Layout,
    a: &mut [u8],
    b: &mut [u8],
) -> Result<Read, Off>
    requires within { LiesWithin layout (D.state disk.old).size }
    requires a_len { length a.old ≡ copy_len layout.pages }
    requires b_len { length b.old ≡ copy_len layout.pages }
    requires pages { layout.pages ≤ MOST_PAGES }
    ensures copies { OnOk result (IfTold (D.state disk.old).seen (λ image. (a.new ≡ copy_a layout image)
        × (b.new ≡ copy_b layout image))) }
    ensures states { IfOk result (λ r. (r.a ≡ state_of layout a.new) × (r.b ≡ state_of layout b.new)) }
    ensures choice { IfOk result (λ r. choice_meaning r.choice (stored_payload layout a.new)
        (stored_payload layout b.new)
        ≡ latest_copy r.a r.b (stored_payload layout a.new) (stored_payload layout b.new)) }
    ensures seen { OnOk result ((D.state disk.new).seen ≡ (D.state disk.old).seen) }
    ensures any_moment { LeavesOnly (D.state disk.old) (D.state disk.new) (From (D.state disk.old) Unchanged) }
    ensures answer { Answers result (D.state disk.old) (D.state disk.new) }
    ensures syncs { (D.state disk.new).syncs ≡ (D.state disk.old).syncs }
    ensures armed { (D.state disk.new).armed ≡ (D.state disk.old).armed }
    ensures fault { OnErr result ((D.state disk.old).is_on ≡ true
        → Rose (D.state disk.old).faults (D.state disk.new).faults) }
    ensures run { RunOf 0 result (D.state disk.old) (D.state disk.new) }
    ensures read { OnOk result (HasReadBoth (D.state disk.old).reads (D.state disk.new).reads) }
    ensures read_fewer { OnErr result (HasReadFewer (D.state disk.old).reads (D.state disk.new).reads) }
{
    disk.read(layout.a, a)?;
    disk.read(layout.b, b)?;
    let state_a = state(layout, a);
    let state_b = state(layout, b);
    let first = FRAME_LEN + DIGEST_LEN * layout.pages as usize;
    let choice = choose(state_a, state_b, &a[first..], &b[first..]);
    Ok(Read {
        a: state_a,
        b: state_b,
        choice,
    })
}
