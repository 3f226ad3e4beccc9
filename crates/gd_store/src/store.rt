//! A payload in both copies on a disk.

ghost use Rattle.std.specs.Prelude.{◌≡◌, true, false};
ghost use Rattle.gd_disk.specs.Disk.{IsSynced};
ghost use Rattle.gd_disk.specs.declared.lengths.TheConstants.{DISK_LEN, PAGE_COUNT};
ghost use Rattle.gd_store.specs.declared.copy.layout.TheConstants.{LAYOUT};
ghost use Rattle.gd_store.specs.Copy.{digests, Holds};

use crate::copy::changing::write_both;
use crate::{LAYOUT, MOST_SEQUENCE, Room};
use gd_disk::{
    CutUnit, DIGEST_LEN, Disk, HEADER_LEN, LabDisk, MOST_CUTS, MOST_TORN, Off, PAGE_COUNT, PAGE_LEN,
};

/// Bytes in the digests of a payload.
pub(crate) const DIGESTS_LEN: usize = DIGEST_LEN * PAGE_COUNT;

/// Bytes in what stands between the gate and the pages of a copy.
const FRONT_LEN: usize = HEADER_LEN + DIGESTS_LEN + DIGEST_LEN;

/// A payload that both copies on a disk hold at one sequence, until a call to the disk fails. From then on nothing
/// is committed. The digests of its pages are kept, one after another.
#[derive(Drop)]
pub struct Store<D: Disk> {
    pub(crate) disk: D,
    pub(crate) room: Room,
    pub(crate) sequence: u64,
    pub(crate) is_stopped: bool,
    pub(crate) kept: [u8; DIGESTS_LEN],
    ghost size: { (D.state disk).size ≡ DISK_LEN },
    ghost synced: { is_stopped ≡ false → IsSynced (D.state disk) },
    ghost holds: { is_stopped ≡ false → Holds LAYOUT sequence room.payload.items (D.state disk).seen },
    ghost is_off: { is_stopped ≡ true → (D.state disk).is_on ≡ false },
    ghost are_kept: { kept ≡ digests PAGE_COUNT room.payload.items },
}

impl<D: Disk> Store<D> {
    ghost use Rattle.std.specs.Prelude.{◌*◌, List, ℕ, Some, length, ◌⊎◌, ◌+◌, ◌<◌, ◌^◌, OnOk, OnErr, IsErr};
    ghost use Rattle.gd_disk.specs.declared.lengths.TheConstants.{PAGE_COUNT, PAGE_LEN};
    ghost use Rattle.gd_store.specs.Changes.{PagesStand};
    ghost use Rattle.gd_store.specs.Copy.{HoldsBoth, boots};
    ghost use Rattle.gd_store.specs.Room.{room_payload};
    ghost use Rattle.gd_store.specs.Store.{store_disk, store_payload, store_sequence, store_stopped};
    ghost use Rattle.gd_disk.specs.Disk.{IfTold, Unchanged, Answers, next_count};
    ghost use Rattle.gd_disk.specs.CutRuns.{RunOf};
    ghost use Rattle.gd_disk.specs.Runs.{LeavesOnly};
    ghost use Rattle.gd_store.specs.Writing.{From, IsCommitting};

    /// The payload that was last booted or committed, also after a call that failed: `PAGE_COUNT` pages of
    /// `PAGE_LEN` bytes.
    pub fn payload(&self) -> &[u8]
        ensures value { result.now ≡ store_payload self.now }
        ensures length { length result.now ≡ PAGE_LEN * PAGE_COUNT }
    {
        &self.room.payload
    }

    /// The sequence of the payload.
    pub fn sequence(&self) -> u64
        ensures value { result ≡ store_sequence self.now }
    {
        self.sequence
    }

    /// Whether a call has failed. Where none has, each image that a loss of power may leave holds the payload in both
    /// copies.
    pub fn is_stopped(&self) -> bool
        ensures value { result ≡ store_stopped self.now }
        ensures settled { store_stopped self.now ≡ false → (image : List ℕ)
            → (D.state (store_disk self.now)).may_find image →
            HoldsBoth LAYOUT (store_sequence self.now) (store_payload self.now) image
            × (boots LAYOUT image ≡ Some (store_sequence self.now, store_payload self.now)) }
    {
        self.is_stopped
    }

    /// How many calls to the disk have failed.
    pub fn stops(&self) -> u64
        ensures { result ≡ (D.state (store_disk self.now)).stops }
    {
        self.disk.stops()
    }

    /// Gives the disk and the room back. The room has the payload. The disk of a stopped store is off.
    pub fn close(self) -> (D, Room)
        ensures disk { result.0 ≡ store_disk self }
        ensures payload { room_payload result.1 ≡ store_payload self }
        ensures synced { store_stopped self ≡ false → IsSynced (D.state result.0) }
        ensures off { store_stopped self ≡ true → (D.state result.0).is_on ≡ false }
        ensures settled { store_stopped self ≡ false → (image : List ℕ) → (D.state result.0).seen ≡ Some image
            → HoldsBoth LAYOUT (store_sequence self) (store_payload self) image }
    {
        (self.disk, self.room)
    }

    /// Writes a payload of `PAGE_COUNT` pages of `PAGE_LEN` bytes over both copies, with the sequence raised by one.
    /// At Ok both copies hold it in each image that a loss of power may leave, and six syncs were made. The error comes
    /// where a call to the disk failed: now, or at an earlier commit. Then the store is stopped, and has the payload
    /// that it had before.
    pub fn commit(&mut self, payload: &[u8]) -> Result<(), Off>
        requires length { length payload.now ≡ PAGE_LEN * PAGE_COUNT }
        requires sequence { store_sequence self.old < MOST_SEQUENCE }
        ensures committed { OnOk result ((store_sequence self.new ≡ store_sequence self.old + 1)
            × (store_payload self.new ≡ payload.now) × (store_stopped self.new ≡ false)) }
        ensures stays { OnErr result ((store_sequence self.new ≡ store_sequence self.old)
            × (store_payload self.new ≡ store_payload self.old) × (store_stopped self.new ≡ true)) }
        ensures after_off { store_stopped self.old ≡ true
            → IsErr result × ((D.state (store_disk self.old)).is_on ≡ false)
            × ((D.state (store_disk self.new)).stops ≡ next_count (D.state (store_disk self.old)).stops)
            × LeavesOnly (D.state (store_disk self.old)) (D.state (store_disk self.new)) (From
            (D.state (store_disk self.old)) Unchanged) }
        ensures any_moment { store_stopped self.old ≡ false
            → LeavesOnly (D.state (store_disk self.old)) (D.state (store_disk self.new))
            (λ image. (boots LAYOUT image ≡ Some (store_sequence self.old, store_payload self.old))
            ⊎ (boots LAYOUT image ≡ Some (store_sequence self.old + 1, payload.now))) }
        ensures order { store_stopped self.old ≡ false
            → LeavesOnly (D.state (store_disk self.old)) (D.state (store_disk self.new))
            (IsCommitting LAYOUT (store_sequence self.old, store_payload self.old)
            (store_sequence self.old + 1, payload.now)) }
        ensures pages { store_stopped self.old ≡ false
            → LeavesOnly (D.state (store_disk self.old)) (D.state (store_disk self.new))
            (PagesStand LAYOUT (store_payload self.old) payload.now) }
        ensures answer { Answers result (D.state (store_disk self.old)) (D.state (store_disk self.new)) }
        ensures fewer { OnErr result ((D.state (store_disk self.new)).syncs <
            (D.state (store_disk self.old)).syncs + 6) }
        ensures run { RunOf 6 result (D.state (store_disk self.old)) (D.state (store_disk self.new)) }
        ensures reads { (D.state (store_disk self.new)).reads ≡ (D.state (store_disk self.old)).reads }
    {
        if self.is_stopped {
            self.disk.sync()?;
            return Err(Off);
        }
        let mut front = [0; FRONT_LEN];
        match write_both(
            &mut self.disk,
            LAYOUT,
            self.sequence,
            &self.room.payload,
            payload,
            &self.kept,
            &mut front,
        ) {
            Ok(()) => {
                let digests = &front[HEADER_LEN..HEADER_LEN + DIGESTS_LEN];
                self.kept.copy_from_slice(digests);
                self.room.payload.copy_from_slice(payload);
                self.sequence += 1;
                Ok(())
            }
            Err(off) => {
                self.is_stopped = true;
                Err(off)
            }
        }
    }
}

impl<L: LabDisk> Store<L> {
    ghost use Rattle.std.specs.Prelude.{◌≤◌, ◌<◌, ◌++◌, ◌∷◌, [], length};
    ghost use Rattle.gd_disk.specs.Disk.{Loses, Unchanged, KeepsCounts};
    ghost use Rattle.gd_store.specs.Store.{store_disk, store_payload, store_sequence, store_stopped};

    /// Adds a cut behind the armed ones of the disk, as its own call does, and changes nothing else. It comes at call
    /// `count` of its unit, counted from 1 from when it is the first; `torn` says what it leaves.
    pub fn arm(&mut self, unit: CutUnit, count: u32, torn: u8)
        requires room { length (L.state (store_disk self.old)).armed < MOST_CUTS }
        requires count { 1 ≤ count }
        requires torn { torn ≤ MOST_TORN }
        ensures armed { (L.state (store_disk self.new)).armed
            ≡ (L.state (store_disk self.old)).armed ++ record { unit = unit; count = count; torn = torn } ∷ [] }
        ensures power { (L.state (store_disk self.new)).is_on ≡ (L.state (store_disk self.old)).is_on }
        ensures seen { (L.state (store_disk self.new)).seen ≡ (L.state (store_disk self.old)).seen }
        ensures loss { Loses Unchanged (L.state (store_disk self.old)) (L.state (store_disk self.new)) }
        ensures counts { KeepsCounts (L.state (store_disk self.old)) (L.state (store_disk self.new)) }
        ensures found { (L.state (store_disk self.new)).found ≡ (L.state (store_disk self.old)).found }
        ensures faults { (L.state (store_disk self.new)).faults ≡ (L.state (store_disk self.old)).faults }
        ensures sequence { store_sequence self.new ≡ store_sequence self.old }
        ensures payload { store_payload self.new ≡ store_payload self.old }
        ensures stopped { store_stopped self.new ≡ store_stopped self.old }
    {
        self.disk.arm(unit, count, torn);
    }

    /// How many cuts are armed in the disk. A call that failed with the power on was cut where it lowered this number,
    /// and else had a fault.
    pub fn cuts_armed(&self) -> u32
        ensures { result ≡ length (L.state (store_disk self.now)).armed }
    {
        self.disk.cuts_armed()
    }
}
