//! The opening of a store, which repairs at most one copy.

ghost use Rattle.std.specs.Prelude.{◌≡◌, ◌+◌, ◌<◌, OnOk, OnErr, Some, None, false, ◌*◌, length, slice_index, true};
ghost use Rattle.gd_disk.specs.Disk.{IfTold, Answers, Unchanged, IsSynced};
ghost use Rattle.gd_disk.specs.CutRuns.{RunOf};
ghost use Rattle.gd_disk.specs.Runs.{LeavesOnly};
ghost use Rattle.gd_store.specs.Copy.{boots, IsCopy, HoldsBoth, LiesWithin, copy_len, copy_at, gate_at};
ghost use Rattle.gd_store.specs.Booting.{IsFound, later_sequence};
ghost use Rattle.gd_store.specs.Lost.{IsLost, OpensLostWhere};
ghost use Rattle.gd_store.specs.Reads.{HasReadBoth, HasReadSome};
ghost use Rattle.gd_store.specs.Store.{store_payload, store_sequence, store_stopped};
ghost use Rattle.gd_store.specs.Writing.{From, KeepsBoot};
ghost use Rattle.gd_store.specs.Opening.{repairs_of, IsRead, is_sound_at};
ghost use Rattle.gd_store.specs.OpenAnswer.{disk_in, outcome, OnReady, OnLost, IsOpenable, OpeningRun};
ghost use Rattle.gd_store.specs.Repair.{repair_needed, syncs_of_repair, other_side};

use crate::booting::{Booted, boot};
use crate::copy::sealing::{seal_body, write_digests};
use crate::copy::writing::write_copy;
use crate::store::DIGESTS_LEN;
use crate::{CopyState, Found, LAYOUT, Layout, Room, Store};
use gd_disk::{DISK_LEN, Disk, Off, PAGE_COUNT, PAGE_LEN, Side};

/// What the opening of a store answers.
#[derive(Drop)]
pub enum Opened<D: Disk> {
    /// A copy was booted, and both copies hold its payload. `found` has what the two were before the repair.
    Ready { store: Store<D>, found: Found },
    /// Nothing could be booted, and nothing was written.
    Lost { found: Found, disk: D, room: Room },
    /// A call to the disk failed, in the boot or in the repair.
    Off { disk: D, room: Room },
}

impl<D: Disk> Store<D> {
    /// Boots, and writes the other copy anew, by three syncs, where it isn't sound or has another sequence. What is
    /// booted stays the same at each moment.
    pub fn open(mut disk: D, mut room: Room) -> Opened<D>
        requires size { (D.state disk).size ≡ DISK_LEN }
        requires openable { IsOpenable (D.state disk) }
        ensures runs { OnReady result (λ store found. store_stopped store ≡ false) }
        ensures ready { OnReady result (λ store found. IfTold (D.state disk).seen (λ image.
            IsFound LAYOUT found image × (boots LAYOUT image ≡ Some (store_sequence store, store_payload store)))) }
        ensures lost { OnLost result (λ found. IfTold (D.state disk).seen (λ image. IsFound LAYOUT found image
            × (boots LAYOUT image ≡ None))) }
        ensures lost_exactly { IfTold (D.state disk).seen (λ image. OpensLostWhere result (IsLost LAYOUT image)) }
        ensures any_moment { LeavesOnly (D.state disk) (D.state (disk_in result)) (KeepsBoot LAYOUT (D.state disk)) }
        ensures unwritten { OnLost result
            (λ found. LeavesOnly (D.state disk) (D.state (disk_in result)) (From (D.state disk) Unchanged)) }
        ensures answer { Answers (outcome result) (D.state disk) (D.state (disk_in result)) }
        ensures few { OnErr (outcome result) ((D.state (disk_in result)).syncs < (D.state disk).syncs + 3) }
        ensures untouched { OnLost result (λ found. ((D.state (disk_in result)).seen ≡ (D.state disk).seen)
            × ((D.state (disk_in result)).syncs ≡ (D.state disk).syncs)) }
        ensures answer_run { OpeningRun result (D.state disk) (D.state (disk_in result)) }
        ensures run { IfTold (D.state disk).seen
            (λ image. RunOf (repairs_of LAYOUT image) (outcome result) (D.state disk) (D.state (disk_in result))) }
        ensures read { OnOk (outcome result) (HasReadBoth (D.state disk).reads (D.state (disk_in result)).reads) }
        ensures read_some { OnErr (outcome result) (HasReadSome (D.state disk).reads (D.state (disk_in result)).reads) }
    {
        match boot(&mut disk, &mut room) {
            Booted::Off => Opened::Off { disk, room },
            Booted::Lost(found) => Opened::Lost { found, disk, room },
            Booted::Ready { found, sequence } => {
                let parts = &mut room;
                match repair(
                    &mut disk,
                    LAYOUT,
                    found,
                    sequence,
                    &parts.payload,
                    &mut parts.a,
                    &mut parts.b,
                ) {
                    Ok(()) => {
                        let mut kept = [0; DIGESTS_LEN];
                        write_digests(&room.payload, &mut kept, PAGE_COUNT);
                        let store = Store {
                            disk,
                            room,
                            sequence,
                            is_stopped: false,
                            kept,
                        };
                        Opened::Ready { store, found }
                    }
                    Err(Off) => Opened::Off { disk, room },
                }
            }
        }
    }
}

/// Sound at this sequence.
fn is_sound_at(state: CopyState, sequence: u64) -> bool
    ensures { result ≡ is_sound_at state sequence }
{
    match state {
        CopyState::Sound(n) => n == sequence,
        CopyState::Bad(_) => false,
    }
}

/// Writes the copy that isn't the booted one, where it isn't sound at the booted sequence. The bytes of a copy that was
/// read are written over.
pub(crate) fn repair<D: Disk>(
    disk: &mut D,
    layout: Layout,
    found: Found,
    sequence: u64,
    payload: &[u8],
    a: &mut [u8],
    b: &mut [u8],
) -> Result<(), Off>
    requires within { LiesWithin layout (D.state disk.old).size }
    requires on { (D.state disk.old).is_on ≡ true }
    requires synced { IsSynced (D.state disk.old) }
    requires payload { length payload.now ≡ PAGE_LEN * layout.pages }
    requires a_len { length a.old ≡ copy_len layout.pages }
    requires b_len { length b.old ≡ copy_len layout.pages }
    requires read { IfTold (D.state disk.old).seen (IsRead layout found sequence payload.now a.old b.old) }
    requires latest { later_sequence found.a found.b ≡ Some sequence }
    ensures holds { OnOk result (IfTold (D.state disk.new).seen (HoldsBoth layout sequence payload.now)) }
    ensures synced { OnOk result (IsSynced (D.state disk.new)) }
    ensures any_moment { LeavesOnly (D.state disk.old) (D.state disk.new) (KeepsBoot layout (D.state disk.old)) }
    ensures answer { Answers result (D.state disk.old) (D.state disk.new) }
    ensures fewer { OnErr result ((D.state disk.new).syncs <
        (D.state disk.old).syncs + syncs_of_repair (repair_needed found)) }
    ensures run { RunOf (syncs_of_repair (repair_needed found)) result (D.state disk.old) (D.state disk.new) }
    ensures reads { (D.state disk.new).reads ≡ (D.state disk.old).reads }
{
    if !is_sound_at(found.a, sequence) {
        let gate = a[0];
        return repair_side(disk, layout, Side::A, gate, sequence, payload, &mut a[1..]);
    }
    if !is_sound_at(found.b, sequence) {
        let gate = b[0];
        return repair_side(disk, layout, Side::B, gate, sequence, payload, &mut b[1..]);
    }
    Ok(())
}

/// Writes one copy, where the other one is booted.
fn repair_side<D: Disk>(
    disk: &mut D,
    layout: Layout,
    side: Side,
    gate: u8,
    sequence: u64,
    payload: &[u8],
    body: &mut [u8],
) -> Result<(), Off>
    requires within { LiesWithin layout (D.state disk.old).size }
    requires synced { IsSynced (D.state disk.old) }
    requires gate { IfTold (D.state disk.old).seen (λ image. slice_index image (gate_at layout side) ≡ gate) }
    requires payload { length payload.now ≡ PAGE_LEN * layout.pages }
    requires body { length body.old + 1 ≡ copy_len layout.pages }
    requires booted { IfTold (D.state disk.old).seen
        (λ image. IsCopy layout sequence payload.now (copy_at layout (other_side side) image)
        × (boots layout image ≡ Some (sequence, payload.now))) }
    ensures holds { OnOk result (IfTold (D.state disk.new).seen (HoldsBoth layout sequence payload.now)) }
    ensures synced { OnOk result (IsSynced (D.state disk.new)) }
    ensures any_moment { LeavesOnly (D.state disk.old) (D.state disk.new) (KeepsBoot layout (D.state disk.old)) }
    ensures answer { Answers result (D.state disk.old) (D.state disk.new) }
    ensures fewer { OnErr result ((D.state disk.new).syncs < (D.state disk.old).syncs + 3) }
    ensures run { RunOf 3 result (D.state disk.old) (D.state disk.new) }
    ensures reads { (D.state disk.new).reads ≡ (D.state disk.old).reads }
{
    seal_body(layout, sequence, payload, body);
    write_copy(disk, layout.gate_of(side), gate, body)
}
