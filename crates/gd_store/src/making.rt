//! The making of a memory.

ghost use Rattle.std.specs.Prelude.{◌≡◌, ◌+◌, ◌*◌, ◌<◌, ◌≤◌, length, slice_index, IfOk, OnOk, OnErr};
ghost use Rattle.gd_disk.specs.Disk.{IfTold, Unchanged, IsSynced, Answers, next_count};
ghost use Rattle.gd_disk.specs.CutRuns.{RunOf};
ghost use Rattle.gd_disk.specs.Runs.{LeavesOnly, CutsOfRun};
ghost use Rattle.gd_store.specs.Copy.{HoldsBoth, LiesWithin, copy_len};
ghost use Rattle.gd_store.specs.Reads.{HasReadBoth, HasReadSome};
ghost use Rattle.gd_store.specs.Room.{room_payload};
ghost use Rattle.gd_store.specs.Writing.{AreShut, From, MadeSyncs};
ghost use Rattle.gd_store.specs.Making.{made_disk, made_room, made_outcome, AreShutting, AreShuttingAny, IsMaking, IsMakingAny, BootsOver};

use crate::copy::sealing::seal_body;
use crate::copy::writing::{shut_open, write_shut};
use crate::{LAYOUT, Layout, Room, Store};
use gd_disk::{DISK_LEN, Disk, Off, PAGE_LEN};

/// What the making of a memory answers.
#[derive(Drop)]
pub enum Made<D: Disk> {
    /// Both copies hold the room's payload at sequence 0.
    Done { disk: D, room: Room },
    /// A call to the disk failed.
    Off { disk: D, room: Room },
}

impl<D: Disk> Store<D> {
    /// Writes the room's payload to both copies at sequence 0, whatever the disk has: shuts the gates that are open,
    /// then writes and opens copy a, then copy b, by five syncs. The room keeps its payload. At each moment each copy
    /// is the old one, or shut, or the new one, and none is new beside an old one. Where writes waited for a sync
    /// before, a gate that they opened may be found open over the old copy until the first of the five.
    pub fn make(mut disk: D, mut room: Room) -> Made<D>
        requires size { (D.state disk).size ≡ DISK_LEN }
        ensures done { OnOk (made_outcome result) (IfTold
            (D.state (made_disk result)).seen (HoldsBoth LAYOUT 0 (room_payload room))) }
        ensures synced { OnOk (made_outcome result) (IsSynced (D.state (made_disk result))) }
        ensures any_moment { IsSynced (D.state disk)
            → LeavesOnly (D.state disk) (D.state (made_disk result)) (From
            (D.state disk) (IsMaking LAYOUT (room_payload room))) }
        ensures boots { IsSynced (D.state disk)
            → LeavesOnly (D.state disk) (D.state (made_disk result)) (From
            (D.state disk) (BootsOver LAYOUT (room_payload room))) }
        ensures waiting { LeavesOnly (D.state disk) (D.state (made_disk result)) (From
            (D.state disk) (IsMakingAny LAYOUT (room_payload room) (D.state disk).seen)) }
        ensures answer { Answers (made_outcome result) (D.state disk) (D.state (made_disk result)) }
        ensures syncs { MadeSyncs 5 (made_outcome result) (D.state disk) (D.state (made_disk result)) }
        ensures cuts { CutsOfRun 5 (made_outcome result) (D.state disk) (D.state (made_disk result)) }
        ensures run { RunOf 5 (made_outcome result) (D.state disk) (D.state (made_disk result)) }
        ensures read { OnOk (made_outcome result) (HasReadBoth (D.state disk).reads
            (D.state (made_disk result)).reads) }
        ensures read_some { OnErr (made_outcome result) (HasReadSome (D.state disk).reads
            (D.state (made_disk result)).reads) }
        ensures payload { room_payload (made_room result) ≡ room_payload room }
    {
        let parts = &mut room;
        match make_both(&mut disk, LAYOUT, &parts.payload, &mut parts.a[1..]) {
            Ok(()) => Made::Done { disk, room },
            Err(Off) => Made::Off { disk, room },
        }
    }
}

/// Writes a payload to both copies at sequence 0.
fn make_both<D: Disk>(
    disk: &mut D,
    layout: Layout,
    payload: &[u8],
    body: &mut [u8],
) -> Result<(), Off>
    requires within { LiesWithin layout (D.state disk.old).size }
    requires payload { length payload.now ≡ PAGE_LEN * layout.pages }
    requires body { length body.old + 1 ≡ copy_len layout.pages }
    ensures holds { OnOk result (IfTold (D.state disk.new).seen (HoldsBoth layout 0 payload.now)) }
    ensures synced { OnOk result (IsSynced (D.state disk.new)) }
    ensures any_moment { IsSynced (D.state disk.old)
        → LeavesOnly (D.state disk.old) (D.state disk.new) (From (D.state disk.old) (IsMaking layout payload.now)) }
    ensures waiting { LeavesOnly (D.state disk.old) (D.state disk.new) (From
        (D.state disk.old) (IsMakingAny layout payload.now (D.state disk.old).seen)) }
    ensures answer { Answers result (D.state disk.old) (D.state disk.new) }
    ensures fewer { OnErr result ((D.state disk.new).syncs < (D.state disk.old).syncs + 5) }
    ensures run { RunOf 5 result (D.state disk.old) (D.state disk.new) }
    ensures read { OnOk result (HasReadBoth (D.state disk.old).reads (D.state disk.new).reads) }
    ensures read_some { OnErr result (HasReadSome (D.state disk.old).reads (D.state disk.new).reads) }
{
    shut_both(disk, layout)?;
    seal_body(layout, 0, payload, body);
    write_shut(disk, layout.a, body)?;
    write_shut(disk, layout.b, body)
}

/// Shuts the gates that are open. The one sync is made all the same.
fn shut_both<D: Disk>(disk: &mut D, layout: Layout) -> Result<(), Off>
    requires within { LiesWithin layout (D.state disk.old).size }
    ensures shut { OnOk result (IfTold (D.state disk.new).seen (AreShut layout)) }
    ensures synced { OnOk result (IsSynced (D.state disk.new)) }
    ensures any_moment { IsSynced (D.state disk.old)
        → LeavesOnly (D.state disk.old) (D.state disk.new) (From (D.state disk.old) (AreShutting layout)) }
    ensures waiting { LeavesOnly (D.state disk.old) (D.state disk.new) (From
        (D.state disk.old) (AreShuttingAny layout (D.state disk.old).seen)) }
    ensures answer { Answers result (D.state disk.old) (D.state disk.new) }
    ensures fewer { OnErr result ((D.state disk.new).syncs < (D.state disk.old).syncs + 1) }
    ensures run { RunOf 1 result (D.state disk.old) (D.state disk.new) }
    ensures read { OnOk result (HasReadBoth (D.state disk.old).reads (D.state disk.new).reads) }
    ensures read_some { OnErr result (HasReadSome (D.state disk.old).reads (D.state disk.new).reads) }
{
    let gate_a = read_gate(disk, layout.a)?;
    let gate_b = read_gate(disk, layout.b)?;
    shut_open(disk, layout.a, gate_a)?;
    shut_open(disk, layout.b, gate_b)?;
    disk.sync()
}

/// The byte of a gate.
fn read_gate<D: Disk>(disk: &mut D, at: u64) -> Result<u8, Off>
    requires { at + 1 ≤ (D.state disk.old).size }
    ensures gate { IfOk result (λ gate. IfTold (D.state disk.old).seen (λ image. slice_index image at ≡ gate)) }
    ensures seen { OnOk result ((D.state disk.new).seen ≡ (D.state disk.old).seen) }
    ensures any_moment { LeavesOnly (D.state disk.old) (D.state disk.new) (From (D.state disk.old) Unchanged) }
    ensures answer { Answers result (D.state disk.old) (D.state disk.new) }
    ensures syncs { (D.state disk.new).syncs ≡ (D.state disk.old).syncs }
    ensures run { RunOf 0 result (D.state disk.old) (D.state disk.new) }
    ensures read { OnOk result ((D.state disk.new).reads ≡ next_count (D.state disk.old).reads) }
    ensures not_read { OnErr result ((D.state disk.new).reads ≡ (D.state disk.old).reads) }
{
    let mut byte = [0];
    disk.read(at, &mut byte)?;
    Ok(byte[0])
}
