//! The making of an empty memory, at the beginning of a trial or in place of a locked one.

ghost use Rattle.std.specs.Prelude.{◌≡◌, true, IfOk, IfErr};
ghost use Rattle.gd_base.specs.Payloads.Spelled.{Shows};
ghost use Rattle.gd_cabinet.specs.Shown.{IsInBoth};
ghost use Rattle.gd_disk.specs.Disk.{IfTold, IsSynced, next_count};
ghost use Rattle.gd_store.specs.Room.{room_payload};
ghost use Rattle.gd_top.specs.Code.Memory.{IsMade, IsMadeOff, IsUnmade};

use gd_base::{Core, Draws};
use gd_cabinet::Parts;
use gd_disk::{DISK_LEN, Disk, LabDisk};
use gd_store::{Made, Room, Store};

/// Makes a memory of the core's view, which is the empty one, and turns the power off. It fails where a cut comes in it, or the
/// disk has a fault.
pub(crate) fn make_memory<C: Core, L: LabDisk, W: Draws>(
    parts: Parts<C, L, W>,
) -> Result<Parts<C, L, W>, Parts<C, L, W>>
    requires empty { C.view parts.core ≡ (C.meaning parts.core).empty }
    requires size { (L.state parts.disk).size ≡ DISK_LEN }
    requires is_on { (L.state parts.disk).is_on ≡ true }
    ensures made { IfOk result
        (λ made. IsMadeOff (C.meaning parts.core) (C.view parts.core) (L.state parts.disk)
        (L.state made.disk)) }
    ensures core { IfOk result (λ made. made.core ≡ parts.core) }
    ensures draws { IfOk result (λ made. made.draws ≡ parts.draws) }
    ensures unmade { IfErr result
        (λ left. IsUnmade (C.meaning parts.core) (C.view parts.core) (L.state parts.disk)
        (L.state left.disk)) }
    ensures kept { IfErr result (λ left. (left.core ≡ parts.core) × (left.draws ≡ parts.draws)) }
{
    match make_empty(parts) {
        Ok(mut made) => {
            made.disk.power_off();
            Ok(made)
        }
        Err(left) => Err(left),
    }
}

/// Makes a memory of the core's view, which is the empty one. It fails where a call to the disk failed.
pub(crate) fn make_empty<C: Core, D: Disk, W: Draws>(
    parts: Parts<C, D, W>,
) -> Result<Parts<C, D, W>, Parts<C, D, W>>
    requires empty { C.view parts.core ≡ (C.meaning parts.core).empty }
    requires size { (D.state parts.disk).size ≡ DISK_LEN }
    ensures made { IfOk result
        (λ made. IsMade (C.meaning parts.core) (C.view parts.core) (D.state parts.disk)
        (D.state made.disk)) }
    ensures shown { IfOk result
        (λ made. IfTold (D.state made.disk).seen (IsInBoth (C.meaning parts.core) (C.view parts.core))) }
    ensures synced { IfOk result (λ made. IsSynced (D.state made.disk)) }
    ensures is_on { IfOk result (λ made. (D.state made.disk).is_on ≡ true) }
    ensures no_stop { IfOk result (λ made. (D.state made.disk).stops ≡ (D.state parts.disk).stops) }
    ensures core { IfOk result (λ made. made.core ≡ parts.core) }
    ensures draws { IfOk result (λ made. made.draws ≡ parts.draws) }
    ensures unmade { IfErr result (λ left. (D.state parts.disk).is_on ≡ true
        → IsUnmade (C.meaning parts.core) (C.view parts.core) (D.state parts.disk) (D.state left.disk)) }
    ensures cause { IfErr result (λ left. (D.state left.disk).stops ≡ next_count (D.state parts.disk).stops) }
    ensures kept { IfErr result (λ left. (left.core ≡ parts.core) × (left.draws ≡ parts.draws)) }
{
    let Parts {
        core,
        disk,
        draws,
        mut room,
    } = parts;
    fill(&core, &mut room);
    match Store::make(disk, room) {
        Made::Done { disk, room } => Ok(Parts {
            core,
            disk,
            draws,
            room,
        }),
        Made::Off { disk, room } => Err(Parts {
            core,
            disk,
            draws,
            room,
        }),
    }
}

/// Writes the core's view over the room's payload.
pub(crate) fn fill<C: Core>(core: &C, room: &mut Room)
    ensures { (C.meaning core.now).spelled (room_payload room.new) ≡ Shows (C.view core.now) }
{
    core.write_image(room.payload_mut());
}
