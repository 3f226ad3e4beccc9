//! Writes of one whole copy to a disk, each kept by a sync of its own.

ghost use Rattle.std.specs.Prelude.{◌≡◌, ◌≤◌, ◌+◌, ◌<◌, ◌^◌, ◌∷◌, length, OnOk, OnErr, true, slice_index};
ghost use Rattle.gd_disk.specs.Disk.{IfTold, seen_with_bytes, Torn, IsSynced, Answers};
ghost use Rattle.gd_disk.specs.CutRuns.{RunOf};
ghost use Rattle.gd_disk.specs.Runs.{LeavesOnly};
ghost use Rattle.gd_store.specs.Writing.{seen_shut, IsShutting, IsShut, IsOverOpen, IsWriting, From};

use crate::copy::layout::OPEN;
use gd_disk::{Disk, Off};

/// Writes, and keeps it by a sync.
pub(crate) fn write_synced<D: Disk>(disk: &mut D, at: u64, bytes: &[u8]) -> Result<(), Off>
    requires { at + length bytes.now ≤ (D.state disk.old).size }
    ensures seen { OnOk result ((D.state disk.new).seen ≡ seen_with_bytes at bytes.now (D.state disk.old).seen) }
    ensures synced { OnOk result (IsSynced (D.state disk.new)) }
    ensures any_moment { LeavesOnly (D.state disk.old) (D.state disk.new) (From
        (D.state disk.old) (Torn at (length bytes.now))) }
    ensures answer { Answers result (D.state disk.old) (D.state disk.new) }
    ensures fewer { OnErr result ((D.state disk.new).syncs < (D.state disk.old).syncs + 1) }
    ensures run { RunOf 1 result (D.state disk.old) (D.state disk.new) }
    ensures reads { (D.state disk.new).reads ≡ (D.state disk.old).reads }
{
    disk.write(at, bytes)?;
    disk.sync()
}

const SHUT: u8 = 0;

/// Shuts a gate that is open. The sync is made all the same.
pub(crate) fn shut<D: Disk>(disk: &mut D, at: u64, gate: u8) -> Result<(), Off>
    requires within { at + 1 ≤ (D.state disk.old).size }
    requires synced { IsSynced (D.state disk.old) }
    requires gate { IfTold (D.state disk.old).seen (λ image. slice_index image at ≡ gate) }
    ensures seen { OnOk result ((D.state disk.new).seen ≡ seen_shut at gate (D.state disk.old).seen) }
    ensures shut { OnOk result (IfTold (D.state disk.new).seen (IsShut at)) }
    ensures synced { OnOk result (IsSynced (D.state disk.new)) }
    ensures any_moment { LeavesOnly (D.state disk.old) (D.state disk.new) (From (D.state disk.old) (IsShutting at)) }
    ensures answer { Answers result (D.state disk.old) (D.state disk.new) }
    ensures fewer { OnErr result ((D.state disk.new).syncs < (D.state disk.old).syncs + 1) }
    ensures run { RunOf 1 result (D.state disk.old) (D.state disk.new) }
    ensures reads { (D.state disk.new).reads ≡ (D.state disk.old).reads }
{
    if gate == OPEN {
        write_synced(disk, at, &[SHUT])
    } else {
        disk.sync()
    }
}

/// Writes over a gate that is open. No sync is made.
pub(crate) fn shut_open<D: Disk>(disk: &mut D, at: u64, gate: u8) -> Result<(), Off>
    requires within { at + 1 ≤ (D.state disk.old).size }
    requires on { (D.state disk.old).is_on ≡ true }
    requires gate { IfTold (D.state disk.old).seen (λ image. slice_index image at ≡ gate) }
    ensures seen { OnOk result ((D.state disk.new).seen ≡ seen_shut at gate (D.state disk.old).seen) }
    ensures shut { OnOk result (IfTold (D.state disk.new).seen (IsShut at)) }
    ensures any_moment { LeavesOnly (D.state disk.old) (D.state disk.new) (From
        (D.state disk.old) (IsOverOpen at gate)) }
    ensures answer { Answers result (D.state disk.old) (D.state disk.new) }
    ensures syncs { (D.state disk.new).syncs ≡ (D.state disk.old).syncs }
    ensures run { RunOf 0 result (D.state disk.old) (D.state disk.new) }
    ensures reads { (D.state disk.new).reads ≡ (D.state disk.old).reads }
{
    if gate == OPEN {
        return disk.write(at, &[SHUT]);
    }
    Ok(())
}

/// Writes a copy over one that is shut: its body, and then its gate, each kept by a sync.
pub(crate) fn write_shut<D: Disk>(disk: &mut D, at: u64, body: &[u8]) -> Result<(), Off>
    requires within { at + 1 + length body.now ≤ (D.state disk.old).size }
    requires bounded { (D.state disk.old).size < 2 ^ 64 }
    requires synced { IsSynced (D.state disk.old) }
    requires shut { IfTold (D.state disk.old).seen (IsShut at) }
    ensures seen { OnOk result ((D.state disk.new).seen ≡ seen_with_bytes at
        (OPEN ∷ body.now) (D.state disk.old).seen) }
    ensures synced { OnOk result (IsSynced (D.state disk.new)) }
    ensures any_moment { LeavesOnly (D.state disk.old) (D.state disk.new) (From
        (D.state disk.old) (IsWriting at (OPEN ∷ body.now))) }
    ensures answer { Answers result (D.state disk.old) (D.state disk.new) }
    ensures fewer { OnErr result ((D.state disk.new).syncs < (D.state disk.old).syncs + 2) }
    ensures run { RunOf 2 result (D.state disk.old) (D.state disk.new) }
    ensures reads { (D.state disk.new).reads ≡ (D.state disk.old).reads }
{
    write_synced(disk, at + 1, body)?;
    write_synced(disk, at, &[OPEN])
}

/// Writes a copy over another: shuts its gate, writes its body, and opens the gate, each kept by a sync.
pub(crate) fn write_copy<D: Disk>(disk: &mut D, at: u64, gate: u8, body: &[u8]) -> Result<(), Off>
    requires within { at + 1 + length body.now ≤ (D.state disk.old).size }
    requires bounded { (D.state disk.old).size < 2 ^ 64 }
    requires synced { IsSynced (D.state disk.old) }
    requires gate { IfTold (D.state disk.old).seen (λ image. slice_index image at ≡ gate) }
    ensures seen { OnOk result ((D.state disk.new).seen ≡ seen_with_bytes at
        (OPEN ∷ body.now) (D.state disk.old).seen) }
    ensures synced { OnOk result (IsSynced (D.state disk.new)) }
    ensures any_moment { LeavesOnly (D.state disk.old) (D.state disk.new) (From
        (D.state disk.old) (IsWriting at (OPEN ∷ body.now))) }
    ensures answer { Answers result (D.state disk.old) (D.state disk.new) }
    ensures fewer { OnErr result ((D.state disk.new).syncs < (D.state disk.old).syncs + 3) }
    ensures run { RunOf 3 result (D.state disk.old) (D.state disk.new) }
    ensures reads { (D.state disk.new).reads ≡ (D.state disk.old).reads }
{
    shut(disk, at, gate)?;
    write_shut(disk, at, body)
}
