//! Writes of a payload over another in both copies: of the pages, only those that differ are written.

ghost use Rattle.std.specs.Prelude.{◌≡◌, ◌≤◌, ◌+◌, ◌*◌, ◌<◌, ◌^◌, ◌∷◌, ◌++◌, ◌⊎◌, ℕ, length, OnOk, OnErr, true, false, Some, slice_index, slice_index_or};
ghost use Rattle.gd_disk.specs.Disk.{IfTold, seen_with_bytes, IsSynced, Answers};
ghost use Rattle.gd_disk.specs.CutRuns.{RunOf};
ghost use Rattle.gd_disk.specs.Runs.{LeavesOnly};
ghost use Rattle.gd_store.specs.Changes.{differ, ArePagesAt, IsOverPage, KeepsPages, PagesStand};
ghost use Rattle.gd_store.specs.Copy.{HoldsBoth, LiesWithin, boots, digests, front_of, part};
ghost use Rattle.gd_store.specs.Writing.{IsWriting, From, IsCommitting};

use crate::copy::layout::{MOST_PAGES, OPEN};
use crate::copy::sealing::seal_front;
use crate::copy::writing::{shut, write_synced};
use crate::{Layout, MOST_SEQUENCE};
use gd_disk::{DIGEST_LEN, Disk, HEADER_LEN, Off, PAGE_LEN};

/// At which pages two payloads differ.
fn find_changes(kept: &[u8], payload: &[u8], changed: &mut [bool])
    requires kept { length kept.now ≡ PAGE_LEN * length changed.old }
    requires payload { length payload.now ≡ PAGE_LEN * length changed.old }
    ensures length { length changed.new ≡ length changed.old }
    ensures each { (i : ℕ) → i < length changed.new
        → slice_index_or changed.new i false ≡ differ i kept.now payload.now }
{
    for i in 0..changed.len() {
        let from = PAGE_LEN * i;
        changed[i] = kept[from..from + PAGE_LEN] != payload[from..from + PAGE_LEN];
    }
}

/// Writes a page that has changed. One that hasn't stands on the disk as it is.
fn write_page<D: Disk>(disk: &mut D, at: u64, is_changed: bool, page: &[u8]) -> Result<(), Off>
    requires within { at + length page.now ≤ (D.state disk.old).size }
    requires on { (D.state disk.old).is_on ≡ true }
    requires stands { is_changed ≡ false → IfTold (D.state disk.old).seen
        (λ image. part at (length page.now) image ≡ page.now) }
    ensures seen { OnOk result ((D.state disk.new).seen ≡ seen_with_bytes at page.now (D.state disk.old).seen) }
    ensures any_moment { LeavesOnly (D.state disk.old) (D.state disk.new) (From
        (D.state disk.old) (IsOverPage is_changed at (length page.now))) }
    ensures answer { Answers result (D.state disk.old) (D.state disk.new) }
    ensures run { RunOf 0 result (D.state disk.old) (D.state disk.new) }
    ensures reads { (D.state disk.new).reads ≡ (D.state disk.old).reads }
{
    if is_changed {
        return disk.write(at, page);
    }
    Ok(())
}

/// Writes the pages that have changed, the first of which would stand at `at`. No sync is made.
fn write_pages<D: Disk>(disk: &mut D, at: u64, changed: &[bool], payload: &[u8]) -> Result<(), Off>
    requires within { at + length payload.now ≤ (D.state disk.old).size }
    requires bounded { (D.state disk.old).size < 2 ^ 64 }
    requires on { (D.state disk.old).is_on ≡ true }
    requires pages { length payload.now ≡ PAGE_LEN * length changed.now }
    requires stand { IfTold (D.state disk.old).seen (ArePagesAt at changed.now payload.now) }
    ensures seen { OnOk result ((D.state disk.new).seen ≡ seen_with_bytes at payload.now (D.state disk.old).seen) }
    ensures any_moment { LeavesOnly (D.state disk.old) (D.state disk.new) (From
        (D.state disk.old) (KeepsPages at (length payload.now) at changed.now)) }
    ensures answer { Answers result (D.state disk.old) (D.state disk.new) }
    ensures run { RunOf 0 result (D.state disk.old) (D.state disk.new) }
    ensures reads { (D.state disk.new).reads ≡ (D.state disk.old).reads }
{
    for i in 0..changed.len() {
        let from = PAGE_LEN * i;
        write_page(
            disk,
            at + from as u64,
            changed[i],
            &payload[from..from + PAGE_LEN],
        )?;
    }
    Ok(())
}

/// Writes what stands behind the gate of a copy: its front, and the pages that have changed. One sync keeps it.
fn write_body<D: Disk>(
    disk: &mut D,
    at: u64,
    front: &[u8],
    changed: &[bool],
    payload: &[u8],
) -> Result<(), Off>
    requires within { at + length front.now + length payload.now ≤ (D.state disk.old).size }
    requires bounded { (D.state disk.old).size < 2 ^ 64 }
    requires pages { length payload.now ≡ PAGE_LEN * length changed.now }
    requires stand { IfTold (D.state disk.old).seen (ArePagesAt (at + length front.now) changed.now payload.now) }
    ensures seen { OnOk result ((D.state disk.new).seen ≡ seen_with_bytes at
        (front.now ++ payload.now) (D.state disk.old).seen) }
    ensures synced { OnOk result (IsSynced (D.state disk.new)) }
    ensures any_moment { LeavesOnly (D.state disk.old) (D.state disk.new) (From
        (D.state disk.old) (KeepsPages at (length (front.now ++ payload.now)) (at + length front.now) changed.now)) }
    ensures answer { Answers result (D.state disk.old) (D.state disk.new) }
    ensures fewer { OnErr result ((D.state disk.new).syncs < (D.state disk.old).syncs + 1) }
    ensures run { RunOf 1 result (D.state disk.old) (D.state disk.new) }
    ensures reads { (D.state disk.new).reads ≡ (D.state disk.old).reads }
{
    disk.write(at, front)?;
    write_pages(disk, at + front.len() as u64, changed, payload)?;
    disk.sync()
}

/// Writes a copy over an open one of another payload: shuts its gate, writes its body, and opens the gate, each kept by
/// a sync.
fn write_changes<D: Disk>(
    disk: &mut D,
    at: u64,
    front: &[u8],
    changed: &[bool],
    payload: &[u8],
) -> Result<(), Off>
    requires within { at + 1 + length (front.now ++ payload.now) ≤ (D.state disk.old).size }
    requires bounded { (D.state disk.old).size < 2 ^ 64 }
    requires synced { IsSynced (D.state disk.old) }
    requires gate { IfTold (D.state disk.old).seen (λ image. slice_index image at ≡ OPEN) }
    requires pages { length payload.now ≡ PAGE_LEN * length changed.now }
    requires stand { IfTold (D.state disk.old).seen (ArePagesAt (at + 1 + length front.now) changed.now payload.now) }
    ensures seen { OnOk result ((D.state disk.new).seen ≡ seen_with_bytes at
        (OPEN ∷ (front.now ++ payload.now)) (D.state disk.old).seen) }
    ensures synced { OnOk result (IsSynced (D.state disk.new)) }
    ensures any_moment { LeavesOnly (D.state disk.old) (D.state disk.new) (From
        (D.state disk.old) (IsWriting at (OPEN ∷ (front.now ++ payload.now)))) }
    ensures pages { LeavesOnly (D.state disk.old) (D.state disk.new) (From
        (D.state disk.old) (KeepsPages at (length (OPEN ∷ (front.now ++ payload.now)))
        (at + 1 + length front.now) changed.now)) }
    ensures answer { Answers result (D.state disk.old) (D.state disk.new) }
    ensures fewer { OnErr result ((D.state disk.new).syncs < (D.state disk.old).syncs + 3) }
    ensures run { RunOf 3 result (D.state disk.old) (D.state disk.new) }
    ensures reads { (D.state disk.new).reads ≡ (D.state disk.old).reads }
{
    shut(disk, at, OPEN)?;
    write_body(disk, at + 1, front, changed, payload)?;
    write_synced(disk, at, &[OPEN])
}

/// Writes the next payload over both copies of the kept one, which has these digests. The front that both get is left
/// in `front`.
pub(crate) fn write_both<D: Disk>(
    disk: &mut D,
    layout: Layout,
    sequence: u64,
    kept: &[u8],
    payload: &[u8],
    kept_digests: &[u8],
    front: &mut [u8],
) -> Result<(), Off>
    requires within { LiesWithin layout (D.state disk.old).size }
    requires few { layout.pages ≤ MOST_PAGES }
    requires kept { length kept.now ≡ PAGE_LEN * layout.pages }
    requires length { length payload.now ≡ PAGE_LEN * layout.pages }
    requires digests { kept_digests.now ≡ digests layout.pages kept.now }
    requires front { length front.old ≡ HEADER_LEN + DIGEST_LEN * layout.pages + DIGEST_LEN }
    requires sequence { sequence < MOST_SEQUENCE }
    requires synced { IsSynced (D.state disk.old) }
    requires holds { IfTold (D.state disk.old).seen (HoldsBoth layout sequence kept.now) }
    ensures synced { OnOk result (IsSynced (D.state disk.new)) }
    ensures holds { OnOk result (IfTold (D.state disk.new).seen (HoldsBoth layout (sequence + 1) payload.now)) }
    ensures front { front.new ≡ front_of layout (sequence + 1) payload.now }
    ensures any_moment { LeavesOnly (D.state disk.old) (D.state disk.new)
        (λ c. (boots layout c ≡ Some (sequence, kept.now)) ⊎ (boots layout c ≡ Some (sequence + 1, payload.now))) }
    ensures order { LeavesOnly (D.state disk.old)
        (D.state disk.new) (IsCommitting layout (sequence, kept.now) (sequence + 1, payload.now)) }
    ensures pages { LeavesOnly (D.state disk.old) (D.state disk.new) (PagesStand layout kept.now payload.now) }
    ensures answer { Answers result (D.state disk.old) (D.state disk.new) }
    ensures fewer { OnErr result ((D.state disk.new).syncs < (D.state disk.old).syncs + 6) }
    ensures run { RunOf 6 result (D.state disk.old) (D.state disk.new) }
    ensures reads { (D.state disk.new).reads ≡ (D.state disk.old).reads }
{
    let mut changes = [false; MOST_PAGES as usize];
    let changed = &mut changes[..layout.pages as usize];
    find_changes(kept, payload, changed);
    seal_front(layout, sequence + 1, kept_digests, changed, payload, front);
    write_changes(disk, layout.a, front, changed, payload)?;
    write_changes(disk, layout.b, front, changed, payload)
}
