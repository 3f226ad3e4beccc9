//! The check of a page of both copies.

ghost use Rattle.std.specs.Prelude.{◌≡◌, ◌≤◌, ◌<◌, ◌+◌, ℕ, List, true, false, IfOk, OnOk, OnErr, IsErr};
ghost use Rattle.std.specs.Str.{bytes_eq};
ghost use Rattle.sha2.specs.Sha256.{sha256};
ghost use Rattle.gd_disk.specs.Disk.{IfTold, Unchanged, Answers, next_count};
ghost use Rattle.gd_disk.specs.CutRuns.{RunOf};
ghost use Rattle.gd_disk.specs.Runs.{LeavesOnly};
ghost use Rattle.gd_store.specs.Checking.{IsChecked};
ghost use Rattle.gd_store.specs.Copy.{LiesWithin, page, part};
ghost use Rattle.gd_store.specs.Reads.{HasReadBoth, HasReadFewer};
ghost use Rattle.gd_store.specs.Store.{store_disk, store_payload, store_sequence, store_stopped};
ghost use Rattle.gd_store.specs.Writing.{From};

use crate::{LAYOUT, Layout, PageState, Store};
use gd_disk::{DIGEST_LEN, Disk, FRAME_LEN, Off, PAGE_COUNT, PAGE_LEN};
use sha2::{Digest, Sha256};

impl<D: Disk> Store<D> {
    /// Reads page `page` of both copies, of which there are `PAGE_COUNT`, counted from 0: for each, whether it has the
    /// digest of that page of the payload. Nothing is written. The error comes where a call to the disk failed: now, or
    /// at an earlier call. Then the store is stopped.
    pub fn check_page(&mut self, page: u8) -> Result<PageState, Off>
        requires page { page < PAGE_COUNT }
        ensures told { IfOk result (λ state. IfTold (D.state (store_disk self.old)).seen
            (IsChecked LAYOUT page (store_payload self.old) state)) }
        ensures sequence { store_sequence self.new ≡ store_sequence self.old }
        ensures payload { store_payload self.new ≡ store_payload self.old }
        ensures runs { OnOk result ((store_stopped self.old ≡ false) × (store_stopped self.new ≡ false)) }
        ensures stops { OnErr result (store_stopped self.new ≡ true) }
        ensures after_off { store_stopped self.old ≡ true
            → IsErr result × ((D.state (store_disk self.new)).stops
            ≡ next_count (D.state (store_disk self.old)).stops) }
        ensures seen { OnOk result ((D.state (store_disk self.new)).seen ≡ (D.state (store_disk self.old)).seen) }
        ensures any_moment { LeavesOnly (D.state (store_disk self.old)) (D.state (store_disk self.new)) (From
            (D.state (store_disk self.old)) Unchanged) }
        ensures answer { Answers result (D.state (store_disk self.old)) (D.state (store_disk self.new)) }
        ensures run { RunOf 0 result (D.state (store_disk self.old)) (D.state (store_disk self.new)) }
        ensures read { OnOk result (HasReadBoth (D.state (store_disk self.old)).reads
            (D.state (store_disk self.new)).reads) }
        ensures read_fewer { OnErr result (HasReadFewer (D.state (store_disk self.old)).reads
            (D.state (store_disk self.new)).reads) }
    {
        if self.is_stopped {
            self.disk.sync()?;
            return Err(Off);
        }
        let from = DIGEST_LEN * page as usize;
        let mut digest = [0; DIGEST_LEN];
        digest.copy_from_slice(&self.kept[from..from + DIGEST_LEN]);
        match check_both(&mut self.disk, LAYOUT, page, &digest) {
            Ok(state) => Ok(state),
            Err(off) => {
                self.is_stopped = true;
                Err(off)
            }
        }
    }
}

/// Whether the page at a place has this digest.
fn has_digest<D: Disk>(disk: &mut D, at: u64, digest: &[u8]) -> Result<bool, Off>
    requires { at + PAGE_LEN ≤ (D.state disk.old).size }
    ensures told { IfOk result (λ same. IfTold (D.state disk.old).seen
        (λ image. same ≡ bytes_eq (sha256 (part at PAGE_LEN image)) digest.now)) }
    ensures seen { OnOk result ((D.state disk.new).seen ≡ (D.state disk.old).seen) }
    ensures any_moment { LeavesOnly (D.state disk.old) (D.state disk.new) (From (D.state disk.old) Unchanged) }
    ensures answer { Answers result (D.state disk.old) (D.state disk.new) }
    ensures run { RunOf 0 result (D.state disk.old) (D.state disk.new) }
    ensures read { OnOk result ((D.state disk.new).reads ≡ next_count (D.state disk.old).reads) }
    ensures not_read { OnErr result ((D.state disk.new).reads ≡ (D.state disk.old).reads) }
{
    let mut page = [0; PAGE_LEN];
    disk.read(at, &mut page)?;
    let now = Sha256::digest(&page);
    Ok(now[..] == digest[..])
}

/// Whether a page has this digest in each copy, that of the page of a payload.
fn check_both<D: Disk>(
    disk: &mut D,
    layout: Layout,
    number: u8,
    digest: &[u8],
) -> Result<PageState, Off>
    requires within { LiesWithin layout (D.state disk.old).size }
    requires number { number < layout.pages }
    ensures told { IfOk result (λ state. (payload : List ℕ) → digest.now ≡ sha256 (page number payload)
        → IfTold (D.state disk.old).seen (IsChecked layout number payload state)) }
    ensures seen { OnOk result ((D.state disk.new).seen ≡ (D.state disk.old).seen) }
    ensures any_moment { LeavesOnly (D.state disk.old) (D.state disk.new) (From (D.state disk.old) Unchanged) }
    ensures answer { Answers result (D.state disk.old) (D.state disk.new) }
    ensures run { RunOf 0 result (D.state disk.old) (D.state disk.new) }
    ensures read { OnOk result (HasReadBoth (D.state disk.old).reads (D.state disk.new).reads) }
    ensures read_fewer { OnErr result (HasReadFewer (D.state disk.old).reads (D.state disk.new).reads) }
{
    let first = FRAME_LEN + DIGEST_LEN * layout.pages as usize;
    let from = (first + PAGE_LEN * number as usize) as u64;
    let a = has_digest(disk, layout.a + from, digest)?;
    let b = has_digest(disk, layout.b + from, digest)?;
    Ok(PageState { a, b })
}
