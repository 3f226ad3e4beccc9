//! The check of the memory between events.

ghost use Rattle.std.specs.Prelude.{◌≡◌, ◌↔◌, ◌+◌, ◌<◌, ◌==◌, if◌then◌else◌, true, false, IfOk, IsErr, IsErrOf, OnErr, OnOk, ℕ};
ghost use Rattle.gd_disk.specs.CutRuns.{RunOf};
ghost use Rattle.gd_disk.specs.Disk.{IfTold, Unchanged, next_count};
ghost use Rattle.gd_disk.specs.Runs.{LeavesOnly};
ghost use Rattle.gd_store.specs.Checking.{IsChecked};
ghost use Rattle.gd_store.specs.Reads.{HasReadBoth, HasReadFewer};
ghost use Rattle.gd_store.specs.Writing.{From};
ghost use Rattle.gd_cabinet.specs.Cabinet.{cabinet_core, cabinet_disk, cabinet_draws, cabinet_lap, cabinet_page, cabinet_payload, cabinet_stopped};
ghost use Rattle.gd_cabinet.specs.Pages.{next_page};

use crate::{Cabinet, Stop};
use gd_base::{Core, Draws};
use gd_disk::{Disk, Off, PAGE_COUNT};
use gd_store::{LAYOUT, PageState};

/// The page that is checked after another.
fn next_page(page: u8) -> u8
    requires { page < PAGE_COUNT }
    ensures next { result ≡ next_page page }
    ensures within { result < PAGE_COUNT }
{
    if page as usize + 1 == PAGE_COUNT {
        return 0;
    }
    page + 1
}

impl<C: Core, D: Disk, W: Draws> Cabinet<C, D, W> {
    /// Reads one page of both copies, and tells for each whether it has the digest of that page of what was committed
    /// last: pages 0 to `PAGE_COUNT - 1` in turn, one a call, and then page 0 again. An opening begins at page 0.
    /// Nothing is written, and no entry is made.
    ///
    /// Off comes where a call to the disk failed in this call, and Stopped where an earlier call answered Off.
    pub fn idle(&mut self) -> Result<PageState, Stop>
        ensures told { IfOk result (λ state. IfTold (D.state (cabinet_disk self.old)).seen
            (IsChecked LAYOUT (cabinet_page self.old) (cabinet_payload self.old) state)) }
        ensures next { OnOk result (cabinet_page self.new ≡ next_page (cabinet_page self.old)) }
        ensures same_page { OnErr result (cabinet_page self.new ≡ cabinet_page self.old) }
        ensures core { cabinet_core self.new ≡ cabinet_core self.old }
        ensures payload { cabinet_payload self.new ≡ cabinet_payload self.old }
        ensures draws { cabinet_draws self.new ≡ cabinet_draws self.old }
        ensures lap { cabinet_lap self.new ≡ cabinet_lap self.old }
        ensures stopped { IsErrOf result Stop.Stopped ↔ (cabinet_stopped self.old ≡ true) }
        ensures off { IsErr result ↔ (cabinet_stopped self.new ≡ true) }
        ensures cause { IsErrOf result Stop.Off
            → (D.state (cabinet_disk self.new)).stops ≡ next_count (D.state (cabinet_disk self.old)).stops }
        ensures no_stop { OnOk result ((D.state (cabinet_disk self.new)).stops
            ≡ (D.state (cabinet_disk self.old)).stops) }
        ensures is_on { OnOk result (((D.state (cabinet_disk self.old)).is_on ≡ true)
            × ((D.state (cabinet_disk self.new)).is_on ≡ true)) }
        ensures is_off { OnErr result ((D.state (cabinet_disk self.new)).is_on ≡ false) }
        ensures seen { OnOk result ((D.state (cabinet_disk self.new)).seen ≡ (D.state (cabinet_disk self.old)).seen) }
        ensures any_moment { cabinet_stopped self.old ≡ false
            → LeavesOnly (D.state (cabinet_disk self.old)) (D.state (cabinet_disk self.new)) (From
            (D.state (cabinet_disk self.old)) Unchanged) }
        ensures run { cabinet_stopped self.old ≡ false
            → RunOf 0 result (D.state (cabinet_disk self.old)) (D.state (cabinet_disk self.new)) }
        ensures read { OnOk result (HasReadBoth (D.state (cabinet_disk self.old)).reads
            (D.state (cabinet_disk self.new)).reads) }
        ensures read_fewer { OnErr result (HasReadFewer (D.state (cabinet_disk self.old)).reads
            (D.state (cabinet_disk self.new)).reads) }
        ensures size { (D.state (cabinet_disk self.new)).size ≡ (D.state (cabinet_disk self.old)).size }
        ensures found { (D.state (cabinet_disk self.new)).found ≡ (D.state (cabinet_disk self.old)).found }
        ensures untouched { IsErrOf result Stop.Stopped → self.new ≡ self.old }
    {
        if self.store.is_stopped() {
            return Err(Stop::Stopped);
        }
        match self.store.check_page(self.page) {
            Ok(state) => {
                prove!(!self.store.is_stopped());
                self.page = next_page(self.page);
                Ok(state)
            }
            Err(Off) => Err(Stop::Off),
        }
    }
}
