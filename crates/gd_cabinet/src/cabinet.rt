//! A core on a store.

ghost use Rattle.std.specs.Prelude.{◌≡◌, ◌<◌, not, true, false, List, ℕ, Some};
ghost use Rattle.std.specs.Coded.{Coded-set};
ghost use Rattle.gd_disk.specs.Disk.{IsSynced};
ghost use Rattle.gd_disk.specs.declared.lengths.TheConstants.{PAGE_COUNT};
ghost use Rattle.gd_base.specs.Payloads.Spelled.{Shows, coded_spelled};
ghost use Rattle.gd_store.specs.Copy.{HoldsBoth};
ghost use Rattle.gd_store.specs.declared.copy.layout.TheConstants.{LAYOUT};
ghost use Rattle.gd_store.specs.Store.{store_disk, store_payload, store_sequence, store_stopped};

use gd_base::{Core, Draws};
use gd_disk::{CutUnit, Disk, LabDisk, MOST_CUTS, MOST_TORN};
use gd_store::{Room, Store};

/// What a cabinet is made of, and what is left of it when it is closed.
#[derive(Drop)]
pub struct Parts<C, D, W> {
    /// Keeps the history as its view. What it shows before an opening doesn't matter.
    pub core: C,
    pub disk: D,
    /// The source of the blocks of random words.
    pub draws: W,
    /// Memory for the store.
    pub room: Room,
}

/// A core whose history both copies on a disk hold, until a call to the disk fails. From then on no event is taken, and
/// the core shows what was committed last. `page` is the page of the copies that is checked next.
#[derive(Drop)]
pub struct Cabinet<C: Core, D: Disk, W: Draws> {
    pub(crate) core: C,
    pub(crate) store: Store<D>,
    pub(crate) draws: W,
    pub(crate) lap: u64,
    pub(crate) page: u8,
    ghost spelled: { (C.meaning core).spelled (store_payload store)
        ≡ Shows (C.view core) } by { Coded-set (coded_spelled C.coded) _ _ },
    ghost count: { (C.meaning core).count (C.view core) ≡ store_sequence store },
    ghost power: { (D.state (store_disk store)).is_on ≡ not (store_stopped store) },
    ghost page_within: { page < PAGE_COUNT },
}

impl<C: Core, D: Disk, W: Draws> Cabinet<C, D, W> {
    ghost use Rattle.gd_store.specs.OpenAnswer.{IsOpenable};
    ghost use Rattle.gd_cabinet.specs.Shown.{shows, IsInBoth};
    ghost use Rattle.gd_cabinet.specs.Cabinet.{cabinet_core, cabinet_disk, cabinet_draws, cabinet_stopped};

    /// The core. After Off it is as before the event.
    pub fn core(&self) -> &C
        ensures { result.now ≡ cabinet_core self.now }
    {
        &self.core
    }

    /// How many calls to the disk have failed.
    pub fn stops(&self) -> u64
        ensures { result ≡ (D.state (cabinet_disk self.now)).stops }
    {
        self.store.stops()
    }

    /// Gives the parts back. They may be opened again.
    pub fn close(self) -> Parts<C, D, W>
        ensures core { result.core ≡ cabinet_core self }
        ensures disk { result.disk ≡ cabinet_disk self }
        ensures draws { result.draws ≡ cabinet_draws self }
        ensures openable { IsOpenable (D.state result.disk) }
        ensures synced { cabinet_stopped self ≡ false → IsSynced (D.state result.disk) }
        ensures both { cabinet_stopped self ≡ false → (image : List ℕ) → (D.state result.disk).may_find image
            → IsInBoth (C.meaning result.core) (C.view result.core) image }
        ensures shown { cabinet_stopped self ≡ false → (image : List ℕ) → (D.state result.disk).may_find image
            → shows (C.meaning result.core) image ≡ Shows (C.view result.core) }
    {
        parts_of(self.core, self.store, self.draws)
    }
}

/// The parts of a core on a store.
pub(crate) fn parts_of<C, D: Disk, W>(core: C, store: Store<D>, draws: W) -> Parts<C, D, W>
    ensures core { result.core ≡ core }
    ensures disk { result.disk ≡ store_disk store }
    ensures draws { result.draws ≡ draws }
    ensures synced { store_stopped store ≡ false → IsSynced (D.state result.disk) }
    ensures settled { store_stopped store ≡ false → (image : List ℕ) → (D.state result.disk).seen ≡ Some image
        → HoldsBoth LAYOUT (store_sequence store) (store_payload store) image }
{
    let (disk, room) = store.close();
    Parts {
        core,
        disk,
        draws,
        room,
    }
}

impl<C: Core, L: LabDisk, W: Draws> Cabinet<C, L, W> {
    ghost use Rattle.std.specs.Prelude.{◌≤◌, ◌++◌, ◌∷◌, [], length};
    ghost use Rattle.gd_disk.specs.Disk.{Loses, Unchanged, KeepsCounts};
    ghost use Rattle.gd_cabinet.specs.Cabinet.{cabinet_core, cabinet_disk, cabinet_draws, cabinet_lap, cabinet_page, cabinet_stopped};

    /// Adds a cut behind the armed ones of the disk, as its own call does, and changes nothing else. It comes at call
    /// `count` of its unit, counted from 1 from when it is the first; `torn` says what it leaves.
    pub fn arm(&mut self, unit: CutUnit, count: u32, torn: u8)
        requires room { length (L.state (cabinet_disk self.old)).armed < MOST_CUTS }
        requires count { 1 ≤ count }
        requires torn { torn ≤ MOST_TORN }
        ensures armed { (L.state (cabinet_disk self.new)).armed
            ≡ (L.state (cabinet_disk self.old)).armed ++ record { unit = unit; count = count; torn = torn } ∷ [] }
        ensures power { (L.state (cabinet_disk self.new)).is_on ≡ (L.state (cabinet_disk self.old)).is_on }
        ensures seen { (L.state (cabinet_disk self.new)).seen ≡ (L.state (cabinet_disk self.old)).seen }
        ensures loss { Loses Unchanged (L.state (cabinet_disk self.old)) (L.state (cabinet_disk self.new)) }
        ensures counts { KeepsCounts (L.state (cabinet_disk self.old)) (L.state (cabinet_disk self.new)) }
        ensures found { (L.state (cabinet_disk self.new)).found ≡ (L.state (cabinet_disk self.old)).found }
        ensures faults { (L.state (cabinet_disk self.new)).faults ≡ (L.state (cabinet_disk self.old)).faults }
        ensures core { cabinet_core self.new ≡ cabinet_core self.old }
        ensures draws { cabinet_draws self.new ≡ cabinet_draws self.old }
        ensures lap { cabinet_lap self.new ≡ cabinet_lap self.old }
        ensures page { cabinet_page self.new ≡ cabinet_page self.old }
        ensures stopped { cabinet_stopped self.new ≡ cabinet_stopped self.old }
    {
        self.store.arm(unit, count, torn);
    }

    /// How many cuts are armed in the disk. An event that was answered Off was cut where this number fell in the call,
    /// and else the disk had a fault.
    pub fn cuts_armed(&self) -> u32
        ensures { result ≡ length (L.state (cabinet_disk self.now)).armed }
    {
        self.store.cuts_armed()
    }
}
