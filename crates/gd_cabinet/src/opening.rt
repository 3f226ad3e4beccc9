//! The opening of a memory, with its start.

ghost use Rattle.std.specs.Prelude.{◌≡◌, ◌⊎◌, ◌+◌, Some, List, ℕ, true, false, Err, IfOk, IfErr, length};
ghost use Rattle.gd_disk.specs.Disk.{IfTold, IsSynced, Rose, Unchanged, next_count};
ghost use Rattle.gd_disk.specs.Runs.{LeavesOnly, CutOrFaultIn};
ghost use Rattle.gd_base.specs.Judging.Answer.{is_full, answer, is_new};
ghost use Rattle.gd_base.specs.Payloads.Spelled.{Shows, load_answer};
ghost use Rattle.gd_store.specs.Copy.{boots, found_in};
ghost use Rattle.gd_store.specs.Lost.{IsLost};
ghost use Rattle.gd_store.specs.OpenAnswer.{IsOpenable};
ghost use Rattle.gd_store.specs.Reads.{HasReadSome};
ghost use Rattle.gd_store.specs.Writing.{From};
ghost use Rattle.gd_cabinet.specs.CoreLeft.{LeavesCore};
ghost use Rattle.gd_cabinet.specs.OpenAnswer.{disk_in, core_in, draws_in, OnReady, OnShut, OnOff, OnUnread, OpenedAs};
ghost use Rattle.gd_cabinet.specs.OpenMoments.{IsOpening, opening_syncs, start_of, start_syncs, view_started};
ghost use Rattle.gd_cabinet.specs.OpenRuns.{RunsBy, OpeningRun, FirstReading};
ghost use Rattle.gd_cabinet.specs.Shown.{shows, IsInBoth, ShowsEither};
ghost use Rattle.gd_cabinet.specs.ExactAnswers.{loading, AnswersTo, IsLostWhere};
ghost use Rattle.gd_cabinet.specs.Cabinet.{cabinet_core, cabinet_disk, cabinet_lap, cabinet_page, cabinet_stopped, cabinet_draws};
ghost use Rattle.gd_disk.specs.CutRuns.{IsCompleteRun, RunOf};
ghost use Rattle.gd_base.specs.Payloads.LoadedView.{at_sequence, view_loaded};
ghost use Rattle.gd_store.specs.Store.{store_disk, store_payload, store_sequence, store_stopped};
ghost use Rattle.gd_cabinet.specs.Answers.{event_syncs};

use crate::cabinet::parts_of;
use crate::submitting::offer;
use crate::{Cabinet, Parts};
use gd_base::{Core, Device, Draws, Event, Loaded, MOST_ENTRIES, Numbered, PAYLOAD_LEN};
use gd_disk::{DISK_LEN, Disk, Off};
use gd_store::{Booted, Found, LAYOUT, Opened, Store, boot};

/// Why a memory is locked.
#[derive(Clone, Copy, PartialEq, Eq, Debug, Drop)]
pub enum Locked {
    /// No copy is sound, or both are at one sequence with different payloads.
    Lost,
    /// The booted payload spells no view, or one under the given setup whose count of entries isn't the sequence.
    Unreadable,
}

/// What the opening of a memory answers. `found` has what the two copies were before it.
#[derive(Drop)]
pub enum CabinetOpened<C: Core, D: Disk, W: Draws> {
    /// The view was read, a copy that had to be was repaired, and the start was committed. At 2^36 entries no start is.
    Ready {
        cabinet: Cabinet<C, D, W>,
        found: Found,
    },
    /// The memory shows no view. Nothing was written.
    Locked {
        why: Locked,
        found: Found,
        parts: Parts<C, D, W>,
    },
    /// The memory was made under another setup, of the digest `kept`. Nothing was written.
    Differs {
        kept: [u8; 32],
        found: Found,
        parts: Parts<C, D, W>,
    },
    /// A call to the disk failed. `found` is None where that was in the first reading of the copies.
    Off {
        found: Option<Found>,
        parts: Parts<C, D, W>,
    },
}

/// Opens the store of a memory that shows a view, and commits the start. The payload is loaded a second time, from the
/// store: only a disk that tells its content is sure to give the same bytes at both readings.
fn open_store<C: Core, D: Disk, W: Draws>(
    parts: Parts<C, D, W>,
    lap: u64,
    found: Found,
) -> CabinetOpened<C, D, W>
    requires size { (D.state parts.disk).size ≡ DISK_LEN }
    requires synced { IsSynced (D.state parts.disk) }
    requires is_on { (D.state parts.disk).is_on ≡ true }
    requires found { IfTold (D.state parts.disk).seen (λ image. found ≡ found_in LAYOUT image) }
    requires told { IfTold (D.state parts.disk).seen (λ image. shows (C.meaning parts.core) image
        ≡ Shows (C.view parts.core)) }
    ensures what { IfTold (D.state parts.disk).seen (OpenedAs (C.meaning parts.core) C.view
        (W.block_of parts.draws) lap result) }
    ensures any_moment { LeavesOnly (D.state parts.disk)
        (D.state (disk_in result)) (IsOpening (C.meaning parts.core) (W.block_of parts.draws) lap
        (D.state parts.disk)) }
    ensures ready { OnReady result (λ cabinet found. (cabinet_stopped cabinet ≡ false) × (cabinet_lap cabinet ≡ lap)) }
    ensures first_page { OnReady result (λ cabinet found. cabinet_page cabinet ≡ 0) }
    ensures both { OnReady result (λ cabinet found. (image : List ℕ)
        → (D.state (cabinet_disk cabinet)).may_find image
        → IsInBoth (C.meaning parts.core) (C.view (cabinet_core cabinet)) image) }
    ensures meaning { C.meaning (core_in result) ≡ C.meaning parts.core }
    ensures draws { (l i : ℕ) → W.block_of (draws_in result) l i ≡ W.block_of parts.draws l i }
    ensures not_shut { OnShut result (IfTold (D.state parts.disk).seen (λ image. ⊥)) }
    ensures not_unread { OnUnread result ⊥ }
    ensures reads { HasReadSome (D.state parts.disk).reads (D.state (disk_in result)).reads }
    ensures core_left { LeavesCore (C.meaning parts.core) C.view parts.core result (D.state parts.disk).seen }
    ensures stays_on { OnShut result (((D.state (disk_in result)).is_on ≡ true)
        × ((D.state (disk_in result)).stops ≡ (D.state parts.disk).stops)
        × ((D.state (disk_in result)).faults ≡ (D.state parts.disk).faults)) }
    ensures cause { OnOff result ((D.state (disk_in result)).stops ≡ next_count (D.state parts.disk).stops) }
    ensures is_off { OnOff result ((D.state (disk_in result)).is_on ≡ false) }
    ensures no_stop { OnReady result (λ cabinet found. (D.state (cabinet_disk cabinet)).stops
        ≡ (D.state parts.disk).stops) }
    ensures is_on { OnReady result (λ cabinet found. (D.state (cabinet_disk cabinet)).is_on ≡ true) }
    ensures answer_run { OpeningRun (C.meaning parts.core) C.view (W.block_of parts.draws) lap result
        (D.state parts.disk) (D.state (disk_in result)) }
    ensures run { IfTold (D.state parts.disk).seen
        (λ image. RunsBy result (opening_syncs (C.meaning parts.core) image) (D.state parts.disk)
        (D.state (disk_in result))) }
    ensures size { (D.state (disk_in result)).size ≡ (D.state parts.disk).size }
    ensures found { (D.state (disk_in result)).found ≡ (D.state parts.disk).found }
{
    let Parts {
        mut core,
        disk,
        draws,
        room,
    } = parts;
    match Store::open(disk, room) {
        Opened::Off { disk, room } => CabinetOpened::Off {
            found: Some(found),
            parts: Parts {
                core,
                disk,
                draws,
                room,
            },
        },
        Opened::Lost { found, disk, room } => {
            core.clear();
            CabinetOpened::Locked {
                why: Locked::Lost,
                found,
                parts: Parts {
                    core,
                    disk,
                    draws,
                    room,
                },
            }
        }
        Opened::Ready { store, found } => match load_at(
            &mut core,
            store.payload(),
            store.sequence(),
        ) {
            Loaded::Read => match offer_start(core, store, draws, lap) {
                Ok(cabinet) => CabinetOpened::Ready { cabinet, found },
                Err(parts) => CabinetOpened::Off {
                    found: Some(found),
                    parts,
                },
            },
            Loaded::Unreadable => CabinetOpened::Locked {
                why: Locked::Unreadable,
                found,
                parts: parts_of(core, store, draws),
            },
            Loaded::Differs { kept } => CabinetOpened::Differs {
                kept,
                found,
                parts: parts_of(core, store, draws),
            },
        },
    }
}

impl<C: Core, D: Disk, W: Draws> Cabinet<C, D, W> {
    /// Opens a memory: reads both copies, loads the payload of the sound one with the later sequence, repairs the other
    /// copy where that is needed, and commits the start of the power supply under its next number. At 2^36 entries it
    /// adds no start. `lap` is the number of memories that this program run has cleared before.
    ///
    /// Locked comes where the memory shows no view, and Differs where it shows one of another setup. Both are known
    /// before anything is written. Off comes where a call to the disk failed. A repair makes three syncs, and the start
    /// six; what the memory shows at each moment is what it showed before, or that with the start.
    pub fn open(mut parts: Parts<C, D, W>, lap: u64) -> CabinetOpened<C, D, W>
        requires size { (D.state parts.disk).size ≡ DISK_LEN }
        requires openable { IsOpenable (D.state parts.disk) }
        ensures what { IfTold (D.state parts.disk).seen (OpenedAs (C.meaning parts.core) C.view
            (W.block_of parts.draws) lap result) }
        ensures any_moment { LeavesOnly (D.state parts.disk)
            (D.state (disk_in result)) (IsOpening (C.meaning parts.core) (W.block_of parts.draws) lap
            (D.state parts.disk)) }
        ensures ready { OnReady result (λ cabinet found. (cabinet_stopped cabinet ≡ false)
            × (cabinet_lap cabinet ≡ lap)) }
        ensures first_page { OnReady result (λ cabinet found. cabinet_page cabinet ≡ 0) }
        ensures both { OnReady result (λ cabinet found. (image : List ℕ)
            → (D.state (cabinet_disk cabinet)).may_find image
            → IsInBoth (C.meaning parts.core) (C.view (cabinet_core cabinet)) image) }
        ensures meaning { C.meaning (core_in result) ≡ C.meaning parts.core }
        ensures draws { (l i : ℕ) → W.block_of (draws_in result) l i ≡ W.block_of parts.draws l i }
        ensures untouched { OnShut result (IfTold (D.state parts.disk).seen
            (λ image. ((D.state (disk_in result)).seen ≡ Some image)
            × ((D.state (disk_in result)).syncs ≡ (D.state parts.disk).syncs)
            × ((D.state (disk_in result)).armed ≡ (D.state parts.disk).armed))) }
        ensures unwritten { OnShut result (IfTold (D.state parts.disk).seen
            (λ image. LeavesOnly (D.state parts.disk) (D.state (disk_in result))
            (From (D.state parts.disk) Unchanged))) }
        ensures stays_on { OnShut result (((D.state (disk_in result)).is_on ≡ true)
            × ((D.state (disk_in result)).stops ≡ (D.state parts.disk).stops)
            × ((D.state (disk_in result)).faults ≡ (D.state parts.disk).faults)) }
        ensures cause { OnOff result ((D.state (disk_in result)).stops ≡ next_count (D.state parts.disk).stops) }
        ensures is_off { OnOff result ((D.state (disk_in result)).is_on ≡ false) }
        ensures unread { OnUnread result (((D.state (disk_in result)).armed ≡ (D.state parts.disk).armed)
            × ((D.state (disk_in result)).syncs ≡ (D.state parts.disk).syncs)
            × ((D.state parts.disk).is_on ≡ true
            → Rose (D.state parts.disk).faults (D.state (disk_in result)).faults)) }
        ensures unread_images { OnUnread result (LeavesOnly (D.state parts.disk)
            (D.state (disk_in result)) (From (D.state parts.disk) Unchanged)) }
        ensures cut { OnOff result (IfTold (D.state parts.disk).seen (λ image. (D.state parts.disk).is_on ≡ true
            → CutOrFaultIn (opening_syncs (C.meaning parts.core) image) (D.state parts.disk)
            (D.state (disk_in result)))) }
        ensures no_stop { OnReady result (λ cabinet found. (D.state (cabinet_disk cabinet)).stops
            ≡ (D.state parts.disk).stops) }
        ensures is_on { OnReady result (λ cabinet found. (D.state (cabinet_disk cabinet)).is_on ≡ true) }
        ensures answer_run { OpeningRun (C.meaning parts.core) C.view (W.block_of parts.draws) lap result
            (D.state parts.disk) (D.state (disk_in result)) }
        ensures run { IfTold (D.state parts.disk).seen
            (λ image. RunsBy result (opening_syncs (C.meaning parts.core) image) (D.state parts.disk)
            (D.state (disk_in result))) }
        ensures first_reading { FirstReading result (D.state parts.disk) (D.state (disk_in result)) }
        ensures core_left { LeavesCore (C.meaning parts.core) C.view parts.core result (D.state parts.disk).seen }
        ensures exactly { IfTold (D.state parts.disk).seen
            (λ image. AnswersTo result (loading (C.meaning parts.core) (boots LAYOUT image))) }
        ensures lost_exactly { IfTold (D.state parts.disk).seen (λ image. IsLostWhere result (IsLost LAYOUT image)) }
        ensures no_start { OnReady result (λ cabinet found. IfTold (D.state parts.disk).seen (λ image. (v : _)
            → shows (C.meaning parts.core) image ≡ Shows v
            → is_full (C.meaning parts.core) v ≡ true → C.view (cabinet_core cabinet) ≡ v)) }
        ensures size { (D.state (disk_in result)).size ≡ (D.state parts.disk).size }
        ensures found { (D.state (disk_in result)).found ≡ (D.state parts.disk).found }
    {
        match boot(&mut parts.disk, &mut parts.room) {
            Booted::Off => CabinetOpened::Off { found: None, parts },
            Booted::Lost(found) => {
                parts.core.clear();
                CabinetOpened::Locked {
                    why: Locked::Lost,
                    found,
                    parts,
                }
            }
            Booted::Ready { found, sequence } => {
                let Parts {
                    mut core,
                    disk,
                    draws,
                    room,
                } = parts;
                let loaded = load_at(&mut core, room.payload(), sequence);
                let parts = Parts {
                    core,
                    disk,
                    draws,
                    room,
                };
                match loaded {
                    Loaded::Read => open_store(parts, lap, found),
                    Loaded::Unreadable => CabinetOpened::Locked {
                        why: Locked::Unreadable,
                        found,
                        parts,
                    },
                    Loaded::Differs { kept } => CabinetOpened::Differs { kept, found, parts },
                }
            }
        }
    }
}

/// Loads a payload that was booted at this sequence. A view is read only where it has as many entries; after any other answer than
/// Read the core is as after `clear`.
pub fn load_at<C: Core>(core: &mut C, payload: &[u8], sequence: u64) -> Loaded
    requires { length payload.now ≡ PAYLOAD_LEN }
    ensures answer { result ≡ load_answer (at_sequence (C.meaning core.old) sequence
        ((C.meaning core.old).spelled payload.now)) }
    ensures view { C.view core.new
        ≡ view_loaded (C.meaning core.old) (at_sequence (C.meaning core.old) sequence
        ((C.meaning core.old).spelled payload.now)) }
    ensures same { C.meaning core.new ≡ C.meaning core.old }
{
    match core.load(payload) {
        Loaded::Read => {
            if core.count() == sequence {
                Loaded::Read
            } else {
                core.clear();
                Loaded::Unreadable
            }
        }
        other => other,
    }
}

/// The start, under the next number of the power supply. A number is at most the count.
fn next_start<C: Core>(core: &C) -> Numbered
    ensures { result ≡ start_of (C.meaning core.now) (C.view core.now) }
{
    let last = core.last(Device::Power);
    let count = core.count();
    prove!(last <= count && count <= MOST_ENTRIES);
    Numbered {
        number: last + 1,
        event: Event::Start,
    }
}

/// Offers the start. At Off the parts come back.
pub(crate) fn offer_start<C: Core, D: Disk, W: Draws>(
    mut core: C,
    mut store: Store<D>,
    mut draws: W,
    lap: u64,
) -> Result<Cabinet<C, D, W>, Parts<C, D, W>>
    requires runs { store_stopped store ≡ false }
    requires spelled { (C.meaning core).spelled (store_payload store) ≡ Shows (C.view core) }
    requires count { (C.meaning core).count (C.view core) ≡ store_sequence store }
    requires is_on { (D.state (store_disk store)).is_on ≡ true }
    ensures view { IfOk result (λ cabinet. C.view (cabinet_core cabinet)
        ≡ view_started (C.meaning core) (W.block_of draws) lap (C.view core)) }
    ensures both { IfOk result (λ cabinet. (image : List ℕ) → (D.state (cabinet_disk cabinet)).may_find image
        → IsInBoth (C.meaning core) (C.view (cabinet_core cabinet)) image) }
    ensures runs { IfOk result (λ cabinet. (cabinet_stopped cabinet ≡ false) × (cabinet_lap cabinet ≡ lap)
        × (C.meaning (cabinet_core cabinet) ≡ C.meaning core)) }
    ensures first_page { IfOk result (λ cabinet. cabinet_page cabinet ≡ 0) }
    ensures draws { IfOk result (λ cabinet. (l i : ℕ) → W.block_of (cabinet_draws cabinet) l i ≡ W.block_of draws l i) }
    ensures any_moment { IfOk result
        (λ cabinet. LeavesOnly (D.state (store_disk store)) (D.state (cabinet_disk cabinet))
        (ShowsEither (C.meaning core) (C.view core) (view_started (C.meaning core)
        (W.block_of draws) lap (C.view core)))) }
    ensures outcome { IfOk result (λ cabinet. ((D.state (cabinet_disk cabinet)).stops
        ≡ (D.state (store_disk store)).stops)
        × ((D.state (cabinet_disk cabinet)).size ≡ (D.state (store_disk store)).size)
        × ((D.state (cabinet_disk cabinet)).found ≡ (D.state (store_disk store)).found)
        × ((D.state (cabinet_disk cabinet)).is_on ≡ true)
        × ((D.state (cabinet_disk cabinet)).reads ≡ (D.state (store_disk store)).reads)) }
    ensures off_any_moment { IfErr result (λ parts. LeavesOnly (D.state (store_disk store)) (D.state parts.disk)
        (ShowsEither (C.meaning core) (C.view core) (view_started (C.meaning core)
        (W.block_of draws) lap (C.view core)))) }
    ensures off_outcome { IfErr result (λ parts. ((D.state parts.disk).stops
        ≡ next_count (D.state (store_disk store)).stops)
        × ((D.state parts.disk).size ≡ (D.state (store_disk store)).size)
        × ((D.state parts.disk).found ≡ (D.state (store_disk store)).found)
        × ((D.state parts.disk).is_on ≡ false) × ((D.state parts.disk).reads ≡ (D.state (store_disk store)).reads)) }
    ensures run { IfOk result (λ cabinet. IsCompleteRun (start_syncs (C.meaning core) (Shows (C.view core)))
        (D.state (store_disk store)) (D.state (cabinet_disk cabinet))) }
    ensures off_run { IfErr result
        (λ parts. RunOf {T = Unit {0}} {E = Unit {0}} (start_syncs (C.meaning core) (Shows (C.view core))) (Err tt)
        (D.state (store_disk store)) (D.state parts.disk)) }
    ensures off { IfErr result (λ parts. (C.meaning parts.core ≡ C.meaning core) × (C.view parts.core ≡ C.view core)) }
    ensures off_draws { IfErr result (λ parts. (l i : ℕ) → W.block_of parts.draws l i ≡ W.block_of draws l i) }
{
    let start = next_start(&core);
    match offer(&mut core, &mut store, &mut draws, lap, &start) {
        Ok(_) => {
            prove!(!store.is_stopped());
            Ok(Cabinet {
                core,
                store,
                draws,
                lap,
                page: 0,
            })
        }
        Err(Off) => Err(parts_of(core, store, draws)),
    }
}
