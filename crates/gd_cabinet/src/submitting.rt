//! An event of a core on a store, and one that a device numbered.

ghost use Rattle.std.specs.Prelude.{◌≡◌, ◌≢◌, ◌↔◌, OnOk, OnErr, IfOk, IsOk, IsErr, IsErrOf, List, ℕ, true, false, ◌⊎◌, ◌+◌, ◌<◌, ◌^◌, Some};
ghost use Rattle.gd_disk.specs.Disk.{next_count, Answers, Rose};
ghost use Rattle.gd_disk.specs.CutRuns.{RunOf};
ghost use Rattle.gd_disk.specs.Runs.{LeavesOnly, CutsOfRun};
ghost use Rattle.gd_base.specs.Judging.Answer.{answer, is_new, draw_for};
ghost use Rattle.gd_store.specs.Writing.{MadeSyncs};
ghost use Rattle.gd_cabinet.specs.Answers.{cabinet_answer, view_offered, event_syncs};
ghost use Rattle.gd_cabinet.specs.Shown.{ShowsEither, IsInBoth, shows};
ghost use Rattle.gd_cabinet.specs.Cabinet.{cabinet_core, cabinet_disk, cabinet_draws, cabinet_lap, cabinet_page, cabinet_payload, cabinet_stopped};
ghost use Rattle.gd_cabinet.specs.Pages.{WritesChanges};
ghost use Rattle.gd_base.specs.Payloads.Spelled.{Shows};
ghost use Rattle.gd_store.specs.Copy.{boots};
ghost use Rattle.gd_store.specs.Store.{store_disk, store_payload, store_sequence, store_stopped};

use crate::Cabinet;
use gd_base::{Block, Core, Draws, Event, Numbered, PAYLOAD_LEN, Reply, Stepped};
use gd_disk::{Disk, Off};
use gd_store::{LAYOUT, MOST_SEQUENCE, Store};

/// The answer to an event that was offered.
#[derive(Clone, Copy, PartialEq, Eq, Debug, Drop)]
pub enum Answer {
    /// The event stands as an entry in both copies: it was committed by this call, or `again` by an earlier one. The
    /// reply is its own. `count` is the number of entries now.
    Ack {
        reply: Reply,
        again: bool,
        count: u64,
    },
    /// The number is neither the device's last one nor the next, which is expected. Nothing changed.
    OutOfStep {
        expected: u64,
    },
    /// The number is the next one, and the history has 2^36 entries. Nothing changed.
    HistoryFull,
}

/// Why an event got no answer. The core is as before the call.
#[derive(Clone, Copy, PartialEq, Eq, Debug, Drop)]
pub enum Stop {
    /// A call to the disk failed in this call, and the power is off. The event may have been committed or not: the next
    /// opening tells.
    Off,
    /// An earlier call on this cabinet answered Off. Nothing was done.
    Stopped,
}

impl<C: Core, D: Disk, W: Draws> Cabinet<C, D, W> {
    /// Offers an event under its number. A new one is one entry more: it is judged, committed to both copies by six
    /// syncs, and then acknowledged. A repeat gets the kept reply, and any other number changes nothing; neither makes
    /// a call to the disk.
    ///
    /// Off comes where a call to the disk failed in this call; the core is then as before it. Stopped comes where an
    /// earlier call answered Off; close the cabinet, and open its parts again. Starts are made by `open` alone.
    pub fn submit(&mut self, e: &Numbered) -> Result<Answer, Stop>
        requires not_start { e.now.event ≢ Event.Start }
        ensures answer { IfOk result (λ a. a
            ≡ cabinet_answer (answer (C.meaning (cabinet_core self.old)) (C.view (cabinet_core self.old)) e.now)
            ((C.meaning (cabinet_core self.old)).count (C.view (cabinet_core self.new)))) }
        ensures view { OnOk result (C.view (cabinet_core self.new)
            ≡ view_offered (C.meaning (cabinet_core self.old)) (W.block_of (cabinet_draws self.old))
            (cabinet_lap self.old) (C.view (cabinet_core self.old)) e.now) }
        ensures both { OnOk result ((image : List ℕ) → (D.state (cabinet_disk self.new)).may_find image
            → IsInBoth (C.meaning (cabinet_core self.old)) (C.view (cabinet_core self.new)) image) }
        ensures stays { OnErr result (C.view (cabinet_core self.new) ≡ C.view (cabinet_core self.old)) }
        ensures any_moment { cabinet_stopped self.old ≡ false
            → LeavesOnly (D.state (cabinet_disk self.old)) (D.state (cabinet_disk self.new))
            (ShowsEither (C.meaning (cabinet_core self.old)) (C.view (cabinet_core self.old))
            (view_offered (C.meaning (cabinet_core self.old)) (W.block_of (cabinet_draws self.old))
            (cabinet_lap self.old) (C.view (cabinet_core self.old)) e.now)) }
        ensures pages { cabinet_stopped self.old ≡ false
            → WritesChanges (C.meaning (cabinet_core self.old)) (view_offered (C.meaning (cabinet_core self.old))
            (W.block_of (cabinet_draws self.old)) (cabinet_lap self.old) (C.view (cabinet_core self.old)) e.now)
            (cabinet_payload self.old) (cabinet_payload self.new) result (D.state (cabinet_disk self.old))
            (D.state (cabinet_disk self.new)) }
        ensures stopped { IsErrOf result Stop.Stopped ↔ (cabinet_stopped self.old ≡ true) }
        ensures off { IsErr result ↔ (cabinet_stopped self.new ≡ true) }
        ensures cause { IsErrOf result Stop.Off
            → (D.state (cabinet_disk self.new)).stops ≡ next_count (D.state (cabinet_disk self.old)).stops }
        ensures no_stop { OnOk result ((D.state (cabinet_disk self.new)).stops
            ≡ (D.state (cabinet_disk self.old)).stops) }
        ensures is_on { OnOk result (((D.state (cabinet_disk self.old)).is_on ≡ true)
            × ((D.state (cabinet_disk self.new)).is_on ≡ true)) }
        ensures is_off { OnErr result ((D.state (cabinet_disk self.new)).is_on ≡ false) }
        ensures syncs { cabinet_stopped self.old ≡ false
            → MadeSyncs (event_syncs (C.meaning (cabinet_core self.old)) (C.view (cabinet_core self.old)) e.now)
            result (D.state (cabinet_disk self.old)) (D.state (cabinet_disk self.new)) }
        ensures cuts { cabinet_stopped self.old ≡ false
            → CutsOfRun (event_syncs (C.meaning (cabinet_core self.old)) (C.view (cabinet_core self.old)) e.now)
            result (D.state (cabinet_disk self.old)) (D.state (cabinet_disk self.new)) }
        ensures run { RunOf (event_syncs (C.meaning (cabinet_core self.old)) (C.view (cabinet_core self.old)) e.now)
            result (D.state (cabinet_disk self.old)) (D.state (cabinet_disk self.new)) }
        ensures reads { (D.state (cabinet_disk self.new)).reads ≡ (D.state (cabinet_disk self.old)).reads }
        ensures no_call { is_new (answer (C.meaning (cabinet_core self.old)) (C.view (cabinet_core self.old)) e.now)
            ≡ false → cabinet_disk self.new ≡ cabinet_disk self.old }
        ensures only_new { IsErrOf result Stop.Off
            → is_new (answer (C.meaning (cabinet_core self.old)) (C.view (cabinet_core self.old)) e.now) ≡ true }
        ensures served { cabinet_stopped self.old ≡ false
            → ((D.state (cabinet_disk self.new)).stops ≡ next_count (D.state (cabinet_disk self.old)).stops → ⊥)
            → IsOk result }
        ensures size { (D.state (cabinet_disk self.new)).size ≡ (D.state (cabinet_disk self.old)).size }
        ensures found { (D.state (cabinet_disk self.new)).found ≡ (D.state (cabinet_disk self.old)).found }
        ensures untouched { IsErrOf result Stop.Stopped → self.new ≡ self.old }
        ensures meaning { C.meaning (cabinet_core self.new) ≡ C.meaning (cabinet_core self.old) }
        ensures draws { (l i : ℕ) → W.block_of (cabinet_draws self.new) l i ≡ W.block_of (cabinet_draws self.old) l i }
        ensures lap { cabinet_lap self.new ≡ cabinet_lap self.old }
        ensures page { cabinet_page self.new ≡ cabinet_page self.old }
    {
        if self.store.is_stopped() {
            return Err(Stop::Stopped);
        }
        match offer(
            &mut self.core,
            &mut self.store,
            &mut self.draws,
            self.lap,
            e,
        ) {
            Ok(answer) => {
                prove!(!self.store.is_stopped());
                Ok(answer)
            }
            Err(Off) => Err(Stop::Off),
        }
    }
}

/// The block of the lap and the core's next index, where the event needs one.
fn draw_of<C: Core, W: Draws>(
    core: &C,
    draws: &mut W,
    lap: u64,
    e: &Numbered,
) -> Option<(u64, Block)>
    ensures draw { result ≡ draw_for (C.meaning core.now) (W.block_of draws.old) lap (C.view core.now) e.now }
    ensures same { (l i : ℕ) → W.block_of draws.new l i ≡ W.block_of draws.old l i }
{
    if core.needs_draw(e) {
        let index = core.draw_index();
        Some((index, draws.block(lap, index)))
    } else {
        None
    }
}

/// Commits what the core spells.
fn commit_view<C: Core, D: Disk>(core: &C, store: &mut Store<D>) -> Result<(), Off>
    requires room { store_sequence store.old < MOST_SEQUENCE }
    requires runs { store_stopped store.old ≡ false }
    requires count { (C.meaning core.now).count (C.view core.now) ≡ store_sequence store.old + 1 }
    ensures spelled { OnOk result ((C.meaning core.now).spelled (store_payload store.new) ≡ Shows (C.view core.now)) }
    ensures sequence { OnOk result (store_sequence store.new ≡ store_sequence store.old + 1) }
    ensures runs { OnOk result (store_stopped store.new ≡ false) }
    ensures stays { OnErr result ((store_sequence store.new ≡ store_sequence store.old)
        × (store_payload store.new ≡ store_payload store.old) × (store_stopped store.new ≡ true)) }
    ensures any_moment { LeavesOnly (D.state (store_disk store.old)) (D.state (store_disk store.new))
        (λ image. (boots LAYOUT image ≡ Some (store_sequence store.old, store_payload store.old))
        ⊎ (shows (C.meaning core.now) image ≡ Shows (C.view core.now))) }
    ensures pages { WritesChanges (C.meaning core.now) (C.view core.now) (store_payload store.old)
        (store_payload store.new) result (D.state (store_disk store.old)) (D.state (store_disk store.new)) }
    ensures answer { Answers result (D.state (store_disk store.old)) (D.state (store_disk store.new)) }
    ensures fewer { OnErr result ((D.state (store_disk store.new)).syncs < (D.state (store_disk store.old)).syncs + 6) }
    ensures run { RunOf 6 result (D.state (store_disk store.old)) (D.state (store_disk store.new)) }
    ensures reads { (D.state (store_disk store.new)).reads ≡ (D.state (store_disk store.old)).reads }
{
    let mut image = [0; PAYLOAD_LEN];
    core.write_image(&mut image);
    store.commit(&image)
}

/// The acknowledgement of an event, with the number of entries now.
fn acknowledge<C: Core>(core: &C, reply: Reply, again: bool) -> Answer
    ensures { result ≡ Answer.Ack reply again ((C.meaning core.now).count (C.view core.now)) }
{
    Answer::Ack {
        reply,
        again,
        count: core.count(),
    }
}

/// Offers an event. At Ok the core and both copies have what it makes, and at Off the core is as before.
pub(crate) fn offer<C: Core, D: Disk, W: Draws>(
    core: &mut C,
    store: &mut Store<D>,
    draws: &mut W,
    lap: u64,
    e: &Numbered,
) -> Result<Answer, Off>
    requires runs { store_stopped store.old ≡ false }
    requires spelled { (C.meaning core.old).spelled (store_payload store.old) ≡ Shows (C.view core.old) }
    requires count { (C.meaning core.old).count (C.view core.old) ≡ store_sequence store.old }
    requires is_on { (D.state (store_disk store.old)).is_on ≡ true }
    ensures answer { IfOk result (λ a. a
        ≡ cabinet_answer (answer (C.meaning core.old) (C.view core.old) e.now) ((C.meaning core.old).count
        (C.view core.new))) }
    ensures view { OnOk result (C.view core.new
        ≡ view_offered (C.meaning core.old) (W.block_of draws.old) lap (C.view core.old) e.now) }
    ensures stays { OnErr result (C.view core.new ≡ C.view core.old) }
    ensures spelled { (C.meaning core.old).spelled (store_payload store.new) ≡ Shows (C.view core.new) }
    ensures count { (C.meaning core.old).count (C.view core.new) ≡ store_sequence store.new }
    ensures runs { OnOk result (store_stopped store.new ≡ false) }
    ensures stops { OnErr result (store_stopped store.new ≡ true) }
    ensures any_moment { LeavesOnly (D.state (store_disk store.old)) (D.state (store_disk store.new))
        (ShowsEither (C.meaning core.old) (C.view core.old) (view_offered (C.meaning core.old) (W.block_of draws.old)
        lap (C.view core.old) e.now)) }
    ensures pages { WritesChanges (C.meaning core.old) (view_offered (C.meaning core.old) (W.block_of draws.old) lap
        (C.view core.old) e.now) (store_payload store.old) (store_payload store.new) result
        (D.state (store_disk store.old)) (D.state (store_disk store.new)) }
    ensures outcome { Answers result (D.state (store_disk store.old)) (D.state (store_disk store.new)) }
    ensures fewer { OnErr result ((D.state (store_disk store.new)).syncs <
        (D.state (store_disk store.old)).syncs + event_syncs (C.meaning core.old) (C.view core.old) e.now) }
    ensures run { RunOf (event_syncs (C.meaning core.old) (C.view core.old) e.now) result
        (D.state (store_disk store.old)) (D.state (store_disk store.new)) }
    ensures reads { (D.state (store_disk store.new)).reads ≡ (D.state (store_disk store.old)).reads }
    ensures no_call { is_new (answer (C.meaning core.old) (C.view core.old) e.now) ≡ false
        → store_disk store.new ≡ store_disk store.old }
    ensures cause { OnErr result (is_new (answer (C.meaning core.old) (C.view core.old) e.now) ≡ true) }
    ensures meaning { C.meaning core.new ≡ C.meaning core.old }
    ensures draws { (l i : ℕ) → W.block_of draws.new l i ≡ W.block_of draws.old l i }
{
    prove!(!store.is_stopped());
    let draw = draw_of(core, draws, lap, e);
    match core.step(e, draw) {
        Stepped::New(reply) => match commit_view(core, store) {
            Ok(()) => Ok(acknowledge(core, reply, false)),
            Err(off) => {
                core.load(store.payload());
                Err(off)
            }
        },
        Stepped::Again(reply) => Ok(acknowledge(core, reply, true)),
        Stepped::OutOfStep { expected } => Ok(Answer::OutOfStep { expected }),
        Stepped::HistoryFull => Ok(Answer::HistoryFull),
    }
}
