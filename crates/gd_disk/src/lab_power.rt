//! The power of a laboratory: cuts too turn it off.
ghost use Rattle.std.specs.Prelude.{◌≡◌, ◌≤◌, ◌+◌, ◌<◌, ◌-◌, ◌&&◌, ◌⊎◌, not, true, false, ◌∷◌, [], ◌++◌, IfOk, Some, None};
ghost use Rattle.std.specs.Prelude.{vec_len, vec_capacity};
ghost use Rattle.gd_disk.specs.Image.{HasCutRoom};
ghost use Rattle.gd_disk.specs.Disk.{counts, cuts_after_call, IsCut, later_cuts, next_count};
ghost use Rattle.gd_disk.specs.Laboratory.{cut_at};
ghost use Rattle.gd_disk.specs.Plan.{is_planned};

use crate::power::Power;
use crate::{ArmedCut, CutUnit, MOST_CUTS};
use std::alloc::{AllocError, Global};

/// The power, the cuts that wait, and what the latest loss was.
#[derive(Drop)]
pub(crate) struct LabPower {
    pub(crate) power: Power,
    /// The cuts that wait. The first counts calls.
    pub(crate) armed: Vec<ArmedCut>,
    /// Which kind the latest loss was.
    pub(crate) torn: u8,
    ghost room: { HasCutRoom (vec_len armed) (vec_capacity armed) },
}

impl LabPower {
    /// On, with no cut armed. The call `fail_at`, counted from 1, is a fault.
    pub(crate) fn new(alloc: Global, fail_at: Option<u64>) -> Result<LabPower, AllocError>
        ensures on { IfOk result (λ lab. lab.power.is_on ≡ true) }
        ensures stops { IfOk result (λ lab. lab.power.stops ≡ 0) }
        ensures faults { IfOk result (λ lab. lab.power.faults ≡ 0) }
        ensures calls { IfOk result (λ lab. lab.power.calls ≡ 0) }
        ensures fail_at { IfOk result (λ lab. lab.power.fail_at ≡ fail_at) }
        ensures armed { IfOk result (λ lab. lab.armed.items ≡ []) }
        ensures torn { IfOk result (λ lab. lab.torn ≡ 0) }
    {
        Ok(LabPower {
            power: Power::new(fail_at),
            armed: Vec::with_capacity(alloc, MOST_CUTS as usize)?,
            torn: 0,
        })
    }

    /// Counts a call, and says whether it may act, but for a cut. Else it fails, the power is off, and a fault leaves
    /// the old bytes.
    pub(crate) fn admits(&mut self) -> bool
        ensures answer { result
            ≡ (self.old.power.is_on && not (is_planned self.old.power.fail_at (next_count self.old.power.calls))) }
        ensures on { self.new.power.is_on ≡ result }
        ensures calls { self.new.power.calls ≡ next_count self.old.power.calls }
        ensures fail_at { self.new.power.fail_at ≡ self.old.power.fail_at }
        ensures stands { result ≡ true → self.new.power.stops ≡ self.old.power.stops }
        ensures no_fault { result ≡ true → self.new.power.faults ≡ self.old.power.faults }
        ensures stop { result ≡ false → self.new.power.stops ≡ next_count self.old.power.stops }
        ensures fault { result ≡ false → self.old.power.is_on ≡ true
            → self.new.power.faults ≡ next_count self.old.power.faults }
        ensures was_off { self.old.power.is_on ≡ false → self.new.power.faults ≡ self.old.power.faults }
        ensures armed { self.new.armed ≡ self.old.armed }
        ensures no_loss { (result ≡ true) ⊎ (self.old.power.is_on ≡ false) → self.new.torn ≡ self.old.torn }
        ensures loss { result ≡ false → self.old.power.is_on ≡ true → self.new.torn ≡ 0 }
    {
        let was_on = self.power.is_on;
        let may_act = self.power.admits();
        if was_on && !may_act {
            self.torn = 0;
        }
        may_act
    }

    /// A fault: the power goes off, and leaves the old bytes.
    pub(crate) fn fail(&mut self)
        ensures off { self.new.power.is_on ≡ false }
        ensures stops { self.new.power.stops ≡ next_count self.old.power.stops }
        ensures faults { self.new.power.faults ≡ next_count self.old.power.faults }
        ensures calls { self.new.power.calls ≡ self.old.power.calls }
        ensures fail_at { self.new.power.fail_at ≡ self.old.power.fail_at }
        ensures armed { self.new.armed ≡ self.old.armed }
        ensures torn { self.new.torn ≡ 0 }
    {
        self.power.fail();
        self.torn = 0;
    }

    /// Whether the first cut comes at this call, of a write or of a sync. Else it has one less to count.
    pub(crate) fn cuts(&mut self, is_sync: bool) -> bool
        requires on { self.old.power.is_on ≡ true }
        ensures calls { self.new.power.calls ≡ self.old.power.calls }
        ensures fail_at { self.new.power.fail_at ≡ self.old.power.fail_at }
        ensures faults { self.new.power.faults ≡ self.old.power.faults }
        ensures stays_on { result ≡ false → self.new.power.is_on ≡ true }
        ensures no_stop { result ≡ false → self.new.power.stops ≡ self.old.power.stops }
        ensures no_loss { result ≡ false → self.new.torn ≡ self.old.torn }
        ensures no_cut { result ≡ false → IsCut is_sync self.old.armed.items → ⊥ }
        ensures none { result ≡ false → cut_at is_sync self.old.armed.items ≡ None }
        ensures one_less { result ≡ false → self.new.armed.items ≡ cuts_after_call is_sync self.old.armed.items }
        ensures goes_off { result ≡ true → self.new.power.is_on ≡ false }
        ensures stop { result ≡ true → self.new.power.stops ≡ next_count self.old.power.stops }
        ensures cut { result ≡ true → IsCut is_sync self.old.armed.items }
        ensures kind { result ≡ true → cut_at is_sync self.old.armed.items ≡ Some self.new.torn }
        ensures used { result ≡ true → self.new.armed.items ≡ later_cuts self.old.armed.items }
    {
        if self.armed.is_empty() {
            return false;
        }
        let cut = self.armed[0];
        if !is_counted(cut.unit, is_sync) {
            return false;
        }
        if cut.count <= 1 {
            self.armed.remove(0);
            self.torn = cut.torn;
            self.power.stop();
            return true;
        }
        let first = &mut self.armed[0];
        first.count = cut.count - 1;
        false
    }
}

/// Whether a cut of this unit counts this call.
fn is_counted(unit: CutUnit, is_sync: bool) -> bool
    ensures { result ≡ counts is_sync unit }
{
    match unit {
        CutUnit::Call => true,
        CutUnit::Sync => is_sync,
    }
}
