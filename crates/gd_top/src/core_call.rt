//! The call over a core and a room that are there.

ghost use Rattle.std.specs.Prelude.{◌≡◌, true, []};
ghost use Rattle.std.specs.Io.KnownBytes.{IsAtEnd};
ghost use Rattle.gd_base.specs.Outside.Blocks.{AreBlocks};
ghost use Rattle.gd_base.specs.Outside.Causes.{Rose};
ghost use Rattle.gd_image.specs.Words.{platform_setup, platform_view};
ghost use Rattle.gd_machine.specs.Meaning.{the_machine};
ghost use Rattle.gd_top.specs.Claims.Runs.{outer, trial_beginning, CarriesAsTold, HasCauses, IsCarried, WroteBroken, WroteFront, WroteReport, WroteToFault};

use crate::command::trial::run_trial;
use crate::ended::Carried;
use crate::status::Status;
use gd_base::{Draws, Sink, Source};
use gd_cabinet::Parts;
use gd_disk::{DISK_LEN, LabDisk};
use gd_image::Platform;
use gd_store::Room;

/// Does what `cabinet` does with the word `trial`, over a core of the empty history, under any setup. It takes no memory, and
/// ends on every input.
pub fn carry<S: Source, K: Sink, L: LabDisk, W: Draws>(
    core: Platform,
    room: Room,
    input: &mut S,
    output: &mut K,
    lab: L,
    draws: W,
) -> Carried<L, W>
    requires empty { platform_view core ≡ (the_machine (platform_setup core)).empty }
    requires size { (L.state lab).size ≡ DISK_LEN }
    requires is_on { (L.state lab).is_on ≡ true }
    requires armed { (L.state lab).armed ≡ [] }
    requires found { (L.state lab).found ≡ [] }
    // 0: the input was taken to its end, and the whole report was written.
    ensures done { result.status ≡ Status.Done
        → WroteReport (trial_beginning (the_machine (platform_setup core)))
        (the_machine (platform_setup core)) (W.block_of draws) Status.Done
        result.falls.items
        (outer S.left S.faults K.taken K.faults L.state input.old output.old lab)
        (outer S.left S.faults K.taken K.faults L.state input.new output.new result.lab)
        × IsAtEnd (S.left input.new) }
    // 3: the lines whose LF was taken were carried out.
    ensures read_fault { result.status ≡ Status.ReadFault
        → WroteToFault (trial_beginning (the_machine (platform_setup core)))
        (the_machine (platform_setup core)) (W.block_of draws) result.falls.items
        (outer S.left S.faults K.taken K.faults L.state input.old output.old lab)
        (outer S.left S.faults K.taken K.faults L.state input.new output.new result.lab) }
    // 4: a front of what is told was written.
    ensures write_fault { result.status ≡ Status.WriteFault
        → WroteFront (trial_beginning (the_machine (platform_setup core)))
        (the_machine (platform_setup core)) (W.block_of draws) result.falls.items
        (outer S.left S.faults K.taken K.faults L.state input.old output.old lab)
        (outer S.left S.faults K.taken K.faults L.state input.new output.new result.lab) }
    // 5: what is told up to there was written.
    ensures disk_fault { result.status ≡ Status.DiskFault
        → WroteBroken (trial_beginning (the_machine (platform_setup core)))
        (the_machine (platform_setup core)) (W.block_of draws) result.falls.items
        (outer S.left S.faults K.taken K.faults L.state input.old output.old lab)
        (outer S.left S.faults K.taken K.faults L.state input.new output.new result.lab) }
    // 6: the report of the lines before the first faulty one, and its number.
    ensures script_fault { result.status ≡ Status.ScriptFault
        → WroteReport (trial_beginning (the_machine (platform_setup core)))
        (the_machine (platform_setup core)) (W.block_of draws) Status.ScriptFault
        result.falls.items
        (outer S.left S.faults K.taken K.faults L.state input.old output.old lab)
        (outer S.left S.faults K.taken K.faults L.state input.new output.new result.lab) }
    // 7: as 0, over a memory that stands locked.
    ensures locked { result.status ≡ Status.Locked
        → WroteReport (trial_beginning (the_machine (platform_setup core)))
        (the_machine (platform_setup core)) (W.block_of draws) Status.Locked
        result.falls.items
        (outer S.left S.faults K.taken K.faults L.state input.old output.old lab)
        (outer S.left S.faults K.taken K.faults L.state input.new output.new result.lab)
        × IsAtEnd (S.left input.new) }
    // 11: the report up to the opening that found a memory of another setup, which is as it was found.
    ensures differs { result.status ≡ Status.SetupDiffers
        → WroteReport (trial_beginning (the_machine (platform_setup core)))
        (the_machine (platform_setup core)) (W.block_of draws) Status.SetupDiffers
        result.falls.items
        (outer S.left S.faults K.taken K.faults L.state input.old output.old lab)
        (outer S.left S.faults K.taken K.faults L.state input.new output.new result.lab) }
    // 3, 4 and 5 come only where a count of what failed rose.
    ensures causes { HasCauses result.status
        (outer S.left S.faults K.taken K.faults L.state input.old output.old lab)
        (outer S.left S.faults K.taken K.faults L.state input.new output.new result.lab) }
    // Where no such count rose, it ends as the definition says.
    ensures exact { (Rose (S.faults input.old) (S.faults input.new) → ⊥)
        → (Rose (K.faults output.old) (K.faults output.new) → ⊥)
        → (Rose (L.state lab).faults (L.state result.lab).faults → ⊥)
        → CarriesAsTold (trial_beginning (the_machine (platform_setup core)))
        (the_machine (platform_setup core)) (W.block_of draws) result.status
        result.falls.items
        (outer S.left S.faults K.taken K.faults L.state input.old output.old lab)
        (outer S.left S.faults K.taken K.faults L.state input.new output.new result.lab) }
    // No other status comes.
    ensures carried { IsCarried result.status }
    // The blocks are such that each legal history keeps all rules of a view (`all_rules_kept`).
    ensures blocks { AreBlocks (W.block_of draws) }
{
    let parts = Parts {
        core,
        disk: lab,
        draws,
        room,
    };
    run_trial(parts, input, output)
}
