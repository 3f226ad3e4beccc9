//! A line that arms a cut of the power.

ghost use Rattle.std.specs.Prelude.{◌≡◌, ◌≤◌, ◌<◌, ◌++◌, ◌∷◌, [], length};
ghost use Rattle.gd_disk.specs.Disk.{Loses, KeepsCounts, Unchanged};
ghost use Rattle.gd_script.specs.declared.item.Item.{Item};
ghost use Rattle.gd_top.specs.Code.Memory.{memory_core, memory_disk, memory_draws, memory_lap, memory_phase, memory_stopped, moment, Does, Sits};
ghost use Rattle.gd_top.specs.Run.Items.{item_meaning};

use crate::halt::Halt;
use crate::memory::Memory;
use crate::memory::counts::Counts;
use crate::report::lines::give_text;
use gd_base::{Core, Draws, Sink, Text};
use gd_disk::{CutUnit, LabDisk, MOST_CUTS, MOST_TORN};

/// Adds a cut behind the armed ones. It is a script fault where power-ons and armed cuts allow no further one.
pub(crate) fn arm<C: Core, K: Sink, L: LabDisk, W: Draws>(
    memory: Memory<C, L, W>,
    counts: &mut Counts,
    output: &mut K,
    text: &mut Text,
    unit: CutUnit,
    count: u32,
    torn: u8,
) -> (Memory<C, L, W>, Result<(), Halt>)
    requires sits { Sits
        (moment C.meaning C.view L.state W.block_of K.taken K.faults memory counts.old output.old) }
    requires count { 1 ≤ count }
    requires torn { torn ≤ MOST_TORN }
    ensures does { Does (λ M B. item_meaning M B (Item.Cut unit count torn)) result.1
        (moment C.meaning C.view L.state W.block_of K.taken K.faults memory counts.old output.old)
        (moment C.meaning C.view L.state W.block_of K.taken K.faults result.0 counts.new output.new) }
    ensures lines { counts.new.lines ≡ counts.old.lines }
    ensures offers { counts.new.offers ≡ counts.old.offers }
    ensures power_ons { counts.new.power_ons ≡ counts.old.power_ons }
{
    if counts.is_at_limit() {
        return (memory, Err(Halt::ScriptFault));
    }
    counts.calls.push(unit == CutUnit::Call);
    let armed = arm_disk(memory, unit, count, torn);
    text.clear();
    text.push_str("armed\n");
    let given = give_text(output, text);
    (armed, given)
}

/// Adds a cut behind the armed ones of the memory's disk, and changes nothing else.
fn arm_disk<C: Core, L: LabDisk, W: Draws>(
    memory: Memory<C, L, W>,
    unit: CutUnit,
    count: u32,
    torn: u8,
) -> Memory<C, L, W>
    requires room { length (L.state (memory_disk memory)).armed < MOST_CUTS }
    requires count { 1 ≤ count }
    requires torn { torn ≤ MOST_TORN }
    ensures armed { (L.state (memory_disk result)).armed
        ≡ (L.state (memory_disk memory)).armed ++ record { unit = unit; count = count; torn = torn } ∷ [] }
    ensures power { (L.state (memory_disk result)).is_on ≡ (L.state (memory_disk memory)).is_on }
    ensures seen { (L.state (memory_disk result)).seen ≡ (L.state (memory_disk memory)).seen }
    ensures loss { Loses Unchanged (L.state (memory_disk memory)) (L.state (memory_disk result)) }
    ensures counts { KeepsCounts (L.state (memory_disk memory)) (L.state (memory_disk result)) }
    ensures found { (L.state (memory_disk result)).found ≡ (L.state (memory_disk memory)).found }
    ensures faults { (L.state (memory_disk result)).faults ≡ (L.state (memory_disk memory)).faults }
    ensures core { memory_core result ≡ memory_core memory }
    ensures draws { memory_draws result ≡ memory_draws memory }
    ensures phase { memory_phase result ≡ memory_phase memory }
    ensures lap { memory_lap result ≡ memory_lap memory }
    ensures stopped { memory_stopped result ≡ memory_stopped memory }
{
    match memory {
        Memory::On(mut cabinet) => {
            cabinet.arm(unit, count, torn);
            Memory::On(cabinet)
        }
        Memory::Off(mut parts) => {
            parts.disk.arm(unit, count, torn);
            Memory::Off(parts)
        }
        Memory::Locked(mut parts) => {
            parts.disk.arm(unit, count, torn);
            Memory::Locked(parts)
        }
    }
}
