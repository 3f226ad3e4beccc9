//! A soak: a memory is made on the laboratory, the items of a seed are carried out on it, and a summary of that is written.

ghost use Rattle.std.specs.Prelude.{◌≡◌, ◌≢◌, ◌⊎◌, ◌≤◌, ◌*◌, true, false, []};
ghost use Rattle.gd_base.specs.Outside.Causes.{Rose};
ghost use Rattle.gd_base.specs.Laws.TellsViews.{TellsViews};
ghost use Rattle.gd_image.specs.Words.{platform_setup, platform_view};
ghost use Rattle.gd_machine.specs.Meaning.{the_machine};
ghost use Rattle.gd_top.specs.Claims.Images.{Tells};
ghost use Rattle.gd_top.specs.Claims.Runs.{GivesLast};
ghost use Rattle.gd_top.specs.Claims.Soak.{SoakDid};
ghost use Rattle.gd_top.specs.Code.Memory.{memory_core, memory_phase, moment, moment_closed, IsFresh, Leaves, Sits};
ghost use Rattle.gd_top.specs.Code.SoakDone.{soak_status, soak_text, IsSoakEnd, ItemsOver, SoakRun};
ghost use Rattle.gd_top.specs.Run.Life.{soak_summary};
ghost use Rattle.gd_top.specs.Run.State.{Off};

use crate::command::ending::close;
use crate::ended::Carried;
use crate::halt::Halt;
use crate::item::opening::reopen;
use crate::memory::Memory;
use crate::memory::counts::Counts;
use crate::memory::making::make_memory;
use crate::report::dropped::Dropped;
use crate::report::lines::{give_text, push_totals_line};
use crate::report::telling::tell;
use crate::script::carrying::carry_item;
use crate::status::Status;
use gd_base::{Core, Draws, Sink, Text, What};
use gd_cabinet::Parts;
use gd_disk::{DISK_LEN, LabDisk};
use gd_image::Platform;
use gd_script::{MOST_GENERATED, generate};
use gd_words::MOST_ITEMS;

const _: () = prove!(MOST_ITEMS == MOST_GENERATED);

/// Makes an empty memory on the laboratory, turns it off and on, opens it, and carries out `count` items of the seed. It gives a
/// line of the items, the entries, the power-ons and the balance, and the meters behind it.
pub(crate) fn run_soak<K: Sink, L: LabDisk, W: Draws>(
    parts: Parts<Platform, L, W>,
    count: u64,
    seed: u64,
    output: &mut K,
) -> Carried<L, W>
    requires empty { platform_view parts.core ≡ (the_machine (platform_setup parts.core)).empty }
    requires size { (L.state parts.disk).size ≡ DISK_LEN }
    requires is_on { (L.state parts.disk).is_on ≡ true }
    requires armed { (L.state parts.disk).armed ≡ [] }
    requires found { (L.state parts.disk).found ≡ [] }
    requires few { count ≤ MOST_ITEMS }
    ensures done { Tells
        (SoakDid (the_machine (platform_setup parts.core)) (W.block_of parts.draws) count seed result.falls.items (L.state parts.disk) (L.state result.lab))
        result.status (K.taken output.old) (K.taken output.new) }
    ensures read { result.status ≢ Status.ReadFault }
    ensures write { result.status ≡ Status.WriteFault → Rose (K.faults output.old) (K.faults output.new) }
    ensures disk { result.status ≡ Status.DiskFault → Rose (L.state parts.disk).faults (L.state result.lab).faults }
{
    let mut text = Text::new();
    let mut counts = Counts::new(*parts.core.digest());
    let (memory, ended) = carry_soak(parts, &mut counts, &mut Dropped, &mut text, count, seed);
    let status = end_soak(&memory, count, counts.power_ons, ended, output, &mut text);
    let parts = close(memory);
    Carried {
        status,
        falls: counts.falls,
        lab: parts.disk,
        draws: parts.draws,
    }
}

/// Makes a memory, opens it, and carries out the items.
fn carry_soak<C: Core, K: Sink, L: LabDisk, W: Draws>(
    parts: Parts<C, L, W>,
    counts: &mut Counts,
    output: &mut K,
    text: &mut Text,
    count: u64,
    seed: u64,
) -> (Memory<C, L, W>, Result<(), Halt>)
    requires empty { C.view parts.core ≡ (C.meaning parts.core).empty }
    requires size { (L.state parts.disk).size ≡ DISK_LEN }
    requires is_on { (L.state parts.disk).is_on ≡ true }
    requires armed { (L.state parts.disk).armed ≡ [] }
    requires found { (L.state parts.disk).found ≡ [] }
    requires tells { TellsViews (C.meaning parts.core) }
    requires fresh { IsFresh counts.old }
    requires given { counts.old.given ≡ (C.meaning parts.core).digest }
    requires items { count ≤ MOST_ITEMS }
    ensures done { SoakRun count seed result.1
        (moment_closed Off C.meaning C.view L.state W.block_of K.taken K.faults parts counts.old output.old)
        (moment C.meaning C.view L.state W.block_of K.taken K.faults result.0 counts.new output.new) }
    ensures leaves { Leaves result.1
        (moment_closed Off C.meaning C.view L.state W.block_of K.taken K.faults parts counts.old output.old)
        (moment C.meaning C.view L.state W.block_of K.taken K.faults result.0 counts.new output.new) }
    ensures lines { counts.new.lines ≤ MOST_ITEMS }
{
    match make_memory(parts) {
        Ok(made) => {
            let (memory, ended) = reopen(made, counts, output, text);
            if ended.is_err() {
                return (memory, ended);
            }
            carry_items(memory, counts, output, text, count, seed)
        }
        Err(left) => (Memory::Off(left), Err(Halt::DiskFault)),
    }
}

/// Carries out the items, up to the one that ends the run.
fn carry_items<C: Core, K: Sink, L: LabDisk, W: Draws>(
    memory: Memory<C, L, W>,
    counts: &mut Counts,
    output: &mut K,
    text: &mut Text,
    count: u64,
    seed: u64,
) -> (Memory<C, L, W>, Result<(), Halt>)
    requires sits { Sits
        (moment C.meaning C.view L.state W.block_of K.taken K.faults memory counts.old output.old) }
    requires none { counts.old.lines ≡ 0 }
    requires few { counts.old.offers ≤ 2 * counts.old.power_ons }
    requires items { count ≤ MOST_ITEMS }
    ensures done { ItemsOver count seed result.1
        (moment C.meaning C.view L.state W.block_of K.taken K.faults memory counts.old output.old)
        (moment C.meaning C.view L.state W.block_of K.taken K.faults result.0 counts.new output.new) }
    ensures leaves { Leaves result.1
        (moment C.meaning C.view L.state W.block_of K.taken K.faults memory counts.old output.old)
        (moment C.meaning C.view L.state W.block_of K.taken K.faults result.0 counts.new output.new) }
    ensures lines { counts.new.lines ≤ MOST_ITEMS }
{
    let mut memory = memory;
    for k in 0..count {
        let item = generate(seed, k);
        let (next, ended) = carry_item(memory, counts, output, text, item);
        memory = next;
        if ended.is_err() {
            return (memory, ended);
        }
        counts.lines += 1;
    }
    (memory, Ok(()))
}

/// Gives the last lines of a soak, and answers its status.
fn end_soak<K: Sink, L: LabDisk, W: Draws>(
    memory: &Memory<Platform, L, W>,
    items: u64,
    power_ons: u64,
    ended: Result<(), Halt>,
    output: &mut K,
    text: &mut Text,
) -> Status
    requires end { IsSoakEnd ended (memory_phase memory.now) }
    ensures last { GivesLast (soak_status ended) result (K.taken output.old) (K.taken output.new)
        (soak_text (the_machine (platform_setup (memory_core memory.now))) items power_ons (platform_view (memory_core memory.now)) ended) }
    ensures cause { (result ≡ soak_status ended)
        ⊎ ((result ≡ Status.WriteFault) × Rose (K.faults output.old) (K.faults output.new)) }
{
    text.clear();
    match ended {
        Ok(()) => match memory {
            Memory::On(cabinet) => tell_summary(cabinet.core(), items, power_ons, output, text),
            _ => unreachable!(),
        },
        Err(Halt::DiskFault) => {
            text.push_str("disk fault\n");
            tell(Status::DiskFault, output, text)
        }
        Err(_) => unreachable!(),
    }
}

/// Gives the summary of a soak of so many items and power-ons.
fn tell_summary<K: Sink>(
    core: &Platform,
    items: u64,
    power_ons: u64,
    output: &mut K,
    text: &mut Text,
) -> Status
    requires { text.old.bytes ≡ [] }
    ensures last { GivesLast Status.Done result (K.taken output.old) (K.taken output.new)
        (soak_summary (the_machine (platform_setup core.now)) items power_ons (platform_view core.now)) }
    ensures cause { (result ≡ Status.Done)
        ⊎ ((result ≡ Status.WriteFault) × Rose (K.faults output.old) (K.faults output.new)) }
{
    push_totals_line(text, items, core.count(), power_ons, core.credit());
    if give_text(output, text).is_err() {
        return Status::WriteFault;
    }
    core.show(What::Meters, text);
    tell(Status::Done, output, text)
}
