//! The lines of a script, carried out one after another over an image.

ghost use Rattle.std.specs.Prelude.{◌≡◌, ◌≤◌, ◌+◌, ◌*◌, true, false, Err};
ghost use Rattle.gd_base.specs.Outside.Causes.{Rose};
ghost use Rattle.gd_cabinet.specs.Cabinet.{cabinet_disk, cabinet_stopped};
ghost use Rattle.gd_disk.specs.declared.lengths.TheConstants.{DISK_LEN};
ghost use Rattle.gd_script.specs.Grammar.{InGrammar};
ghost use Rattle.gd_top.specs.Claims.ImageRuns.{TellsImages};
ghost use Rattle.gd_top.specs.Code.Memory.{moment, moment_on};
ghost use Rattle.gd_top.specs.Code.OverImage.{DoesOver, LinesOver, Ends, Rests};
ghost use Rattle.gd_top.specs.Run.Items.{item_meaning};
ghost use Rattle.gd_top.specs.Script.Kinds.{is_comment, needs_memory};

use crate::halt::Halt;
use crate::image::clearing::clear;
use crate::image::event::offer;
use crate::item::asking::asked;
use crate::item::lock::tell_lock;
use crate::memory::Memory;
use crate::memory::counts::Counts;
use crate::report::lines::give_text;
use crate::script::carrying::{expect_end, is_comment, needs_memory, said_item};
use crate::script::reader::{Ahead, LineBytes, MOST_LINES, next_line};
use gd_base::{Core, Draws, Sink, Source, Text};
use gd_cabinet::Cabinet;
use gd_disk::Disk;
use gd_script::Item;

/// Reads the input to its end, or to what ends the run before, and carries out each line as it comes.
pub(crate) fn carry_lines<C: Core, S: Source, K: Sink, D: Disk, W: Draws>(
    memory: Memory<C, D, W>,
    counts: &mut Counts,
    input: &mut S,
    output: &mut K,
    text: &mut Text,
) -> (Memory<C, D, W>, Result<(), Halt>)
    requires rests { Rests
        (moment C.meaning C.view D.state W.block_of K.taken K.faults memory counts.old output.old) }
    requires none { counts.old.lines ≡ 0 }
    requires few_offers { counts.old.offers ≤ 1 }
    requires few_power_ons { counts.old.power_ons ≤ 1 }
    requires few_laps { counts.old.lap ≤ 1 }
    ensures done { LinesOver (TellsImages D.state) result.1
        (moment C.meaning C.view D.state W.block_of K.taken K.faults memory counts.old output.old)
        (moment C.meaning C.view D.state W.block_of K.taken K.faults result.0 counts.new output.new)
        (S.left input.old) (S.left input.new) }
    ensures ends { Ends result.1
        (moment C.meaning C.view D.state W.block_of K.taken K.faults memory counts.old output.old)
        (moment C.meaning C.view D.state W.block_of K.taken K.faults result.0 counts.new output.new) }
    ensures lines { counts.new.lines ≤ MOST_LINES }
    ensures later { S.faults input.old ≤ S.faults input.new }
    ensures read_fault { result.1 ≡ Err Halt.ReadFault
        → Rose (S.faults input.old) (S.faults input.new) }
{
    let mut memory = memory;
    let mut ahead = Ahead::new();
    let mut line = LineBytes::new();
    for _ in 0..MOST_LINES {
        match next_line(input, &mut ahead, &mut line) {
            Ok(true) => {
                let Some(item) = said_item(line.as_slice()) else {
                    return (memory, Err(Halt::ScriptFault));
                };
                // A comment is passed over here, since the memory is moved for each other item.
                if is_comment(&item) {
                    counts.lines += 1;
                    continue;
                }
                let (next, ended) = carry_item(memory, counts, output, text, item);
                memory = next;
                if ended.is_err() {
                    return (memory, ended);
                }
                counts.lines += 1;
            }
            Ok(false) => return (memory, Ok(())),
            Err(halt) => return (memory, Err(halt)),
        }
    }
    (memory, expect_end(input, &mut ahead))
}

/// Carries out an item. It is a script fault where it has no place with the memory as it is. The power stays on, so that none has a
/// place that turns it, cuts it or alters a closed memory.
fn carry_item<C: Core, K: Sink, D: Disk, W: Draws>(
    memory: Memory<C, D, W>,
    counts: &mut Counts,
    output: &mut K,
    text: &mut Text,
    item: Item,
) -> (Memory<C, D, W>, Result<(), Halt>)
    requires rests { Rests
        (moment C.meaning C.view D.state W.block_of K.taken K.faults memory counts.old output.old) }
    requires few_offers { counts.old.offers + 1 ≤ 2 * MOST_LINES }
    requires few_power_ons { counts.old.power_ons ≤ MOST_LINES }
    requires few_laps { counts.old.lap ≤ MOST_LINES }
    requires grammar { InGrammar item }
    requires no_comment { is_comment item ≡ false }
    ensures does { DoesOver (TellsImages D.state) (λ M B. item_meaning M B item) result.1
        (moment C.meaning C.view D.state W.block_of K.taken K.faults memory counts.old output.old)
        (moment C.meaning C.view D.state W.block_of K.taken K.faults result.0 counts.new output.new) }
    ensures lines { counts.new.lines ≡ counts.old.lines }
    ensures offers { counts.new.offers ≤ counts.old.offers + 2 }
    ensures power_ons { counts.new.power_ons ≤ counts.old.power_ons + 1 }
    ensures lap { counts.new.lap ≤ counts.old.lap + 1 }
{
    match memory {
        Memory::On(cabinet) => {
            if needs_memory(&item) {
                carry_asked(cabinet, counts, output, text, item)
            } else {
                (Memory::On(cabinet), Err(Halt::ScriptFault))
            }
        }
        Memory::Locked(parts) => match item {
            Item::Clear => clear(parts, counts, output, text),
            _ => {
                if needs_memory(&item) {
                    let given = tell_lock(output, text);
                    (Memory::Locked(parts), given)
                } else {
                    (Memory::Locked(parts), Err(Halt::ScriptFault))
                }
            }
        },
        Memory::Off(_) => unreachable!(),
    }
}

/// Carries out an item about the machine, over an open memory.
fn carry_asked<C: Core, K: Sink, D: Disk, W: Draws>(
    cabinet: Cabinet<C, D, W>,
    counts: &mut Counts,
    output: &mut K,
    text: &mut Text,
    item: Item,
) -> (Memory<C, D, W>, Result<(), Halt>)
    requires size { (D.state (cabinet_disk cabinet)).size ≡ DISK_LEN }
    requires runs { cabinet_stopped cabinet ≡ false }
    requires few { counts.old.offers + 1 ≤ 2 * MOST_LINES }
    requires about { needs_memory item ≡ true }
    requires grammar { InGrammar item }
    ensures does { DoesOver (TellsImages D.state) (λ M B. item_meaning M B item) result.1
        (moment_on C.meaning C.view D.state W.block_of K.taken K.faults cabinet counts.old output.old)
        (moment C.meaning C.view D.state W.block_of K.taken K.faults result.0 counts.new output.new) }
    ensures lines { counts.new.lines ≡ counts.old.lines }
    ensures offers { counts.new.offers ≤ counts.old.offers + 1 }
    ensures power_ons { counts.new.power_ons ≡ counts.old.power_ons }
    ensures lap { counts.new.lap ≡ counts.old.lap }
{
    match asked(cabinet.core(), item, text) {
        Some(e) => offer(cabinet, counts, output, text, &e),
        None => {
            let given = give_text(output, text);
            (Memory::On(cabinet), given)
        }
    }
}
