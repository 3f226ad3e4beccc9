//! The lines of a script, carried out one after another.

ghost use Rattle.std.specs.Prelude.{◌≡◌, ◌≢◌, ◌≤◌, ◌+◌, ◌*◌, [], true, IfSome, Err, false};
ghost use Rattle.std.specs.Io.KnownBytes.{prepend_known};
ghost use Rattle.gd_base.specs.Outside.Causes.{Rose};
ghost use Rattle.gd_script.specs.Grammar.{InGrammar};
ghost use Rattle.gd_script.specs.Items.{is_cut};
ghost use Rattle.gd_top.specs.Code.LinesDone.{LinesDone};
ghost use Rattle.gd_top.specs.Code.Memory.{moment, moment_on, Does, Leaves, Sits};
ghost use Rattle.gd_top.specs.Script.Kinds.{is_comment, needs_memory};
ghost use Rattle.gd_top.specs.Run.Items.{item_meaning};
ghost use Rattle.gd_top.specs.Script.LineTaken.{TakesEnd};
ghost use Rattle.gd_top.specs.Script.Lines.{line_of};

use crate::halt::Halt;
use crate::item::altering::alter;
use crate::item::arming::arm;
use crate::item::asking::asked;
use crate::item::clearing::clear;
use crate::item::event::carry_event;
use crate::item::lock::tell_lock;
use crate::item::power::{turn_off, turn_on};
use crate::memory::Memory;
use crate::memory::counts::Counts;
use crate::report::lines::give_text;
use crate::script::reader::{Ahead, LineBytes, MOST_LINES, next_byte, next_line};
use gd_base::{Core, Draws, Sink, Source, Text};
use gd_cabinet::Cabinet;
use gd_disk::LabDisk;
use gd_script::{Item, read_line};

/// Reads the input to its end, or to what ends the run before, and carries out each line as it comes.
pub(crate) fn carry_lines<C: Core, S: Source, K: Sink, L: LabDisk, W: Draws>(
    memory: Memory<C, L, W>,
    counts: &mut Counts,
    input: &mut S,
    output: &mut K,
    text: &mut Text,
) -> (Memory<C, L, W>, Result<(), Halt>)
    requires sits { Sits
        (moment C.meaning C.view L.state W.block_of K.taken K.faults memory counts.old output.old) }
    requires none { counts.old.lines ≡ 0 }
    requires few { counts.old.offers ≤ 2 * counts.old.power_ons }
    ensures done { LinesDone result.1
        (moment C.meaning C.view L.state W.block_of K.taken K.faults memory counts.old output.old)
        (moment C.meaning C.view L.state W.block_of K.taken K.faults result.0 counts.new output.new)
        (S.left input.old) (S.left input.new) }
    ensures leaves { Leaves result.1
        (moment C.meaning C.view L.state W.block_of K.taken K.faults memory counts.old output.old)
        (moment C.meaning C.view L.state W.block_of K.taken K.faults result.0 counts.new output.new) }
    ensures lines { counts.new.lines ≤ MOST_LINES }
    ensures later { S.faults input.old ≤ S.faults input.new }
    ensures read_fault { result.1 ≡ Err Halt.ReadFault
        → Rose (S.faults input.old) (S.faults input.new) }
{
    let mut memory = memory;
    let mut ahead = Ahead::new();
    let mut line = LineBytes::new();
    for _ in 0..MOST_LINES {
        match next_line(input, &mut ahead, &mut line) {
            Ok(true) => {
                let Some(item) = said_item(line.as_slice()) else {
                    return (memory, Err(Halt::ScriptFault));
                };
                // A comment is passed over here, since the memory is moved for each other item.
                if is_comment(&item) {
                    counts.lines += 1;
                    continue;
                }
                let (next, ended) = carry_item(memory, counts, output, text, item);
                memory = next;
                if ended.is_err() {
                    return (memory, ended);
                }
                counts.lines += 1;
            }
            Ok(false) => return (memory, Ok(())),
            Err(halt) => return (memory, Err(halt)),
        }
    }
    (memory, expect_end(input, &mut ahead))
}

/// Where as many lines were carried out as a script may have: a byte more is a script fault.
pub(crate) fn expect_end<S: Source>(input: &mut S, ahead: &mut Ahead) -> Result<(), Halt>
    ensures taken { TakesEnd (prepend_known ahead.old (S.left input.old)) (prepend_known ahead.new
        (S.left input.new)) result }
    ensures empty { result ≡ Err Halt.ReadFault → ahead.new ≡ [] }
    ensures later { S.faults input.old ≤ S.faults input.new }
    ensures cause { result ≡ Err Halt.ReadFault → Rose (S.faults input.old) (S.faults input.new) }
{
    match next_byte(input, ahead)? {
        None => Ok(()),
        Some(_) => Err(Halt::ScriptFault),
    }
}

/// Carries out an item.
pub(crate) fn carry_item<C: Core, K: Sink, L: LabDisk, W: Draws>(
    memory: Memory<C, L, W>,
    counts: &mut Counts,
    output: &mut K,
    text: &mut Text,
    item: Item,
) -> (Memory<C, L, W>, Result<(), Halt>)
    requires sits { Sits
        (moment C.meaning C.view L.state W.block_of K.taken K.faults memory counts.old output.old) }
    requires few { counts.old.offers + 1 ≤ MOST_LINES + 2 * counts.old.power_ons }
    requires grammar { InGrammar item }
    requires no_comment { is_comment item ≡ false }
    ensures does { Does (λ M B. item_meaning M B item) result.1
        (moment C.meaning C.view L.state W.block_of K.taken K.faults memory counts.old output.old)
        (moment C.meaning C.view L.state W.block_of K.taken K.faults result.0 counts.new output.new) }
    ensures lines { counts.new.lines ≡ counts.old.lines }
    ensures offers { counts.new.offers + 2 * counts.old.power_ons ≤ counts.old.offers + 1 + 2 * counts.new.power_ons }
{
    match item {
        Item::Cut { unit, count, torn } => arm(memory, counts, output, text, unit, count, torn),
        _ => carry_in_phase(memory, counts, output, text, item),
    }
}

/// Carries out an item other than a cut. It is a script fault where it has no place with the power as it is.
fn carry_in_phase<C: Core, K: Sink, L: LabDisk, W: Draws>(
    memory: Memory<C, L, W>,
    counts: &mut Counts,
    output: &mut K,
    text: &mut Text,
    item: Item,
) -> (Memory<C, L, W>, Result<(), Halt>)
    requires sits { Sits
        (moment C.meaning C.view L.state W.block_of K.taken K.faults memory counts.old output.old) }
    requires few { counts.old.offers + 1 ≤ MOST_LINES + 2 * counts.old.power_ons }
    requires grammar { InGrammar item }
    requires no_comment { is_comment item ≡ false }
    requires no_cut { is_cut item ≡ false }
    ensures does { Does (λ M B. item_meaning M B item) result.1
        (moment C.meaning C.view L.state W.block_of K.taken K.faults memory counts.old output.old)
        (moment C.meaning C.view L.state W.block_of K.taken K.faults result.0 counts.new output.new) }
    ensures lines { counts.new.lines ≡ counts.old.lines }
    ensures offers { counts.new.offers + 2 * counts.old.power_ons ≤ counts.old.offers + 1 + 2 * counts.new.power_ons }
{
    match memory {
        Memory::On(cabinet) => match item {
            Item::Off => turn_off(cabinet, output, text),
            _ => {
                if needs_memory(&item) {
                    carry_asked(cabinet, counts, output, text, item)
                } else {
                    (Memory::On(cabinet), Err(Halt::ScriptFault))
                }
            }
        },
        Memory::Off(parts) => match item {
            Item::On => turn_on(parts, counts, output, text),
            Item::Alter { side, at, mask } => alter(parts, output, text, side, at, mask),
            _ => (Memory::Off(parts), Err(Halt::ScriptFault)),
        },
        Memory::Locked(parts) => match item {
            Item::Clear => clear(parts, counts, output, text),
            _ => {
                if needs_memory(&item) {
                    let given = tell_lock(output, text);
                    (Memory::Locked(parts), given)
                } else {
                    (Memory::Locked(parts), Err(Halt::ScriptFault))
                }
            }
        },
    }
}

/// Carries out an item about the machine, over an open memory.
fn carry_asked<C: Core, K: Sink, L: LabDisk, W: Draws>(
    cabinet: Cabinet<C, L, W>,
    counts: &mut Counts,
    output: &mut K,
    text: &mut Text,
    item: Item,
) -> (Memory<C, L, W>, Result<(), Halt>)
    requires sits { Sits
        (moment_on C.meaning C.view L.state W.block_of K.taken K.faults cabinet counts.old output.old) }
    requires few { counts.old.offers + 1 ≤ MOST_LINES + 2 * counts.old.power_ons }
    requires about { needs_memory item ≡ true }
    requires grammar { InGrammar item }
    ensures does { Does (λ M B. item_meaning M B item) result.1
        (moment_on C.meaning C.view L.state W.block_of K.taken K.faults cabinet counts.old output.old)
        (moment C.meaning C.view L.state W.block_of K.taken K.faults result.0 counts.new output.new) }
    ensures lines { counts.new.lines ≡ counts.old.lines }
    ensures offers { counts.new.offers + 2 * counts.old.power_ons ≤ counts.old.offers + 1 + 2 * counts.new.power_ons }
{
    match asked(cabinet.core(), item, text) {
        Some(e) => carry_event(cabinet, counts, output, text, &e),
        None => {
            let given = give_text(output, text);
            (Memory::On(cabinet), given)
        }
    }
}

/// Whether an item is about the machine, so that it needs an open memory.
pub(crate) fn needs_memory(item: &Item) -> bool
    ensures { result ≡ needs_memory item.now }
{
    matches!(
        item,
        Item::Event(_) | Item::OrderEvent { .. } | Item::Again(_) | Item::As { .. } | Item::Show(_)
    )
}

/// The item that a line says.
pub(crate) fn said_item(line: &[u8]) -> Option<Item>
    ensures item { result ≡ line_of line.now }
    ensures grammar { IfSome result InGrammar }
{
    match read_line(line) {
        Ok(item) => Some(item),
        Err(_) => None,
    }
}

/// Whether an item is that of a comment or an empty line.
pub(crate) fn is_comment(item: &Item) -> bool
    ensures { result ≡ is_comment item.now }
{
    matches!(item, Item::Skip)
}
