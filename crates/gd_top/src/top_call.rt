//! The top call.

ghost use Rattle.std.specs.Prelude.{◌≡◌, ◌⊎◌, true, false, [], IfErr, IfOk, None, Some};
ghost use Rattle.gd_base.specs.Outside.Blocks.{AreBlocks};
ghost use Rattle.gd_base.specs.Outside.Causes.{Rose};
ghost use Rattle.gd_image.specs.Words.{platform_setup, platform_view};
ghost use Rattle.gd_machine.specs.Meaning.{the_machine};
ghost use Rattle.gd_store.specs.OpenAnswer.{IsOpenable};
ghost use Rattle.gd_top.specs.Claims.ImageRuns.{TellsImages};
ghost use Rattle.gd_top.specs.Claims.Program.{asks, asks_setup, in_image, in_lab, plays, reads_script, world, CanEndAs, CommandCauses, CommandDone, HasNotFailed, HasReasons, IsCarriedOut, IsRefused};
ghost use Rattle.gd_top.specs.Claims.Refusals.{names_setup, refusal_status, refusal_text};
ghost use Rattle.gd_top.specs.Claims.Runs.{outer, GivesLast};
ghost use Rattle.gd_top.specs.Claims.Setups.{TookFront};
ghost use Rattle.gd_words.specs.CommandLine.{texts};
ghost use Rattle.gd_words.specs.Meaning.{words_of};
ghost use Rattle.gd_words.specs.Table.{InRange};

use crate::command::check::check;
use crate::command::init::init;
use crate::command::refusal::Refusal;
use crate::command::run::run_image;
use crate::command::setup::given_setup;
use crate::command::show::show;
use crate::command::soak::run_soak;
use crate::command::trial::run_trial;
use crate::ended::{Carried, Ended, Falls};
use crate::report::telling::tell;
use crate::status::Status;
use gd_base::{Draws, Setup, Sink, Source, Text};
use gd_cabinet::Parts;
use gd_disk::{DISK_LEN, Disk, LabDisk};
use gd_image::Platform;
use gd_store::Room;
use gd_words::{Command, Words, WordsError, read_words};
use std::alloc::{AllocError, Global};

/// The whole program. It reads its words and the setup that they name, and carries out the command that they say; docs/COMMANDS.md
/// has the words, the reports and the statuses. It takes memory before anything is made or opened, and none later. It ends on
/// every input, and gives back what was handed in.
///
/// What is told of a script is by the definition of docs/DEFINITIONS.md, of the lines of the script, of what the power-ons found
/// and of where cuts fell. The script is that of the input, where the input tells its bytes.
pub fn cabinet<S: Source, C: Source, K: Sink, L: LabDisk, D: Disk, W: Draws>(
    alloc: Global,
    words: &[&str],
    input: &mut S,
    setup: &mut C,
    output: &mut K,
    lab: L,
    disk: D,
    draws: W,
) -> Ended<L, D, W>
    requires lab_size { (L.state lab).size ≡ DISK_LEN }
    requires disk_size { (D.state disk).size ≡ DISK_LEN }
    requires openable { IsOpenable (D.state disk) }
    requires is_on { (L.state lab).is_on ≡ true }
    requires armed { (L.state lab).armed ≡ [] }
    requires found { (L.state lab).found ≡ [] }
    // It ended before anything was made or opened, or it did what the words say, under the setup that holds.
    ensures done { (IsRefused (words_of (texts words.now)) result.status
        (world C.left C.faults S.left S.faults K.taken K.faults L.state D.state setup.old input.old output.old lab disk)
        (world C.left C.faults S.left S.faults K.taken K.faults L.state D.state setup.new input.new output.new result.lab result.disk)
        × (input.new ≡ input.old) × (result.lab ≡ lab) × (result.disk ≡ disk) × (result.draws ≡ draws) × (result.falls.items ≡ []))
        ⊎ IsCarriedOut (TellsImages D.state) (words_of (texts words.now)) (W.block_of draws) result.status result.falls.items
        (world C.left C.faults S.left S.faults K.taken K.faults L.state D.state setup.old input.old output.old lab disk)
        (world C.left C.faults S.left S.faults K.taken K.faults L.state D.state setup.new input.new output.new result.lab result.disk) }
    // 3, 4 and 5 come only where a count of what failed rose.
    ensures causes { HasReasons (words_of (texts words.now)) result.status
        (world C.left C.faults S.left S.faults K.taken K.faults L.state D.state setup.old input.old output.old lab disk)
        (world C.left C.faults S.left S.faults K.taken K.faults L.state D.state setup.new input.new output.new result.lab result.disk) }
    // Where none rose, it ends as its row can, by the causes that are told above.
    ensures complete { HasNotFailed (words_of (texts words.now))
        (world C.left C.faults S.left S.faults K.taken K.faults L.state D.state setup.old input.old output.old lab disk)
        (world C.left C.faults S.left S.faults K.taken K.faults L.state D.state setup.new input.new output.new result.lab result.disk)
        → CanEndAs (words_of (texts words.now)) result.status }
    // What a command doesn't ask for stands.
    ensures unread { asks reads_script (words_of (texts words.now)) ≡ false → input.new ≡ input.old }
    ensures lab { asks in_lab (words_of (texts words.now)) ≡ false → (result.lab ≡ lab) × (result.falls.items ≡ []) }
    ensures draws { asks plays (words_of (texts words.now)) ≡ false → result.draws ≡ draws }
    ensures disk { asks in_image (words_of (texts words.now)) ≡ false → result.disk ≡ disk }
    ensures setup { asks_setup (words_of (texts words.now)) ≡ false → setup.new ≡ setup.old }
    // Of a setup at most so many bytes are taken.
    ensures few { TookFront (C.left setup.old) (C.left setup.new) }
    // The blocks are such that each legal history keeps all rules of a view (`all_rules_kept`).
    ensures blocks { AreBlocks (W.block_of draws) }
{
    match said_words(alloc, words) {
        Ok(said) => carry_out(alloc, said, input, setup, output, lab, disk, draws),
        Err(why) => refuse(why, output, lab, disk, draws),
    }
}

/// What the words say. They are refused where they are in no row, or memory is wanted to read them.
fn said_words(alloc: Global, words: &[&str]) -> Result<Words, Refusal>
    ensures said { IfOk result (λ said. words_of (texts words.now) ≡ Some said) }
    ensures range { IfOk result (λ said. InRange said.command) }
    ensures refused { IfErr result (λ why. (why ≡ Refusal.OutOfMemory)
        ⊎ ((why ≡ Refusal.Usage) × (words_of (texts words.now) ≡ None))) }
{
    match read_words(alloc, words) {
        Ok(said) => Ok(said),
        Err(WordsError::Usage) => Err(Refusal::Usage),
        Err(WordsError::OutOfMemory) => Err(Refusal::OutOfMemory),
    }
}

/// Ends before anything was made or opened, with one line.
fn refuse<K: Sink, L, D, W>(
    why: Refusal,
    output: &mut K,
    lab: L,
    disk: D,
    draws: W,
) -> Ended<L, D, W>
    ensures told { GivesLast (refusal_status why) result.status (K.taken output.old) (K.taken output.new) (refusal_text why) }
    ensures cause { (result.status ≡ refusal_status why)
        ⊎ ((result.status ≡ Status.WriteFault) × Rose (K.faults output.old) (K.faults output.new)) }
    ensures lab { result.lab ≡ lab }
    ensures disk { result.disk ≡ disk }
    ensures draws { result.draws ≡ draws }
    ensures falls { result.falls.items ≡ [] }
{
    let mut text = Text::new();
    why.write_line(&mut text);
    end_beside(tell(why.status(), output, &text), lab, disk, draws)
}

/// Takes all memory of a command: a machine of the empty history under a setup, and the room of its disk.
fn take_memory(alloc: Global, setup: Setup) -> Result<(Platform, Room), AllocError>
    ensures setup { IfOk result (λ taken. platform_setup taken.0 ≡ setup) }
    ensures empty { IfOk result (λ taken. platform_view taken.0 ≡ (the_machine setup).empty) }
{
    let core = Platform::new(alloc, setup)?;
    let room = Room::new(alloc)?;
    Ok((core, room))
}

/// Carries out what the words say, under the setup that they name, or ends before anything was made or opened.
fn carry_out<S: Source, C: Source, K: Sink, L: LabDisk, D: Disk, W: Draws>(
    alloc: Global,
    said: Words,
    input: &mut S,
    setup: &mut C,
    output: &mut K,
    lab: L,
    disk: D,
    draws: W,
) -> Ended<L, D, W>
    requires range { InRange said.command }
    requires lab_size { (L.state lab).size ≡ DISK_LEN }
    requires disk_size { (D.state disk).size ≡ DISK_LEN }
    requires openable { IsOpenable (D.state disk) }
    requires is_on { (L.state lab).is_on ≡ true }
    requires armed { (L.state lab).armed ≡ [] }
    requires found { (L.state lab).found ≡ [] }
    ensures done { (IsRefused (Some said) result.status
        (world C.left C.faults S.left S.faults K.taken K.faults L.state D.state setup.old input.old output.old lab disk)
        (world C.left C.faults S.left S.faults K.taken K.faults L.state D.state setup.new input.new output.new result.lab result.disk)
        × (input.new ≡ input.old) × (result.lab ≡ lab) × (result.disk ≡ disk) × (result.draws ≡ draws) × (result.falls.items ≡ []))
        ⊎ IsCarriedOut (TellsImages D.state) (Some said) (W.block_of draws) result.status result.falls.items
        (world C.left C.faults S.left S.faults K.taken K.faults L.state D.state setup.old input.old output.old lab disk)
        (world C.left C.faults S.left S.faults K.taken K.faults L.state D.state setup.new input.new output.new result.lab result.disk) }
    ensures causes { HasReasons (Some said) result.status
        (world C.left C.faults S.left S.faults K.taken K.faults L.state D.state setup.old input.old output.old lab disk)
        (world C.left C.faults S.left S.faults K.taken K.faults L.state D.state setup.new input.new output.new result.lab result.disk) }
    ensures complete { HasNotFailed (Some said)
        (world C.left C.faults S.left S.faults K.taken K.faults L.state D.state setup.old input.old output.old lab disk)
        (world C.left C.faults S.left S.faults K.taken K.faults L.state D.state setup.new input.new output.new result.lab result.disk)
        → CanEndAs (Some said) result.status }
    ensures unread { reads_script said.command ≡ false → input.new ≡ input.old }
    ensures lab { in_lab said.command ≡ false → (result.lab ≡ lab) × (result.falls.items ≡ []) }
    ensures draws { plays said.command ≡ false → result.draws ≡ draws }
    ensures disk { in_image said.command ≡ false → result.disk ≡ disk }
    ensures setup { names_setup said ≡ false → setup.new ≡ setup.old }
    ensures few { TookFront (C.left setup.old) (C.left setup.new) }
{
    let given = match given_setup(alloc, said.setup.is_some(), setup) {
        Ok(given) => given,
        Err(why) => return refuse(why, output, lab, disk, draws),
    };
    match take_memory(alloc, given) {
        Ok((core, room)) => command(said.command, core, room, input, output, lab, disk, draws),
        Err(_) => refuse(Refusal::OutOfMemory, output, lab, disk, draws),
    }
}

/// Carries out a command, over a core of the empty history.
fn command<S: Source, K: Sink, L: LabDisk, D: Disk, W: Draws>(
    command: Command,
    core: Platform,
    room: Room,
    input: &mut S,
    output: &mut K,
    lab: L,
    disk: D,
    draws: W,
) -> Ended<L, D, W>
    requires range { InRange command }
    requires empty { platform_view core ≡ (the_machine (platform_setup core)).empty }
    requires lab_size { (L.state lab).size ≡ DISK_LEN }
    requires disk_size { (D.state disk).size ≡ DISK_LEN }
    requires openable { IsOpenable (D.state disk) }
    requires is_on { (L.state lab).is_on ≡ true }
    requires armed { (L.state lab).armed ≡ [] }
    requires found { (L.state lab).found ≡ [] }
    ensures done { CommandDone (TellsImages D.state) (the_machine (platform_setup core)) (W.block_of draws) command result.status result.falls.items
        (outer S.left S.faults K.taken K.faults L.state input.old output.old lab)
        (outer S.left S.faults K.taken K.faults L.state input.new output.new result.lab)
        (D.state disk) (D.state result.disk) }
    ensures causes { CommandCauses command result.status
        (outer S.left S.faults K.taken K.faults L.state input.old output.old lab)
        (outer S.left S.faults K.taken K.faults L.state input.new output.new result.lab)
        (D.state disk) (D.state result.disk) }
    ensures unread { reads_script command ≡ false → input.new ≡ input.old }
    ensures lab { in_lab command ≡ false → (result.lab ≡ lab) × (result.falls.items ≡ []) }
    ensures draws { plays command ≡ false → result.draws ≡ draws }
    ensures disk { in_image command ≡ false → result.disk ≡ disk }
{
    match command {
        Command::Trial => {
            let parts = Parts {
                core,
                disk: lab,
                draws,
                room,
            };
            end_carried(run_trial(parts, input, output), disk)
        }
        Command::Init { .. } => {
            let (status, disk) = init(core, room, disk, output);
            end_beside(status, lab, disk, draws)
        }
        Command::Show { what, .. } => {
            let mut disk = disk;
            let status = show(core, room, &mut disk, what, output);
            end_beside(status, lab, disk, draws)
        }
        Command::Check { .. } => {
            let mut disk = disk;
            let status = check(room, &mut disk, output);
            end_beside(status, lab, disk, draws)
        }
        Command::Soak { count, seed } => {
            let parts = Parts {
                core,
                disk: lab,
                draws,
                room,
            };
            end_carried(run_soak(parts, count, seed, output), disk)
        }
        Command::Run { .. } => {
            let parts = Parts {
                core,
                disk,
                draws,
                room,
            };
            let (status, disk, draws) = run_image(parts, input, output);
            end_beside(status, lab, disk, draws)
        }
    }
}

/// Ends a command over the laboratory.
fn end_carried<L, D, W>(carried: Carried<L, W>, disk: D) -> Ended<L, D, W>
    ensures status { result.status ≡ carried.status }
    ensures falls { result.falls.items ≡ carried.falls.items }
    ensures lab { result.lab ≡ carried.lab }
    ensures disk { result.disk ≡ disk }
    ensures draws { result.draws ≡ carried.draws }
{
    Ended {
        status: carried.status,
        falls: carried.falls,
        lab: carried.lab,
        disk,
        draws: carried.draws,
    }
}

/// Ends a command beside the laboratory, or one that did nothing.
fn end_beside<L, D, W>(status: Status, lab: L, disk: D, draws: W) -> Ended<L, D, W>
    ensures status { result.status ≡ status }
    ensures falls { result.falls.items ≡ [] }
    ensures lab { result.lab ≡ lab }
    ensures disk { result.disk ≡ disk }
    ensures draws { result.draws ≡ draws }
{
    Ended {
        status,
        falls: Falls::new(),
        lab,
        disk,
        draws,
    }
}
