//! Runs of the program over what is in memory, and what they leave.

ghost use Rattle.std.specs.Prelude.{◌≡◌, [], true};

use gd_base::{Draws, ListDraws, MemorySink, MemorySource, Source};
use gd_disk::{DISK_LEN, LabDisk, MemoryDisk};
use gd_store::{Booted, CopyState, Room, boot};
use gd_top::{Falls, Status, cabinet};
use std::alloc::Global;
use std::test::Fail;

/// The lines of each report before those of the script.
const OPENING: [&str; 2] = ["power 1: a sound 0, b sound 0", "start at 1"];

/// How a trial went.
#[derive(Drop)]
pub struct Run<L> {
    /// What the run ended with.
    pub status: Status,
    /// The offers in which cuts came that count calls.
    pub falls: Falls,
    /// The report as it was written.
    pub output: MemorySink,
    /// The laboratory as it was left.
    pub lab: L,
}

/// Runs the program over a laboratory, with room for as many bytes of output. Each block is of zeros.
pub fn trial<S: Source + Drop, L: LabDisk + Drop>(
    alloc: Global,
    words: &[&str],
    script: S,
    room: usize,
    lab: L,
) -> Result<Run<L>, Fail>
    requires size { (L.state lab).size ≡ DISK_LEN }
    requires is_on { (L.state lab).is_on ≡ true }
    requires armed { (L.state lab).armed ≡ [] }
    requires found { (L.state lab).found ≡ [] }
{
    trial_with_draws(alloc, words, script, room, lab, zeros(alloc))
}

/// The same with the blocks of these draws.
pub fn trial_with_draws<S: Source + Drop, L: LabDisk + Drop, W: Draws + Drop>(
    alloc: Global,
    words: &[&str],
    script: S,
    room: usize,
    lab: L,
    draws: W,
) -> Result<Run<L>, Fail>
    requires size { (L.state lab).size ≡ DISK_LEN }
    requires is_on { (L.state lab).is_on ≡ true }
    requires armed { (L.state lab).armed ≡ [] }
    requires found { (L.state lab).found ≡ [] }
{
    let no_file = MemorySource::of(Vec::new(alloc), None);
    trial_with_setup(alloc, words, no_file, script, room, lab, draws)
}

/// The same with this file of a setup.
pub fn trial_with_setup<S: Source + Drop, L: LabDisk + Drop, W: Draws + Drop>(
    alloc: Global,
    words: &[&str],
    mut setup: MemorySource,
    mut script: S,
    room: usize,
    lab: L,
    draws: W,
) -> Result<Run<L>, Fail>
    requires size { (L.state lab).size ≡ DISK_LEN }
    requires is_on { (L.state lab).is_on ≡ true }
    requires armed { (L.state lab).armed ≡ [] }
    requires found { (L.state lab).found ≡ [] }
{
    let mut output = MemorySink::with_room(alloc, room)?;
    let disk = MemoryDisk::of(vec![in alloc; 0; DISK_LEN as usize]?, None);
    let ended = cabinet(
        alloc,
        words,
        &mut script,
        &mut setup,
        &mut output,
        lab,
        disk,
        draws,
    );
    Ok(Run {
        status: ended.status,
        falls: ended.falls,
        output,
        lab: ended.lab,
    })
}

/// Draws of which each block is of zeros.
pub fn zeros(alloc: Global) -> ListDraws {
    ListDraws::of(Vec::new(alloc))
}

/// Both copies are sound at this count.
pub fn are_sound<L: LabDisk + Drop>(alloc: Global, mut lab: L, count: u64) -> Result<(), Fail> {
    let mut room = Room::new(alloc)?;
    if lab.len() != DISK_LEN {
        return Err(Fail::new("another length"));
    }
    match boot(&mut lab, &mut room) {
        Booted::Ready { found, sequence } => {
            let wanted = CopyState::Sound(count);
            if sequence != count || found.a != wanted || found.b != wanted {
                return Err(Fail::new("the copies aren't sound at this count"));
            }
            Ok(())
        }
        _ => Err(Fail::new("no copy is sound")),
    }
}

/// These lines, each with its LF.
pub fn lines(alloc: Global, lines: &[&str]) -> Result<Vec<u8>, Fail> {
    let mut bytes = Vec::new(alloc);
    push_lines(&mut bytes, lines)?;
    Ok(bytes)
}

/// The report of these lines behind those of the opening.
pub fn report(alloc: Global, lines: &[&str]) -> Result<Vec<u8>, Fail> {
    let mut bytes = Vec::new(alloc);
    push_lines(&mut bytes, &OPENING)?;
    push_lines(&mut bytes, lines)?;
    Ok(bytes)
}

/// Appends lines, each with its LF.
fn push_lines(bytes: &mut Vec<u8>, lines: &[&str]) -> Result<(), Fail> {
    for line in lines {
        bytes.extend_from_slice(line.as_bytes())?;
        bytes.push(b'\n')?;
    }
    Ok(())
}
