//! Commands over an image in memory: what they are handed, how they end, what they print, and what they leave.

use gd_base::{Draws, MemorySink, MemorySource};
use gd_disk::{DISK_LEN, Disk, MemoryDisk, MemoryLab};
use gd_runs::runs::{lines, zeros};
use gd_top::{Status, cabinet};
use std::alloc::Global;
use std::process::Abort;
use std::test::Fail;

/// The most bytes of a report.
pub const ROOM: usize = 2000;

/// A command, and how it goes.
#[derive(Drop)]
pub struct Step<'a> {
    /// Its words.
    pub words: &'a [&'a str],
    /// The lines of the setup's file. Where there are none its first take fails.
    pub setup: Option<&'a [&'a str]>,
    /// The lines of the script, likewise.
    pub script: Option<&'a [&'a str]>,
    /// What it ends with.
    pub status: Status,
    /// The lines that it prints.
    pub report: &'a [&'a str],
    /// Whether the bytes of the disk stand.
    pub stands: bool,
}

/// What a command is handed beside its words and its blocks.
#[derive(Drop)]
pub struct Given {
    /// The file of the setup.
    pub setup: MemorySource,
    /// The script.
    pub script: MemorySource,
    /// For how many bytes the sink has room.
    pub room: usize,
    /// The disk with the image.
    pub disk: MemoryDisk,
}

/// How a command over an image ended.
#[derive(Drop)]
pub struct Ran {
    /// What it ended with.
    pub status: Status,
    /// What it printed.
    pub output: MemorySink,
    /// The disk as it was left.
    pub disk: MemoryDisk,
}

/// Carries out the words.
pub fn carry_out<W: Draws + Drop>(
    alloc: Global,
    words: &[&str],
    given: Given,
    draws: W,
) -> Result<Ran, Fail> {
    let Given {
        mut setup,
        mut script,
        room,
        disk,
    } = given;
    if disk.len() != DISK_LEN {
        return Err(Fail::new("another length"));
    }
    let mut output = MemorySink::with_room(alloc, room)?;
    let lab = MemoryLab::new(alloc, DISK_LEN)?;
    let ended = cabinet(
        alloc,
        words,
        &mut script,
        &mut setup,
        &mut output,
        lab,
        disk,
        draws,
    );
    Ok(Ran {
        status: ended.status,
        output,
        disk: ended.disk,
    })
}

/// A source of these lines, or one whose first take fails.
pub fn source_of(alloc: Global, given: Option<&[&str]>) -> Result<MemorySource, Fail> {
    match given {
        Some(given) => Ok(MemorySource::of(lines(alloc, given)?, None)),
        None => Ok(MemorySource::of(Vec::new(alloc), Some(1))),
    }
}

/// Carries out the command of a step, with room for as many bytes of output.
pub fn carry_step<W: Draws + Drop>(
    alloc: Global,
    disk: MemoryDisk,
    draws: W,
    room: usize,
    step: &Step,
) -> Result<Ran, Fail> {
    let given = Given {
        setup: source_of(alloc, step.setup)?,
        script: source_of(alloc, step.script)?,
        room,
        disk,
    };
    carry_out(alloc, step.words, given, draws)
}

/// A step ends and prints as wanted. What it leaves isn't looked at.
pub fn expect_told<W: Draws + Drop>(
    rt: &impl Abort,
    alloc: Global,
    disk: MemoryDisk,
    draws: W,
    step: &Step,
) -> Result<MemoryDisk, Fail> {
    let ran = carry_step(alloc, disk, draws, ROOM, step)?;
    assert_eq!(rt; ran.status, step.status, "{:?}", step.words);
    assert_eq!(rt;
        ran.output.bytes(),
        lines(alloc, step.report)?.as_slice(),
        "{:?}",
        step.words
    );
    Ok(ran.disk)
}

/// A step goes as wanted.
pub fn expect_step<W: Draws + Drop>(
    rt: &impl Abort,
    alloc: Global,
    disk: MemoryDisk,
    draws: W,
    step: &Step,
) -> Result<MemoryDisk, Fail> {
    let mut disk = disk;
    let before = bytes_of(alloc, &mut disk)?;
    let mut disk = expect_told(rt, alloc, disk, draws, step)?;
    assert_eq!(rt;
        bytes_of(alloc, &mut disk)? == before,
        step.stands,
        "{:?}",
        step.words
    );
    Ok(disk)
}

/// Steps over one disk go as wanted, one after another. Each block is of zeros.
pub fn expect_steps(
    rt: &impl Abort,
    alloc: Global,
    disk: MemoryDisk,
    steps: &[Step],
) -> Result<MemoryDisk, Fail> {
    let mut disk = disk;
    for step in steps {
        disk = expect_step(rt, alloc, disk, zeros(alloc), step)?;
    }
    Ok(disk)
}

/// A command that reads neither a setup nor a script, and leaves the bytes of the disk: its words, what it ends with, and the lines
/// that it prints.
pub type Look<'a> = (&'a [&'a str], Status, &'a [&'a str]);

/// Such commands over one disk go as wanted, one after another.
pub fn expect_looks(
    rt: &impl Abort,
    alloc: Global,
    disk: MemoryDisk,
    looks: &[Look],
) -> Result<MemoryDisk, Fail> {
    let mut disk = disk;
    for (words, status, report) in looks {
        let step = Step {
            words: *words,
            setup: None,
            script: None,
            status: *status,
            report: *report,
            stands: true,
        };
        disk = expect_step(rt, alloc, disk, zeros(alloc), &step)?;
    }
    Ok(disk)
}

/// Steps over a memory that was made, with these masks put on bytes of it.
pub fn expect_over(
    rt: &impl Abort,
    alloc: Global,
    masks: &[(usize, u8)],
    steps: &[Step],
) -> Result<(), Fail> {
    let disk = altered(rt, alloc, masks)?;
    let _disk = expect_steps(rt, alloc, disk, steps)?;
    Ok(())
}

/// A disk of zeros, whose call `fail_at` fails.
pub fn zero_disk(alloc: Global, fail_at: Option<u64>) -> Result<MemoryDisk, Fail> {
    Ok(MemoryDisk::of(vec![in alloc; 0; DISK_LEN as usize]?, fail_at))
}

/// The bytes of the disk.
pub fn bytes_of(alloc: Global, disk: &mut MemoryDisk) -> Result<Vec<u8>, Fail> {
    let mut bytes = vec![in alloc; 0; DISK_LEN as usize]?;
    if disk.len() != DISK_LEN || disk.read(0, &mut bytes).is_err() {
        return Err(Fail::new("the disk isn't read"));
    }
    Ok(bytes)
}

/// A memory is made.
pub const MAKING: Step = Step {
    words: &["init", "m"],
    setup: None,
    script: None,
    status: Status::Done,
    report: &["made"],
    stands: false,
};

/// A memory that was made, with these masks put on bytes of it.
pub fn altered(rt: &impl Abort, alloc: Global, masks: &[(usize, u8)]) -> Result<MemoryDisk, Fail> {
    let disk = zero_disk(alloc, None)?;
    let mut disk = expect_step(rt, alloc, disk, zeros(alloc), &MAKING)?;
    let mut bytes = bytes_of(alloc, &mut disk)?;
    for (at, mask) in masks {
        if let Some(byte) = bytes.get_mut(*at) {
            *byte ^= *mask;
        }
    }
    Ok(MemoryDisk::of(bytes, None))
}

/// What `check` tells of the copies. Something can be booted.
pub fn expect_copies(
    rt: &impl Abort,
    alloc: Global,
    disk: MemoryDisk,
    copies: &[&str],
) -> Result<(), Fail> {
    let looks = [(["check", "m"].as_slice(), Status::Done, copies)];
    let _disk = expect_looks(rt, alloc, disk, &looks)?;
    Ok(())
}

/// A mask on byte 2,000 of copy a, which is in its page 1: the place on the disk, and the mask.
pub const IN_A: (usize, u8) = (2000, 1);

/// A mask on byte 9,000 of copy b, which is in its page 15.
pub const IN_B: (usize, u8) = (17_457 + 9000, 1);

/// The digests of the built-in setup, and of the one that has a credit of one cent.
pub const DIFFERS: &str =
    "differs kept 52b9d80093ab6a5364b17697949a86777b889bd9198bf1417bd4521e72a89f96 given 61d6a9a7340f789ca4dd8a02eb04288ae3c85b24efa781728d3f48fecfc6995a";
