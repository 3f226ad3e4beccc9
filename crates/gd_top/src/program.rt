//! The program: the command of the command line's words, over standard input, standard output and the files that the words name.

ghost use Rattle.std.specs.Prelude.{◌≡◌, ◌⊎◌, IfOk, IsErr, drop, map, option_map};
ghost use Rattle.std.specs.Process.{exit_status};
ghost use Rattle.std.specs.String.{string_bytes};
ghost use Rattle.gd_base.specs.Outside.Causes.{Rose};
ghost use Rattle.gd_base.specs.Outside.KeyStream.{seeded_block};
ghost use Rattle.gd_disk.specs.Memory.{lab_state};
ghost use Rattle.gd_disk.specs.declared.lengths.TheConstants.{DISK_LEN};
ghost use Rattle.gd_store.specs.OpenAnswer.{IsOpenable};
ghost use Rattle.gd_top.specs.Claims.ImageRuns.{TellsImages};
ghost use Rattle.gd_top.specs.Claims.Program.{world, IsCarriedOut, IsRefused};
ghost use Rattle.gd_top.specs.Claims.Refusals.{refusal_text};
ghost use Rattle.gd_top.specs.Claims.Runs.{GivesLast};
ghost use Rattle.gd_top.specs.Code.Named.{seed_named};
ghost use Rattle.gd_top.specs.Report.StatusNumber.{status_number};
ghost use Rattle.gd_words.specs.CommandLine.{texts};
ghost use Rattle.gd_words.specs.Meaning.{words_of};

mod files;

use crate::command::refusal::Refusal;
use crate::ended::Ended;
use crate::report::telling::tell;
use crate::status::Status;
use crate::top_call::cabinet;
use files::{SetupFile, image_disk};
use gd_base::{ChaChaDraws, Draws, Reading, Sink, Source, Text, Writing};
use gd_disk::{DISK_LEN, Disk, MemoryLab};
use gd_words::{DEFAULT_SEED, Words, WordsError, read_words};
use std::alloc::{AllocError, Global};
use std::env::{self, Env};
use std::fs::File;
use std::io::{self, ErrorKind, Input};
use std::process::ExitCode;
use std::rt::Files;

/// The whole program. A `main` calls it, and does nothing else.
pub fn run_program<R: Env + Input + Print + AllocGlobal + Files<File = File>>(rt: &R) -> ExitCode {
    let mut output = Writing::new(io::writer(rt));
    match run(rt, &mut output) {
        Ok(status) => exit_code(status),
        Err(_) => exit_code(give_no_memory(&mut output)),
    }
}

/// The exit status of the process.
fn exit_code(status: Status) -> ExitCode
    ensures { exit_status result ≡ status_number status }
{
    ExitCode::from(status.number())
}

/// Tells that there is no memory for the parts that `cabinet` is handed. Nothing was made.
fn give_no_memory<K: Sink>(output: &mut K) -> Status
    ensures given { GivesLast Status.OutOfMemory result (K.taken output.old)
        (K.taken output.new) (refusal_text Refusal.OutOfMemory) }
    ensures cause { (result ≡ Status.OutOfMemory)
        ⊎ ((result ≡ Status.WriteFault) × Rose (K.faults output.old) (K.faults output.new)) }
{
    let mut text = Text::new();
    Refusal::OutOfMemory.write_line(&mut text);
    tell(Status::OutOfMemory, output, &text)
}

/// Opens what the words name, and carries them out over standard input.
fn run<R: Env + Input + AllocGlobal + Files<File = File>, K: Sink>(
    rt: &R,
    output: &mut K,
) -> Result<Status, AllocError> {
    let alloc = rt.alloc();
    let all = all_words(rt)?;
    let texts = as_texts(alloc, &all)?;
    let words = behind_name(&texts);
    let said = said_words(alloc, words)?;
    let mut setup = SetupFile::of(rt, said.as_ref());
    let disk = image_disk(rt, said.as_ref());
    let mut input = Reading::new(rt.reader());
    let ended = carry_out(
        alloc,
        words,
        &mut input,
        &mut setup,
        output,
        disk,
        seed_of(said.as_ref()),
    )?;
    Ok(ended.status)
}

/// What the words say, where they are in a row of the commands.
fn said_words(alloc: Global, words: &[&str]) -> Result<Option<Words>, AllocError> {
    match read_words(alloc, words) {
        Ok(said) => Ok(Some(said)),
        Err(WordsError::Usage) => Ok(None),
        Err(WordsError::OutOfMemory) => Err(AllocError),
    }
}

/// The seed of the random words.
fn seed_of(said: Option<&Words>) -> u64
    ensures { result ≡ seed_named (option_map (λ w. w.now) said.entry) }
{
    match said {
        Some(said) => said.seed,
        None => DEFAULT_SEED,
    }
}

/// All words of the command line, the program's own name first. Words that aren't text are in no row of the commands,
/// as none are.
fn all_words<R: Env + AllocGlobal>(rt: &R) -> Result<Vec<String>, AllocError> {
    let mut words = Vec::new(rt.alloc());
    match env::args(rt) {
        Ok(all) => {
            for word in all {
                words.push(word)?;
            }
        }
        Err(error) => {
            if error.kind() == ErrorKind::OutOfMemory {
                return Err(AllocError);
            }
        }
    }
    Ok(words)
}

/// The same words, lent.
fn as_texts<'a>(alloc: Global, words: &'a Vec<String>) -> Result<Vec<&'a str>, AllocError>
    ensures { IfOk result (λ texts. map (λ text. text.now) texts.items
        ≡ map string_bytes words.now.items) }
{
    let mut texts = Vec::with_capacity(alloc, words.len())?;
    for word in words {
        texts.push(word.as_str())?;
    }
    Ok(texts)
}

/// The words behind the first, which is the program's own name.
fn behind_name<'a, 'b>(all: &'a [&'b str]) -> &'a [&'b str]
    ensures { result.now ≡ drop 1 all.now }
{
    match all {
        [] => all,
        [_, words @ ..] => words,
    }
}

/// The random words of a seed.
fn seeded_draws(seed: u64) -> ChaChaDraws
    ensures blocks { ⟦<ChaChaDraws as Draws>⟧.block_of result ≡ seeded_block seed }
{
    ChaChaDraws::new(seed)
}

/// Calls `cabinet` over a new laboratory and the random words of the seed. At Err there was no memory for the laboratory, and
/// nothing was made.
fn carry_out<S: Source, C: Source, K: Sink, D: Disk + Drop>(
    alloc: Global,
    words: &[&str],
    input: &mut S,
    setup: &mut C,
    output: &mut K,
    disk: D,
    seed: u64,
) -> Result<Ended<MemoryLab, D, ChaChaDraws>, AllocError>
    requires size { (D.state disk).size ≡ DISK_LEN }
    requires openable { IsOpenable (D.state disk) }
    ensures done { IfOk result (λ ended. (lab : MemoryLab) × (IsRefused (words_of (texts words.now)) ended.status
        (world C.left C.faults S.left S.faults K.taken K.faults lab_state D.state setup.old input.old output.old lab disk)
        (world C.left C.faults S.left S.faults K.taken K.faults lab_state D.state setup.new input.new output.new ended.lab ended.disk)
        ⊎ IsCarriedOut (TellsImages D.state) (words_of (texts words.now)) (seeded_block seed) ended.status ended.falls.items
        (world C.left C.faults S.left S.faults K.taken K.faults lab_state D.state setup.old input.old output.old lab disk)
        (world C.left C.faults S.left S.faults K.taken K.faults lab_state D.state setup.new input.new output.new ended.lab ended.disk))) }
    ensures unmade { IsErr result
        → (K.taken output.new ≡ K.taken output.old) × (K.faults output.new ≡ K.faults output.old) }
{
    let lab = MemoryLab::new(alloc, DISK_LEN)?;
    Ok(cabinet(
        alloc,
        words,
        input,
        setup,
        output,
        lab,
        disk,
        seeded_draws(seed),
    ))
}
