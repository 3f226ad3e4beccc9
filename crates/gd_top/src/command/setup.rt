//! The setup of a run.

ghost use Rattle.std.specs.Prelude.{◌≡◌, ◌≤◌, ◌<◌, true, false, IfOk, IfErr, length};
ghost use Rattle.std.specs.Io.KnownBytes.{Consumes, IsAtEnd};
ghost use Rattle.gd_top.specs.Claims.Refusals.{IsRefusedSetup};
ghost use Rattle.gd_top.specs.Claims.Setups.{IsGiven, TookFront};

use crate::command::refusal::Refusal;
use gd_base::{Setup, Source};
use gd_games::{MOST_FILE_LEN, SetupError, built_in, read_setup};
use std::alloc::Global;

/// The most bytes that are taken of a file: one more than a setup may have.
pub(crate) const MOST_TAKEN: usize = 65_537;

const _: () = prove!(MOST_TAKEN == MOST_FILE_LEN + 1);

/// The most bytes that are taken at once.
const PIECE_LEN: usize = 4096;

/// The setup that holds: that of the file, or without one the built-in setup, for which nothing is taken of the source.
pub(crate) fn given_setup<C: Source>(
    alloc: Global,
    is_named: bool,
    file: &mut C,
) -> Result<Setup, Refusal>
    ensures given { IfOk result (IsGiven is_named (C.left file.old)) }
    ensures refused { IfErr result (IsRefusedSetup is_named (C.left file.old) (C.faults file.old) (C.faults file.new)) }
    ensures few { TookFront (C.left file.old) (C.left file.new) }
    ensures unread { is_named ≡ false → file.new ≡ file.old }
{
    if is_named {
        read_file(alloc, file)
    } else {
        Ok(built_in())
    }
}

/// The setup that the file's bytes say.
fn read_file<C: Source>(alloc: Global, file: &mut C) -> Result<Setup, Refusal>
    ensures given { IfOk result (IsGiven true (C.left file.old)) }
    ensures refused { IfErr result (IsRefusedSetup true (C.left file.old) (C.faults file.old) (C.faults file.new)) }
    ensures few { TookFront (C.left file.old) (C.left file.new) }
{
    let bytes = take_front(alloc, file)?;
    match read_setup(alloc, &bytes) {
        Ok(setup) => Ok(setup),
        Err(SetupError::Fault(fault)) => Err(Refusal::Setup(fault)),
        Err(SetupError::OutOfMemory) => Err(Refusal::OutOfMemory),
    }
}

/// Takes the file's bytes, at most as many as show that they are too many for a setup.
fn take_front<C: Source>(alloc: Global, file: &mut C) -> Result<Vec<u8>, Refusal>
    ensures taken { IfOk result (λ bytes. Consumes (C.left file.old) (C.left file.new) bytes.items) }
    ensures most { IfOk result (λ bytes. length bytes.items ≤ MOST_TAKEN) }
    ensures end { IfOk result (λ bytes. length bytes.items < MOST_TAKEN → IsAtEnd (C.left file.new)) }
    ensures refused { IfErr result (IsRefusedSetup true (C.left file.old) (C.faults file.old) (C.faults file.new)) }
    ensures few { TookFront (C.left file.old) (C.left file.new) }
{
    let mut bytes = Vec::new(alloc);
    let mut piece = [0; PIECE_LEN];
    while bytes.len() < MOST_TAKEN {
        let room = (MOST_TAKEN - bytes.len()).min(PIECE_LEN);
        let Ok(count) = file.take(&mut piece[..room]) else {
            return Err(Refusal::ReadFault);
        };
        prove!(bytes.len() + count <= MOST_TAKEN);
        if count == 0 {
            return Ok(bytes);
        }
        if bytes.extend_from_slice(&piece[..count]).is_err() {
            return Err(Refusal::OutOfMemory);
        }
    }
    Ok(bytes)
}
