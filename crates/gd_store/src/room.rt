//! Memory for two copies and a payload.

ghost use Rattle.std.specs.Prelude.{◌≡◌, ◌*◌, length, IfOk};
ghost use Rattle.std.specs.Borrow.{sem};
ghost use Rattle.gd_store.specs.Zeros.{AreZeros};
ghost use Rattle.gd_disk.specs.declared.lengths.TheConstants.{COPY_LEN, PAGE_COUNT, PAGE_LEN};

use gd_disk::{COPY_LEN, PAGE_COUNT, PAGE_LEN};
use std::alloc::{AllocError, Global};

/// Memory for two copies and a payload. A store takes no other, so that no later call asks for memory.
#[derive(Drop)]
pub struct Room {
    pub(crate) a: Vec<u8>,
    pub(crate) b: Vec<u8>,
    pub(crate) payload: Vec<u8>,
    ghost a_len: { length a.items ≡ COPY_LEN },
    ghost b_len: { length b.items ≡ COPY_LEN },
    ghost payload_len: { length payload.items ≡ PAGE_LEN * PAGE_COUNT },
}

impl Room {
    ghost use Rattle.gd_store.specs.Room.{room_payload};
    ghost use Rattle.gd_store.specs.Lending.{LendsPayload};

    /// Room with a payload of zeros. The error comes where the memory isn't to be had.
    pub fn new(alloc: Global) -> Result<Room, AllocError>
        ensures { IfOk result (λ room. AreZeros (room_payload room)) }
    {
        Ok(Room {
            a: zeros(alloc, COPY_LEN)?,
            b: zeros(alloc, COPY_LEN)?,
            payload: zeros(alloc, PAGE_LEN * PAGE_COUNT)?,
        })
    }

    /// The payload, of `PAGE_COUNT` pages of `PAGE_LEN` bytes.
    pub fn payload(&self) -> &[u8]
        ensures value { result.now ≡ room_payload self.now }
        ensures length { length result.now ≡ PAGE_LEN * PAGE_COUNT }
    {
        &self.payload
    }

    /// The payload, for writing. What is left in it is the room's payload.
    pub fn payload_mut(&mut self) -> &mut [u8]
        ensures* writes_back { sem 𝓛 (LendsPayload self.entry result) }
        ensures value { result.now ≡ room_payload self.old }
        ensures length { length result.now ≡ PAGE_LEN * PAGE_COUNT }
    {
        self.payload.as_mut_slice()
    }
}

fn zeros(alloc: Global, n: usize) -> Result<Vec<u8>, AllocError>
    ensures length { IfOk result (λ bytes. length bytes.items ≡ n) }
    ensures zeros { IfOk result (λ bytes. AreZeros bytes.items) }
{
    Ok(vec![in alloc; 0; n]?)
}
