//! The lengths of a disk that holds the memory's image. docs/FORMATS.md has the layout.

/// Bytes in the gate of a copy.
pub const GATE_LEN: usize = 1;

/// Bytes in the header of a copy, which stands behind its gate.
pub const HEADER_LEN: usize = 16;

/// Bytes in a digest: that of a page, and the seal.
pub const DIGEST_LEN: usize = 32;

/// Bytes in a page of a copy's payload.
pub const PAGE_LEN: usize = 512;

/// Pages in a copy's payload.
pub const PAGE_COUNT: usize = 32;

/// The place in a copy of the first page's digest, behind the header.
pub const DIGESTS_AT: usize = GATE_LEN + HEADER_LEN;

/// Bytes in a copy beside its pages and their digests: its gate, its header and its seal.
pub const FRAME_LEN: usize = DIGESTS_AT + DIGEST_LEN;

/// Bytes in one copy: the frame, a digest for each page, and the pages.
pub const COPY_LEN: usize = FRAME_LEN + DIGEST_LEN * PAGE_COUNT + PAGE_LEN * PAGE_COUNT;

/// Bytes on a disk: two copies, one behind the other.
pub const DISK_LEN: u64 = 2 * COPY_LEN as u64;

const _: () = prove!(GATE_LEN == 1);

const _: () = prove!(HEADER_LEN == 16);

const _: () = prove!(DIGEST_LEN == 32);

const _: () = prove!(PAGE_LEN == 512);

const _: () = prove!(PAGE_COUNT == 32);

const _: () = prove!(DIGESTS_AT == 17);

const _: () = prove!(FRAME_LEN == 49);

const _: () = prove!(COPY_LEN == 17_457);

const _: () = prove!(DISK_LEN == 34_914);
