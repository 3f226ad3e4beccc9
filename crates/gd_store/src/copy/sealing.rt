//! The sealing of a copy.

ghost use Rattle.std.specs.Prelude.{◌≡◌, ◌+◌, ◌*◌, ◌<◌, ◌++◌, ℕ, length, false, slice_index_or};
ghost use Rattle.std.specs.Int.{w64, to_be_bytes};
ghost use Rattle.sha2.specs.Sha256.{sha256};
ghost use Rattle.gd_store.specs.Copy.{body_of, copy_len, front_of, header_start, digests, page, part};

use crate::Layout;
use gd_disk::{DIGEST_LEN, HEADER_LEN, PAGE_LEN};
use sha2::{Digest, Sha256};

/// The name with which a header begins.
const NAME: [u8; 4] = *b"GDCM";

/// The name, the version and the page count with which a header begins.
pub(crate) fn header_prefix(layout: Layout) -> [u8; 8]
    ensures { result ≡ header_start layout }
{
    let [n0, n1, n2, n3] = NAME;
    let [v0, v1] = layout.version.to_be_bytes();
    let [p0, p1] = layout.pages.to_be_bytes();
    [n0, n1, n2, n3, v0, v1, p0, p1]
}

/// The name, the version, the page count and the sequence.
fn header(layout: Layout, sequence: u64) -> [u8; HEADER_LEN]
    ensures { result ≡ header_start layout ++ to_be_bytes w64 sequence }
{
    let [n0, n1, n2, n3, v0, v1, p0, p1] = header_prefix(layout);
    let [s0, s1, s2, s3, s4, s5, s6, s7] = sequence.to_be_bytes();
    [
        n0, n1, n2, n3, v0, v1, p0, p1, s0, s1, s2, s3, s4, s5, s6, s7,
    ]
}

/// Writes the digest of each page.
pub(crate) fn write_digests(payload: &[u8], into: &mut [u8], pages: usize)
    requires payload { length payload.now ≡ PAGE_LEN * pages }
    requires room { length into.old ≡ DIGEST_LEN * pages }
    ensures { into.new ≡ digests pages payload.now }
{
    for i in 0..pages {
        let digest = Sha256::digest(&payload[PAGE_LEN * i..PAGE_LEN * i + PAGE_LEN]);
        into[DIGEST_LEN * i..DIGEST_LEN * i + DIGEST_LEN].copy_from_slice(&digest);
    }
}

/// Writes what stands behind the gate of a copy.
pub(crate) fn seal_body(layout: Layout, sequence: u64, payload: &[u8], body: &mut [u8])
    requires payload { length payload.now ≡ PAGE_LEN * layout.pages }
    requires body { length body.old + 1 ≡ copy_len layout.pages }
    ensures { body.new ≡ body_of layout sequence payload.now }
{
    let pages = layout.pages as usize;
    let head = HEADER_LEN + DIGEST_LEN * pages;
    body[..HEADER_LEN].copy_from_slice(&header(layout, sequence));
    write_digests(payload, &mut body[HEADER_LEN..head], pages);
    let seal = Sha256::digest(&body[..head]);
    body[head..head + DIGEST_LEN].copy_from_slice(&seal);
    body[head + DIGEST_LEN..].copy_from_slice(payload);
}

/// Writes the digest of a page: the kept one where the page hasn't changed.
fn renew_digest(kept: &[u8], is_changed: bool, page: &[u8], into: &mut [u8])
    requires kept { length kept.now ≡ DIGEST_LEN }
    requires room { length into.old ≡ DIGEST_LEN }
    requires same { is_changed ≡ false → kept.now ≡ sha256 page.now }
    ensures { into.new ≡ sha256 page.now }
{
    if is_changed {
        into.copy_from_slice(&Sha256::digest(page));
    } else {
        into.copy_from_slice(kept);
    }
}

/// Writes the digest of each page, of which those that have changed are computed.
fn renew_digests(kept: &[u8], changed: &[bool], payload: &[u8], into: &mut [u8])
    requires kept { length kept.now ≡ DIGEST_LEN * length changed.now }
    requires payload { length payload.now ≡ PAGE_LEN * length changed.now }
    requires room { length into.old ≡ DIGEST_LEN * length changed.now }
    requires same { (i : ℕ) → i < length changed.now → slice_index_or changed.now i false ≡ false
        → part (DIGEST_LEN * i) DIGEST_LEN kept.now ≡ sha256 (page i payload.now) }
    ensures { into.new ≡ digests (length changed.now) payload.now }
{
    for i in 0..changed.len() {
        let from = DIGEST_LEN * i;
        let page = &payload[PAGE_LEN * i..PAGE_LEN * i + PAGE_LEN];
        let digest = &mut into[from..from + DIGEST_LEN];
        renew_digest(&kept[from..from + DIGEST_LEN], changed[i], page, digest);
    }
}

/// Writes what stands between the gate and the pages of a copy, where only some pages have changed since one of these
/// digests.
pub(crate) fn seal_front(
    layout: Layout,
    sequence: u64,
    kept: &[u8],
    changed: &[bool],
    payload: &[u8],
    front: &mut [u8],
)
    requires kept { length kept.now ≡ DIGEST_LEN * length changed.now }
    requires changed { length changed.now ≡ layout.pages }
    requires payload { length payload.now ≡ PAGE_LEN * length changed.now }
    requires front { length front.old ≡ HEADER_LEN + DIGEST_LEN * layout.pages + DIGEST_LEN }
    requires same { (i : ℕ) → i < length changed.now → slice_index_or changed.now i false ≡ false
        → part (DIGEST_LEN * i) DIGEST_LEN kept.now ≡ sha256 (page i payload.now) }
    ensures { front.new ≡ front_of layout sequence payload.now }
{
    let head = HEADER_LEN + DIGEST_LEN * layout.pages as usize;
    front[..HEADER_LEN].copy_from_slice(&header(layout, sequence));
    renew_digests(kept, changed, payload, &mut front[HEADER_LEN..head]);
    let seal = Sha256::digest(&front[..head]);
    front[head..].copy_from_slice(&seal);
}
