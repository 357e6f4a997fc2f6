ghost use Rattle.std.specs.Prelude.{◌≡◌, ◌+◌, ◌-◌, ◌<◌, ◌≤◌, ◌++◌, [], ◌∷◌, length, vec_len, take};
ghost use Rattle.std.specs.Int.{to_be_bytes};
ghost use Rattle.sha2.specs.Sha256.{sha256};
ghost use Rattle.segment.specs.Parts.{parts_of};
ghost use Rattle.store_bytes.specs.segment_bytes.Grammar.{body_of};
ghost use Rattle.store_bytes.specs.segment_bytes.Sizes.{max_body, max_body_of};
ghost use Rattle.store_bytes.specs.declared.segment_bytes.layout.Layout.TheVariants.{One};
ghost use Rattle.segment_store.specs.Image.{with_length, with_digest};
ghost use Rattle.store_bytes.specs.declared.segment_bytes.layout.TheConstants.{MAX_CLASSES_ONE};
ghost use Rattle.segment_store.specs.declared.filling.TheConstants.{FRAME_LENGTH};

use segment::Segment;
use sha2::{Digest, Sha256};
use store_bytes::segment_bytes::{Layout, encode};

/// The bytes around a body of a store: its gate, its length and its SHA-256.
pub const FRAME_LENGTH: usize = 37;

// Writes the digest of the front behind it, and a closed gate.
fn seal(buf: &mut [u8], n: usize) -> usize
    requires room { n + 33 ≤ length buf.old }
    ensures sealed { take result buf.new ≡
        (take n buf.old ++ sha256 (take n buf.old)) ++ 0 ∷ [] }
    ensures len { result ≡ n + 33 }
{
    let digest = Sha256::digest(&buf[..n]);
    buf[n..n + 32].copy_from_slice(&digest);
    buf[n + 32] = 0;
    n + 33
}

// Writes the length of a body and the body.
fn sign(layout: Layout, buf: &mut [u8], segment: &Segment) -> usize
    requires narrow { layout ≡ One → segment.now.grid.classes ≤ MAX_CLASSES_ONE }
    requires room { 4 + max_body layout segment.now.grid.classes ≤ length buf.old }
    ensures signed { take result buf.new ≡ with_length (body_of layout (parts_of segment.now)) }
    ensures len { result ≡ 4 + length (body_of layout (parts_of segment.now)) }
    ensures bound { result ≤ 4 + max_body layout segment.now.grid.classes }
    ensures by_samples { result ≤
        4 + max_body_of segment.now.grid.classes (segment.now.to - segment.now.from) }
{
    let grid = segment.grid();
    let _classes = grid.classes();
    let (field, body) = buf.split_at_mut(4);
    let n = encode(layout, segment, body);
    field.copy_from_slice(&(n as u32).to_be_bytes());
    n + 4
}

// Writes what stands behind the gate of a body, and the next gate, closed.
pub(crate) fn fill(layout: Layout, buf: &mut [u8], segment: &Segment) -> usize
    requires narrow { layout ≡ One → segment.now.grid.classes ≤ MAX_CLASSES_ONE }
    requires room { FRAME_LENGTH + max_body layout segment.now.grid.classes ≤ length buf.old }
    ensures filled { take result buf.new ≡
        with_digest (body_of layout (parts_of segment.now)) ++ 0 ∷ [] }
    ensures len { result ≡ FRAME_LENGTH + length (body_of layout (parts_of segment.now)) }
    ensures bound { result ≤ FRAME_LENGTH + max_body layout segment.now.grid.classes }
    ensures by_samples { result ≤
        FRAME_LENGTH + max_body_of segment.now.grid.classes (segment.now.to - segment.now.from) }
{
    let n = sign(layout, buf, segment);
    seal(buf, n)
}

// The same in a `Vec`.
pub(crate) fn stage(layout: Layout, buf: &mut Vec<u8>, segment: &Segment) -> usize
    requires narrow { layout ≡ One → segment.now.grid.classes ≤ MAX_CLASSES_ONE }
    requires room { FRAME_LENGTH + max_body layout segment.now.grid.classes ≤ vec_len buf.old }
    ensures filled { take result buf.new.items ≡
        with_digest (body_of layout (parts_of segment.now)) ++ 0 ∷ [] }
    ensures len { result ≡ FRAME_LENGTH + length (body_of layout (parts_of segment.now)) }
    ensures bound { result ≤ FRAME_LENGTH + max_body layout segment.now.grid.classes }
    ensures by_samples { result ≤
        FRAME_LENGTH + max_body_of segment.now.grid.classes (segment.now.to - segment.now.from) }
    ensures same_room { vec_len buf.new ≡ vec_len buf.old }
{
    fill(layout, buf, segment)
}
