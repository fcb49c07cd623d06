//! The bytes that a port takes from an AU-4 that arrived, and the AU-4 that it fills with the bytes that it sends.
ghost use Rattle.std.specs.Prelude.{◌≡◌, length};
ghost use Rattle.sdh_payload.specs.Chunk.{taken, taken_len, laid_payload, laid_h3};

use crate::cells::Cells;

/// The number of bytes that an AU-4 delivers in a frame: fewer or more in a frame with a pointer justification (ITU-T
/// G.707 clause 8.1).
#[derive(Clone, Copy, Debug, PartialEq, Eq)]
pub enum ChunkForm {
    /// The 2349 bytes of the payload.
    Plain,
    /// The payload without the three stuffed bytes of a positive justification, 2346 bytes.
    Short,
    /// The payload with the three H3 bytes of a negative justification, 2352 bytes.
    Long,
}

/// Puts the bytes that a port takes from an AU-4 into `out`, in place of what it held. They come from the 2349 bytes of
/// the payload and the three H3 bytes. The function allocates no memory.
#[tactic(auto, using(crate::proofs::Splicing::written_whole))]
pub fn take_chunk(payload: &[u8], h3: &[u8], form: ChunkForm, out: &mut Cells)
    requires payload { length payload.now ≡ 2349 }
    requires h3 { length h3.now ≡ 3 }
    ensures bytes { out.new ≡ taken form payload.now h3.now }
    ensures count { length out.new ≡ taken_len form }
{
    out.lend_payload().copy_from_slice(payload);
    take_chunk_in_place(h3, form, out);
}

/// Takes a chunk as `take_chunk` does, where the payload is in `out` already: it was read into `Cells::lend_payload`.
pub fn take_chunk_in_place(h3: &[u8], form: ChunkForm, out: &mut Cells)
    requires payload { length out.old ≡ 2349 }
    requires h3 { length h3.now ≡ 3 }
    ensures bytes { out.new ≡ taken form out.old h3.now }
    ensures count { length out.new ≡ taken_len form }
{
    match form {
        ChunkForm::Plain => {}
        ChunkForm::Short => out.splice(783, 786, &[]),
        ChunkForm::Long => out.splice(783, 783, h3),
    }
}

/// Lays out in an AU-4 the bytes that a port sends in a round. They are given in `out`, where the AU-4's payload
/// replaces them; the three H3 bytes are returned. At a positive justification the three stuffed bytes are zeros. The
/// H3 bytes are zeros except at a negative one. It takes no memory.
pub fn lay_chunk_in_place(form: ChunkForm, out: &mut Cells) -> [u8; 3]
    requires { length out.old ≡ taken_len form }
    ensures payload { out.new ≡ laid_payload form out.old }
    ensures h3 { result ≡ laid_h3 form out.old }
    ensures full { length out.new ≡ 2349 }
{
    match form {
        ChunkForm::Plain => [0, 0, 0],
        ChunkForm::Short => {
            out.splice(783, 783, &[0, 0, 0]);
            [0, 0, 0]
        }
        ChunkForm::Long => {
            let bytes = out.as_slice();
            let h3 = [bytes[783], bytes[784], bytes[785]];
            out.splice(783, 786, &[]);
            h3
        }
    }
}
