//! What is taken out of a frame's payload, in each form.

use sdh_payload::{Cells, ChunkForm, take_chunk};
use std::alloc::{AllocError, Global};
use std::test::Fail;

// Returns a payload: its byte i is i modulo 251.
fn payload(alloc: Global) -> Result<Vec<u8>, AllocError> {
    let mut payload = Vec::new(alloc);
    for i in 0..2349u32 {
        payload.push((i % 251) as u8)?;
    }
    Ok(payload)
}

// The form, the number of bytes, and those from index 781 on: 781 is 28 modulo 251.
const FORMS: &[(ChunkForm, usize, &[u8])] = &[
    (ChunkForm::Plain, 2349, &[28, 29, 30, 31, 32, 33, 34, 35]),
    (ChunkForm::Short, 2346, &[28, 29, 33, 34, 35, 36, 37, 38]),
    (ChunkForm::Long, 2352, &[28, 29, 253, 254, 255, 30, 31, 32]),
];

// Returns whether a chunk has `len` bytes, these from index 781 on, and the payload's first and last byte, which is
// that of index 2348 and so 89 modulo 251.
fn is_taken(chunk: &[u8], len: usize, middle: &[u8]) -> bool {
    chunk.len() == len
        && chunk.get(781..789) == Some(middle)
        && chunk.first() == Some(&0)
        && chunk.last() == Some(&89)
}

#[test]
fn takes_a_chunk_of_each_form(rt: HostRuntime) -> Result<(), Fail> {
    let payload = payload(rt.alloc())?;
    assert!(rt; payload.len() == 2349);
    let mut out = Cells::try_new(rt.alloc())?;
    out.push(9);
    for (form, len, middle) in FORMS {
        take_chunk(&payload, &[253, 254, 255], *form, &mut out);
        assert!(rt; is_taken(out.as_slice(), *len, middle), "{form:?}");
    }
    Ok(())
}
