//! Bytes that stand in others.
ghost use Rattle.std.specs.Prelude.{◌≡◌};
ghost use Rattle.sdh_outage.specs.Kinds.{are_ones, kind_of_pieces};
ghost use Rattle.sdh_outage.specs.Near.{is_part, front, back, is_torn, holds};

use crate::kind::Kind;
use memchr::memmem;

/// The number of bytes of a chunk before the place of a justification, and the least number of bytes after all that a
/// justification changes there.
const FRONT: usize = 783;

const BACK: usize = 1560;

/// Returns whether some bytes stand in others, one after the other.
#[tactic(auto, using(crate::proofs::Standing::part_found))]
pub(crate) fn is_part(bytes: &[u8], others: &[u8]) -> bool
    ensures { result ≡ is_part bytes.now others.now }
{
    memmem::find(others, bytes).is_some()
}

/// Returns whether all of them are ones.
pub(crate) fn are_ones(bytes: &[u8]) -> bool
    ensures { result ≡ are_ones bytes.now }
{
    bytes.iter().all(|byte| *byte == 255)
}

// Returns the bytes of a chunk before the place where an AU-4 is justified.
#[tactic(auto, using(crate::proofs::Standing::front_whole))]
fn front(chunk: &[u8]) -> &[u8]
    ensures { result.now ≡ front chunk.now }
{
    if chunk.len() <= FRONT {
        return chunk;
    }
    &chunk[..FRONT]
}

// Returns the bytes of a chunk after all that a justification changes.
fn back(chunk: &[u8]) -> &[u8]
    ensures { result.now ≡ back chunk.now }
{
    &chunk[chunk.len().saturating_sub(BACK)..]
}

// Returns whether both pieces of a chunk stand in others.
fn is_torn(chunk: &[u8], others: &[u8]) -> bool
    ensures { result ≡ is_torn chunk.now others.now }
{
    is_part(front(chunk), others) && is_part(back(chunk), others)
}

/// Returns the kind of a round that brings a chunk which doesn't stand in these bytes as one part; None where its
/// pieces don't stand there either.
pub(crate) fn kind_of_pieces(chunk: &[u8], others: &[u8]) -> Option<Kind>
    ensures { result ≡ kind_of_pieces chunk.now others.now }
{
    if is_torn(chunk, others) {
        Some(Kind::Torn)
    } else {
        None
    }
}

/// Returns whether one of the pieces of a chunk stands in others.
pub(crate) fn holds(chunk: &[u8], others: &[u8]) -> bool
    ensures { result ≡ holds chunk.now others.now }
{
    is_part(front(chunk), others) || is_part(back(chunk), others)
}
