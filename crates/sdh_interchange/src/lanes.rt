//! Lanes of vectors over whole columns. The AU-4s of a frame are interleaved byte by byte, so sixteen neighbouring
//! bytes are one column of all AU-4s (STM-16) or four columns (STM-4). A lane whose source is a frame reads one lane of
//! that frame's vector at the same place.
ghost use Rattle.std.specs.Prelude.{◌≡◌, ℕ, ◌+◌, ◌*◌, ◌%◌, ◌<◌, ◌≤◌, ◌⊎◌, length, slice_index};
ghost use Rattle.sdh_interchange.specs.Choosing.{IsSource, AreSources};
ghost use Rattle.sdh_interchange.specs.Lanes.{IsLane, AreLanes};

use crate::choose::Source;

// What each lane of a vector does. `first` and `second` have the lane that it reads in the first and the second frame,
// 128 for none. `own` has the bits that it keeps of the same lane of the own payloads, and `more` the bits that it sets
// itself. Lanes keep bits of the first `upto` payloads only.
#[derive(Clone, Copy)]
pub(crate) struct Lanes {
    pub(crate) first: [u8; 16],
    pub(crate) second: [u8; 16],
    pub(crate) own: [u8; 16],
    pub(crate) more: [u8; 16],
    pub(crate) upto: usize,
}

// Returns what lane j does for its source: the lanes that it reads in either frame, the bits that it keeps, and the
// bits that it sets itself.
#[inline(always)]
fn lane_of<const N: usize>(j: usize, source: Source) -> (u8, u8, u8, u8)
    requires rate { (N ≡ 4) ⊎ (N ≡ 16) }
    requires lane { j < 16 }
    requires source { IsSource N (j % N + 1) source }
    ensures { IsLane N source j result.0 result.1 result.2 result.3 }
{
    let column = j - j % N;
    match source {
        Source::First(au) => ((column + (au as usize - 1)) as u8, 128, 0, 0),
        Source::Second(au) => (128, (column + (au as usize - 1)) as u8, 0, 0),
        Source::Own(_) => (128, 128, 0xFF, 0),
        Source::Ones => (128, 128, 0, 0xFF),
    }
}

// Returns the number of first payloads that are enough, N / 2 or N. Lanes keep bits of no payload after these.
#[inline(always)]
fn upto_of<const N: usize>(own: &[u8; 16]) -> usize
    requires rate { (N ≡ 4) ⊎ (N ≡ 16) }
    requires long { length own.now ≡ 16 }
    ensures few { (2 * result ≡ N) ⊎ (result ≡ N) }
    ensures below { (j : ℕ) → j < 16 → 1 ≤ slice_index own.now j → j % N < result }
{
    for j in 0..16 {
        if j % N >= N / 2 && own[j] > 0 {
            return N;
        }
    }
    N / 2
}

// Returns all sixteen lanes for the sources of the AU-4s.
#[inline(always)]
pub(crate) fn lanes_of<const N: usize>(sources: &[Source]) -> Lanes
    requires rate { (N ≡ 4) ⊎ (N ≡ 16) }
    requires sources { AreSources N sources.now }
    ensures { AreLanes N sources.now result }
{
    let mut first = [0; 16];
    let mut second = [0; 16];
    let mut own = [0; 16];
    let mut more = [0; 16];
    for j in 0..16 {
        let (a, b, c, o) = lane_of::<N>(j, sources[j % N]);
        first[j] = a;
        second[j] = b;
        own[j] = c;
        more[j] = o;
    }
    let upto = upto_of::<N>(&own);
    Lanes {
        first,
        second,
        own,
        more,
        upto,
    }
}
