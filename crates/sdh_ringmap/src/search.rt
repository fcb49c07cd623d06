//! Searches in lists of identifiers, and identifiers as bytes.
ghost use Rattle.std.specs.Prelude.{◌≡◌, ◌<◌, ◌≤◌, true, All, map, ◌==◌, length, IfSome, position};
ghost use Rattle.sdh_ringmap.specs.Numbering.{is_id, magnitude, stood_before, first_unfit, first_repeat};

use arrayvec::ArrayVec;

// Returns the first place of an identifier, counted from 0, or `None` where the list doesn't have it.
pub(crate) fn index_of(ids: &[u8], id: u8) -> Option<usize>
    ensures index { result ≡ position (λ x. x == id) ids.now }
    ensures within { IfSome result (λ i. i < length ids.now) }
{
    ids.iter().position(|x| *x == id)
}

// Returns whether the number is an identifier, 0 to 15.
fn is_id(number: i64) -> bool
    ensures { result ≡ is_id number }
{
    0 <= number && number <= 15
}

// Returns the first place whose number is no identifier, or `None` where all are.
pub(crate) fn first_unfit(ids: &[i64]) -> Option<usize>
    ensures index { result ≡ first_unfit ids.now }
    ensures within { IfSome result (λ i. i < length ids.now) }
{
    ids.iter().position(|id| !is_id(*id))
}

// Returns whether the number at a place stands at an earlier place too.
fn stood_before(ids: &[i64], i: usize) -> bool
    requires { i < length ids.now }
    ensures { result ≡ stood_before ids.now i }
{
    ids[..i].contains(&ids[i])
}

// Returns the first place whose number stands at an earlier place too, or `None` where no two are alike.
pub(crate) fn first_repeat(ids: &[i64]) -> Option<usize>
    ensures index { result ≡ first_repeat ids.now }
    ensures within { IfSome result (λ i. i < length ids.now) }
{
    (0..ids.len()).find(|i| stood_before(ids, *i))
}

// Returns the identifiers as bytes.
pub(crate) fn as_bytes(ids: &[i64]) -> ArrayVec<u8, 16>
    requires few { length ids.now ≤ 16 }
    requires fit { All (λ z. is_id z ≡ true) ids.now }
    ensures { result.items ≡ map magnitude ids.now }
{
    let mut bytes = ArrayVec::new();
    for id in ids {
        bytes.push(*id as u8);
    }
    bytes
}
