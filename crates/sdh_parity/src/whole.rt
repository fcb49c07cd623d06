//! Whole frames: the scrambler and both parities in one pass. The head of a row is its first 9N bytes. B2 doesn't cover
//! the heads of rows 2 and 3. They pass together with the bytes that B2 covers, and their parity is then added a second
//! time, which removes it (XOR).
ghost use Rattle.std.specs.Prelude.{◌≡◌, ◌*◌, ◌⊎◌, ◌++◌, if◌then◌else◌, length, take, slice_range};
ghost use Rattle.sdh_basics.specs.Parity.{bip8 as parity_of};
ghost use Rattle.sdh_parity.specs.Parity.{section_parity};
ghost use Rattle.sdh_parity.specs.Scrambling.{scrambled};
ghost use Rattle.sdh_parity.specs.Pieces.{HasLanes};

use crate::adding::{add_lanes, add_rows};
use crate::parity::bip8;
use crate::through::{pass, pass_to};

/// The parities of a frame: in `line` the BIP-8 of its bytes on the line, and in the first 3N bytes of `clear` the
/// BIP-24N of its unscrambled bytes. BIP-24N leaves out the first 9N bytes of rows 1 to 3.
#[derive(Debug, Drop)]
pub struct FrameParities {
    pub line: u8,
    pub clear: [u8; 48],
}

// Returns, in the first 3N bytes, the BIP-24N of the heads of rows 2 and 3.
fn heads_of(n: usize, bytes: &[u8]) -> [u8; 48]
    requires rate { (n ≡ 4) ⊎ (n ≡ 16) }
    requires frame { length bytes.now ≡ 2430 * n }
    ensures long { length result ≡ 48 }
    ensures lanes { HasLanes (3 * n) (slice_range bytes.now (270 * n) (279 * n) ++ slice_range bytes.now (540 * n) (549 * n)) result }
{
    let mut sums = [0; 48];
    add_rows(n, &mut sums, &bytes[270 * n..279 * n], 3);
    add_rows(n, &mut sums, &bytes[540 * n..549 * n], 3);
    sums
}

/// Scrambles a frame of 2430N bytes in place. Returns the BIP-8 of the scrambled bytes, which go on the line, and the
/// BIP-24N of the bytes before scrambling. `n` is N, 4 or 16.
pub fn send_frame(n: usize, bytes: &mut [u8]) -> FrameParities
    requires rate { (n ≡ 4) ⊎ (n ≡ 16) }
    requires frame { length bytes.old ≡ 2430 * n }
    ensures bytes { bytes.new ≡ scrambled (9 * n) bytes.old }
    ensures line { result.line ≡ parity_of bytes.new }
    ensures clear { take (3 * n) result.clear ≡ section_parity n bytes.old }
    ensures long { length result.clear ≡ 48 }
{
    let mut clear = heads_of(n, bytes);
    let (head, rest) = bytes.split_at_mut(9 * n);
    let passed = pass(rest, 0, false);
    add_lanes(n, &mut clear, &passed.lanes);
    FrameParities {
        line: bip8(head) ^ passed.line,
        clear,
    }
}

// Scrambles or descrambles a frame of 2430N bytes from one slice to another. Returns the BIP-8 of the bytes on the line
// and the BIP-24N of the clear bytes. The clear bytes are those in `to` where `clear_after` holds (descrambling), and
// those in `from` otherwise (scrambling). `n` is N, 4 or 16.
#[inline(always)]
fn pass_frame_to(n: usize, from: &[u8], to: &mut [u8], clear_after: bool) -> FrameParities
    requires rate { (n ≡ 4) ⊎ (n ≡ 16) }
    requires from { length from.now ≡ 2430 * n }
    requires to { length to.old ≡ 2430 * n }
    ensures bytes { to.new ≡ scrambled (9 * n) from.now }
    ensures line { result.line ≡ parity_of (if clear_after then from.now else to.new) }
    ensures clear { take (3 * n) result.clear ≡ section_parity n (if clear_after then to.new else from.now) }
    ensures long { length result.clear ≡ 48 }
{
    let (front, back) = from.split_at(9 * n);
    let (head, rest) = to.split_at_mut(9 * n);
    head.copy_from_slice(front);
    let passed = pass_to(back, rest, 0, clear_after);
    let mut clear = if clear_after {
        heads_of(n, to)
    } else {
        heads_of(n, from)
    };
    add_lanes(n, &mut clear, &passed.lanes);
    FrameParities {
        line: bip8(front) ^ passed.line,
        clear,
    }
}

/// Scrambles a frame of 2430N bytes from one slice to another. Returns the BIP-8 of the scrambled bytes in `to`, which
/// go on the line, and the BIP-24N of the bytes in `from`. `n` is N, 4 or 16.
pub fn send_frame_to(n: usize, from: &[u8], to: &mut [u8]) -> FrameParities
    requires rate { (n ≡ 4) ⊎ (n ≡ 16) }
    requires from { length from.now ≡ 2430 * n }
    requires to { length to.old ≡ 2430 * n }
    ensures bytes { to.new ≡ scrambled (9 * n) from.now }
    ensures line { result.line ≡ parity_of to.new }
    ensures clear { take (3 * n) result.clear ≡ section_parity n from.now }
    ensures long { length result.clear ≡ 48 }
{
    pass_frame_to(n, from, to, false)
}

/// Descrambles a frame of 2430N bytes in place. Returns the BIP-8 of the bytes as they came from the line, and the
/// BIP-24N of the descrambled bytes. `n` is N, 4 or 16.
pub fn receive_frame(n: usize, bytes: &mut [u8]) -> FrameParities
    requires rate { (n ≡ 4) ⊎ (n ≡ 16) }
    requires frame { length bytes.old ≡ 2430 * n }
    ensures bytes { bytes.new ≡ scrambled (9 * n) bytes.old }
    ensures line { result.line ≡ parity_of bytes.old }
    ensures clear { take (3 * n) result.clear ≡ section_parity n bytes.new }
    ensures long { length result.clear ≡ 48 }
{
    let (_, rest) = bytes.split_at_mut(9 * n);
    let passed = pass(rest, 0, true);
    let mut clear = heads_of(n, bytes);
    add_lanes(n, &mut clear, &passed.lanes);
    FrameParities {
        line: bip8(&bytes[..9 * n]) ^ passed.line,
        clear,
    }
}

/// Descrambles a frame of 2430N bytes from one slice to another. Returns the BIP-8 of the bytes in `from`, as they came
/// from the line, and the BIP-24N of the descrambled bytes in `to`. `n` is N, 4 or 16.
pub fn open_frame(n: usize, from: &[u8], to: &mut [u8]) -> FrameParities
    requires rate { (n ≡ 4) ⊎ (n ≡ 16) }
    requires from { length from.now ≡ 2430 * n }
    requires to { length to.old ≡ 2430 * n }
    ensures bytes { to.new ≡ scrambled (9 * n) from.now }
    ensures line { result.line ≡ parity_of from.now }
    ensures clear { take (3 * n) result.clear ≡ section_parity n to.new }
    ensures long { length result.clear ≡ 48 }
{
    pass_frame_to(n, from, to, true)
}
