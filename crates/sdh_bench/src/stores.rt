//! Turns of an elastic store.
ghost use Rattle.std.specs.Prelude.{◌≡◌, ◌+◌, ◌≤◌, length};

use sdh_elastic::Elastic;
use sdh_payload::Cells;
use std::alloc::Global;

// Returns `count` bytes from a place on.
fn part(bytes: &[u8], from: usize, count: usize) -> &[u8]
    requires { from + count ≤ length bytes.now }
    ensures { length result.now ≡ count }
{
    &bytes[from..from + count]
}

// Returns the chunk of a turn. Four chunks in a row are the whole input: the first has 2346 bytes, the others have
// 2349.
fn chunk_in(input: &[u8], turn: u32) -> &[u8]
    requires { length input.now ≡ 9393 }
    ensures least { 2346 ≤ length result.now }
    ensures most { length result.now ≤ 2352 }
{
    match turn % 4 {
        0 => part(input, 0, 2346),
        1 => part(input, 2346, 2349),
        2 => part(input, 4695, 2349),
        _ => part(input, 7044, 2349),
    }
}

/// Runs an elastic store for `turns` turns over the input, again and again. Puts the bytes that the last turn gives
/// into `out`, and returns their number. Returns 0 where memory runs out, a turn is a drift, or `turns` is 0.
#[unsafe(no_mangle)]
pub extern "C" fn sdh_bench_turns(alloc: Global, input: &[u8], turns: u32, out: &mut [u8]) -> usize
    requires input { length input.now ≡ 9393 }
    requires out { length out.old ≡ 2352 }
{
    let Ok(mut store) = Elastic::try_new(alloc, 0) else {
        return 0;
    };
    let Ok(mut cells) = Cells::try_new(alloc) else {
        return 0;
    };
    for turn in 0..turns {
        if store.turn(chunk_in(input, turn), &mut cells).is_err() {
            return 0;
        }
    }
    let last = cells.as_slice();
    if last.len() > out.len() {
        return 0;
    }
    out[..last.len()].copy_from_slice(last);
    last.len()
}
