//! Chunks of a customer's stream.
ghost use Rattle.std.specs.Prelude.{◌≡◌, length};

use sdh_payload::{Cells, Feed, Port};
use std::alloc::Global;

/// Makes `chunks` chunks of a port's stream, puts the last of them into `out`, and returns whether that was done: false
/// where the port cannot be made, memory runs out, or `chunks` is 0.
#[unsafe(no_mangle)]
pub extern "C" fn sdh_bench_chunks(
    alloc: Global,
    text: &[u8],
    trace: &[u8],
    offset: u16,
    chunks: u32,
    out: &mut [u8],
) -> bool
    requires { length out.old ≡ 2349 }
{
    let Ok(port) = Port::new(text, trace, offset) else {
        return false;
    };
    let Ok(mut cells) = Cells::try_new(alloc) else {
        return false;
    };
    let mut feed = Feed::new(&port);
    for _ in 0..chunks {
        feed.next(&mut cells);
    }
    let last = cells.as_slice();
    if last.len() != out.len() {
        return false;
    }
    out.copy_from_slice(last);
    true
}
