//! Watches on what feeds send, and on bytes that were changed.
ghost use Rattle.std.specs.Prelude.{◌≡◌, ◌+◌, ◌<◌, ◌≤◌, ◌^◌, length};
ghost use Rattle.sdh_payload.specs.Clock.{waiting};

use sdh_path::{BadTrace, PathReport, TraceWord, Watch};
use sdh_payload::{Cells, Feed, Port};
use std::test::Fail;

// Puts the next chunk of a port that never slips into `out`.
#[tactic(auto, using(sdh_payload::proofs::Clocking::rounds_more, sdh_payload::proofs::Clocking::plain_tick))]
fn next_chunk(feed: &mut Feed, out: &mut Cells)
    requires few { feed.old.clock.rounds < 2 ^ 32 }
    requires plain { waiting feed.old.clock ≡ 0 }
    ensures full { length out.new ≡ 2349 }
    ensures rounds { feed.new.clock.rounds ≡ feed.old.clock.rounds + 1 }
    ensures plain { waiting feed.new.clock ≡ 0 }
{
    feed.next(out);
}

// Gives a watch the next `count` chunks of a feed, with a pointer value.
fn give(watch: &mut Watch, feed: &mut Feed, out: &mut Cells, value: u16, count: u32)
    requires value { value ≤ 782 }
    requires few { watch.old.chunks + count ≤ 1000000 }
    requires rounds { feed.old.clock.rounds + count ≤ 2 ^ 32 }
    requires plain { waiting feed.old.clock ≡ 0 }
    ensures chunks { watch.new.chunks ≤ watch.old.chunks + count }
    ensures rounds { feed.new.clock.rounds ≡ feed.old.clock.rounds + count }
    ensures plain { waiting feed.new.clock ≡ 0 }
{
    for i in 0..count {
        next_chunk(feed, out);
        watch.chunk(out.as_slice(), value);
    }
}

// Gives a watch the next chunk with these bits of one byte inverted, at value 522.
fn give_changed(watch: &mut Watch, feed: &mut Feed, out: &mut Cells, at: usize, bits: u8)
    requires few { watch.old.chunks < 1000000 }
    requires rounds { feed.old.clock.rounds < 2 ^ 32 }
    requires plain { waiting feed.old.clock ≡ 0 }
    requires at { at < 2349 }
    ensures chunks { watch.new.chunks ≤ watch.old.chunks + 1 }
    ensures rounds { feed.new.clock.rounds ≡ feed.old.clock.rounds + 1 }
    ensures plain { waiting feed.new.clock ≡ 0 }
{
    next_chunk(feed, out);
    let mut bytes = [0; 2349];
    bytes.copy_from_slice(out.as_slice());
    bytes[at] ^= bits;
    watch.chunk(&bytes, 522);
}

// What a watch reports of VC-4s as they were sent: no violation of B3, the right label, and the length of the trace
// seen.
const CLEAN: PathReport = PathReport {
    vcs: 70,
    b3: 0,
    label: 0,
    trace: TraceWord::Ok,
};

const TOO_LONG: &[u8] = &[b'c'; 65];

const BAD_TRACES: &[&[u8]] = &[b"", TOO_LONG, b"c\x1F", b"\x7Fc"];

#[test]
fn refuses_bad_traces(rt: HostRuntime) {
    assert!(rt; Watch::new(b"c1").is_ok() && Watch::new(&TOO_LONG[..64]).is_ok());
    for trace in BAD_TRACES {
        assert!(rt; Watch::new(trace).err() == Some(BadTrace), "{trace:?}");
    }
}

// The trace of a feed, its offset, how many chunks, and the report of a watch for `c1`.
const FED: &[(&[u8], u16, u32, PathReport)] = &[
    (
        b"c2",
        0,
        64,
        PathReport {
            vcs: 63,
            trace: TraceWord::Mismatch,
            ..CLEAN
        },
    ),
    (
        b"c2",
        0,
        63,
        PathReport {
            vcs: 62,
            trace: TraceWord::Short,
            ..CLEAN
        },
    ),
    (b"c1", 0, 64, PathReport { vcs: 63, ..CLEAN }),
    (b"c1", 0, 128, PathReport { vcs: 127, ..CLEAN }),
    (b"c1", 522, 128, PathReport { vcs: 128, ..CLEAN }),
    (b"c1", 521, 65, PathReport { vcs: 64, ..CLEAN }),
    (b"c1", 782, 100, PathReport { vcs: 99, ..CLEAN }),
    (
        b"c1",
        7,
        0,
        PathReport {
            vcs: 0,
            trace: TraceWord::Short,
            ..CLEAN
        },
    ),
];

// Returns the report of a watch for `c1` on `count` chunks of a feed.
fn report_of(trace: &[u8], offset: u16, count: u32, out: &mut Cells) -> Option<PathReport> {
    if offset > 782 || count > 128 {
        return None;
    }
    let port = Port::new(b"ALPHA", trace, offset).ok()?;
    let mut watch = Watch::new(b"c1").ok()?;
    let mut feed = Feed::new(&port);
    give(&mut watch, &mut feed, out, offset, count);
    Some(watch.report())
}

#[test]
fn reports_what_a_feed_sends(rt: HostRuntime) -> Result<(), Fail> {
    let mut out = Cells::try_new(rt.alloc())?;
    for (trace, offset, count, want) in FED {
        assert!(rt;
            report_of(trace, *offset, *count, &mut out) == Some(*want),
            "{offset} {count}"
        );
    }
    Ok(())
}

// At value 522 a chunk is a whole VC-4: the VC-4 and the byte that is changed, by which bits, and the report after 70.
const CHANGED: &[(u32, usize, u8, PathReport)] = &[
    (3, 700, 0x07, PathReport { b3: 3, ..CLEAN }),
    (3, 261, 0xFF, PathReport { b3: 16, ..CLEAN }),
    (0, 261, 0x01, PathReport { b3: 1, ..CLEAN }),
    (69, 700, 0xFF, CLEAN),
    (
        3,
        522,
        0x80,
        PathReport {
            b3: 1,
            label: 1,
            ..CLEAN
        },
    ),
    (3, 0, 0x02, PathReport { b3: 1, ..CLEAN }),
    (
        6,
        0,
        0x02,
        PathReport {
            b3: 1,
            trace: TraceWord::Mismatch,
            ..CLEAN
        },
    ),
];

// Returns the report of a watch for `c1` on 70 chunks, in one of which a byte is changed.
fn report_changed(number: u32, at: usize, bits: u8, out: &mut Cells) -> Option<PathReport> {
    if number >= 70 || at >= 2349 {
        return None;
    }
    let port = Port::new(b"ALPHA", b"c1", 522).ok()?;
    let mut watch = Watch::new(b"c1").ok()?;
    let mut feed = Feed::new(&port);
    give(&mut watch, &mut feed, out, 522, number);
    give_changed(&mut watch, &mut feed, out, at, bits);
    give(&mut watch, &mut feed, out, 522, 69 - number);
    Some(watch.report())
}

#[test]
fn counts_what_was_changed(rt: HostRuntime) -> Result<(), Fail> {
    let mut out = Cells::try_new(rt.alloc())?;
    for (number, at, bits, want) in CHANGED {
        assert!(rt;
            report_changed(*number, *at, *bits, &mut out) == Some(*want),
            "{number} {at}"
        );
    }
    Ok(())
}
