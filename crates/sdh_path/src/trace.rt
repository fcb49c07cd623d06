//! Path traces: 64 bytes over and over.
ghost use Rattle.std.specs.Prelude.{◌≡◌, ◌%◌, ◌<◌, ◌≤◌, length, bytes_eq};
ghost use Rattle.sdh_payload.specs.Stream.{padded};
ghost use Rattle.sdh_path.specs.PathReports.{rotated, is_rotation};

use sdh_payload::trace_byte;

/// The number of bytes of a trace.
pub(crate) const TRACE_LEN: usize = 64;

/// Returns a trace padded with spaces to 64 bytes.
pub(crate) fn padded(trace: &[u8]) -> [u8; TRACE_LEN]
    requires { length trace.now ≤ 64 }
    ensures { result ≡ padded trace.now }
{
    let mut all = [0; TRACE_LEN];
    for i in 0..TRACE_LEN {
        all[i] = trace_byte(trace, i as u64);
    }
    all
}

/// Returns a trace rotated so that it begins with its byte `from`, modulo 64.
pub(crate) fn begun_at(from: usize, trace: &[u8; TRACE_LEN]) -> [u8; TRACE_LEN]
    requires { from ≤ 1000000 }
    ensures { result ≡ rotated (from % 64) trace.now }
{
    let mut all = [0; TRACE_LEN];
    for i in 0..TRACE_LEN {
        all[i] = trace[(from + i) % TRACE_LEN];
    }
    all
}

// Returns whether the bytes are the trace rotated so that it begins with its byte `from`.
fn is_begun_at(from: usize, bytes: &[u8; TRACE_LEN], trace: &[u8; TRACE_LEN]) -> bool
    requires { from < 64 }
    ensures { result ≡ bytes_eq bytes.now (rotated from trace.now) }
{
    *bytes == begun_at(from, trace)
}

/// Returns whether the bytes are a rotation of the trace.
#[tactic(auto, unfolding(crate::specs::PathReports::is_rotation))]
pub(crate) fn is_rotation(bytes: &[u8; TRACE_LEN], trace: &[u8; TRACE_LEN]) -> bool
    ensures { result ≡ is_rotation bytes.now trace.now }
{
    (0..TRACE_LEN).any(|from| is_begun_at(from, bytes, trace))
}
