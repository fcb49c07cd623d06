//! Laws of the scrambler. The function does nothing: its contract is the law.
ghost use Rattle.sdh_parity.specs.Laws.{ScramblingIsUndone, ScramblingLeavesClear};

/// Scrambling twice gives the bytes back, and scrambling leaves the first `clear` bytes as they are, for every list and
/// every `clear`.
pub fn scrambling_is_undone()
    ensures back { ScramblingIsUndone }
    ensures clear { ScramblingLeavesClear }
{}
