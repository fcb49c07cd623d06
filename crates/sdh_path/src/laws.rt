//! Laws of watches. The functions do nothing: the contract of each is its law.
ghost use Rattle.sdh_path.specs.Laws.{FeedsAreClean, ChunksAreClean, ClocksAreInStep};

/// What a port sends shows no fault to a watch that expects the port's trace.
pub fn feeds_are_clean()
    ensures { FeedsAreClean }
{}

/// A watch that expects a port's trace, and is given the port's stream chunk by chunk, reports no fault.
pub fn chunks_are_clean()
    ensures { ChunksAreClean }
{}

/// The place in the stream that a clock has reached agrees with its pointer value: from there on VC-4s begin where the
/// value says.
pub fn clocks_are_in_step()
    ensures { ClocksAreInStep }
{}
