//! Laws of customers' streams. Each function does nothing: its contract is the law.
ghost use Rattle.sdh_payload.specs.Laws.{BeginsAtTheOffset, ChunksAreTheStream, ClocksGoByHistory, RoundsFollowEachOther};
ghost use Rattle.sdh_payload.specs.Laws.{WhatIsLaidIsTaken};

/// Chunks follow each other without a gap: together they are the stream.
pub fn chunks_are_the_stream()
    ensures { ChunksAreTheStream }
{}

/// What is laid out in an AU-4 is what a port takes from it at the same justification.
pub fn what_is_laid_is_taken()
    ensures { WhatIsLaidIsTaken }
{}

/// Where a port's clock never slips, a VC-4 begins in each chunk, with J1, at the payload index that the port's offset
/// gives.
pub fn begins_at_the_offset()
    ensures { BeginsAtTheOffset }
{}

/// Every clock goes by its history: the list of its slips and its rounds decides the pending slips, the forms of the
/// last chunk and of the next, the byte of the stream with which the next begins, and the pointer value.
pub fn clocks_go_by_history()
    ensures { ClocksGoByHistory }
{}

/// In each round a port sends the bytes of its stream from the first byte of this round up to, but not including, the
/// first byte of the next round. The port's history says which bytes these are.
pub fn rounds_follow_each_other()
    ensures { RoundsFollowEachOther }
{}
