//! Laws of every run of an elastic store. Each function does nothing: its contract is the law.
ghost use Rattle.sdh_elastic.specs.Laws.{GivenIsAFront, SteadyRunsLast, WordsTellActions};

/// The bytes given so far are the first ones of all bytes taken in, in their order, and the rest is held.
pub fn given_is_a_front()
    ensures { GivenIsAFront }
{}

/// No turn of a steady run is a drift. A run is steady if each four turns in a row take in 9393 to 9399 bytes together,
/// about four frames.
pub fn steady_runs_last()
    ensures { SteadyRunsLast }
{}

/// An interpreter that has read the pointer words of all turns answers each word with what its turn did.
pub fn words_tell_actions()
    ensures { WordsTellActions }
{}
