//! A law of the program's runs. The function does nothing, and its contract is the law.
ghost use Rattle.sdh_retime_cli.specs.Outcome.{DriftsAreUnsteady};

/// A drift is a turn whose chunk the store refuses, since it would then hold too few or too many bytes. A drift comes
/// only where four consecutive chunks have together fewer than 9393 or more than 9399 bytes. The last of these four
/// is the refused chunk or an earlier one.
pub fn drifts_are_unsteady()
    ensures { DriftsAreUnsteady }
{}
