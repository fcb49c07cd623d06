//! A law of what is counted as whose. The function does nothing: its contract is the law.
ghost use Rattle.sdh_outage_cli.specs.Own.{OwnBytesAreOwn};

/// In a ring of at most 16 nodes no bytes that a port's own customer sent exactly one transit before are counted as
/// strange or foreign, if at most 3,915 slips each way were ordered at the customer's port.
pub fn own_bytes_are_own()
    ensures { OwnBytesAreOwn }
{}
