// Packet cutting: which packets a transfer's bytes are sent and received in, one packet at a time.
// What it means stands in specs/Cut.antt; the counters by which the driver goes are proved to give exactly that.
#![tactic(auto)]

pub mod depacketiser;
pub mod packetiser;
pub mod transfer_type;
