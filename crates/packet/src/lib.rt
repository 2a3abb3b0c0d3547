// Packets as they stand on the wire (USB 2.0 sections 8.3 and 8.4): written and read.
#![tactic(auto)]

pub mod crc;
pub mod packet;
pub mod reader;
pub mod refusal;
pub mod writer;
