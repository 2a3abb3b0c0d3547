// What the calls of a transfer answer.
ghost use Rattle.std.specs.Prelude.{◌≡◌};
ghost use Rattle.transfers.specs.Answers.{out_of};

use crate::refusal::Refusal;
use crate::wire::SetupPacket;
use cutting::packetiser::Arm;

// How far a step came. `Waiting(true)`: the poll was ready, and the caller steps again with no interrupt between.
#[derive(Clone, Copy)]
pub enum Step {
    Waiting(bool),
    Done(usize),
}

// What a call armed, in order: at most one SETUP and two OUT packets.
#[derive(Clone, Copy)]
pub struct Armed {
    pub setup: Option<ArmedSetup>,
    pub first: Option<ArmedOut>,
    pub second: Option<ArmedOut>,
}

#[derive(Clone, Copy)]
pub struct ArmedSetup {
    pub address: u8,
    pub setup: SetupPacket,
}

// The packet's bytes stand in its slot of packet memory.
#[derive(Clone, Copy)]
pub struct ArmedOut {
    pub address: u8,
    pub endpoint: u8,
    pub arm: Arm,
}

pub(crate) fn out_of(address: u8, endpoint: u8, arm: Option<Arm>) -> Option<ArmedOut>
    ensures { result ≡ out_of address endpoint arm }
{
    arm.map(|arm| ArmedOut {
        address,
        endpoint,
        arm,
    })
}
