// What a packet says, and its PID byte.
ghost use Rattle.std.specs.Prelude.{◌≡◌, ◌≤◌, ok_or};
ghost use Rattle.packet.specs.Packet.{pid_of, pid_byte, kind_of};
ghost use Rattle.packet.specs.declared.refusal.Refusal.TheVariants.{Pid};

use crate::refusal::Refusal;

// "data is 0 to 64 bytes"
pub(crate) const MAX_DATA: usize = 64;

// Tokens with an address and an endpoint.
#[derive(Clone, Copy)]
pub enum Token {
    Out,
    In,
    Setup,
}

#[derive(Clone, Copy)]
pub enum Handshake {
    Ack,
    Nak,
    Stall,
}

// What a PID byte begins. Data is DATA1 where the bool is true.
#[derive(Clone, Copy)]
pub enum Kind {
    Token(Token),
    Sof,
    Data(bool),
    Handshake(Handshake),
}

impl Kind {
    fn pid(self) -> u8
        ensures { (result ≡ pid_of self) × (result ≤ 15) }
    {
        match self {
            Kind::Token(Token::Out) => 1,
            Kind::Token(Token::In) => 9,
            Kind::Token(Token::Setup) => 13,
            Kind::Sof => 5,
            Kind::Data(false) => 3,
            Kind::Data(true) => 11,
            Kind::Handshake(Handshake::Ack) => 2,
            Kind::Handshake(Handshake::Nak) => 10,
            Kind::Handshake(Handshake::Stall) => 14,
        }
    }
}

// A PID with its check nibble.
impl From<Kind> for u8 {
    ghost from_gives = { λ kind byte. byte ≡ pid_byte (pid_of kind) };

    fn from(kind: Kind) -> u8 {
        let pid = kind.pid();
        pid + 16 * (15 - pid)
    }
}

// What a PID byte begins.
impl TryFrom<u8> for Kind {
    type Error = Refusal;

    ghost try_from_gives = { λ byte kind. kind ≡ ok_or (kind_of byte) Pid };

    #[tactic(auto, unfolding(crate::specs::Packet::kind_of))]
    fn try_from(byte: u8) -> Result<Kind, Refusal> {
        match byte {
            0xE1 => Ok(Kind::Token(Token::Out)),
            0x69 => Ok(Kind::Token(Token::In)),
            0x2D => Ok(Kind::Token(Token::Setup)),
            0xA5 => Ok(Kind::Sof),
            0xC3 => Ok(Kind::Data(false)),
            0x4B => Ok(Kind::Data(true)),
            0xD2 => Ok(Kind::Handshake(Handshake::Ack)),
            0x5A => Ok(Kind::Handshake(Handshake::Nak)),
            0x1E => Ok(Kind::Handshake(Handshake::Stall)),
            _ => Err(Refusal::Pid),
        }
    }
}
