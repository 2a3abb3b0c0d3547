// Why a call is refused, and document 01's number for it.
ghost use Rattle.std.specs.Prelude.{◌≡◌};
ghost use Rattle.transfers.specs.Refusal.{error_number, number_of};

use crate::host_controller::UsbError;

#[derive(Clone, Copy)]
pub enum Refusal {
    Usb(UsbError),
    Address,
    PacketSize,
    BufferSize,
    LentMemory,
    State,
    PipeNotOpen,
}

impl From<UsbError> for u8 {
    ghost from_gives = { λ e n. n ≡ error_number e };

    fn from(e: UsbError) -> u8 {
        match e {
            UsbError::Stall => 1,
            UsbError::Timeout => 2,
            UsbError::Overflow => 3,
            UsbError::BitStuffError => 4,
            UsbError::CrcError => 5,
            UsbError::DataSeqError => 6,
            UsbError::BufferTooSmall => 7,
            UsbError::AllPipesInUse => 8,
            UsbError::ProtocolError => 9,
            UsbError::TooManyDevices => 10,
            UsbError::NoSuchEndpoint => 11,
        }
    }
}

impl From<Refusal> for u8 {
    ghost from_gives = { λ why n. n ≡ number_of why };

    fn from(why: Refusal) -> u8 {
        match why {
            Refusal::Usb(e) => u8::from(e),
            Refusal::Address => 12,
            Refusal::PacketSize => 13,
            Refusal::BufferSize => 14,
            Refusal::LentMemory => 15,
            Refusal::State => 16,
            Refusal::PipeNotOpen => 17,
        }
    }
}
