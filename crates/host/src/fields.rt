// What a transfer comes with: begin's fields, in begin's order, and its buffer's length alone.
ghost use Rattle.std.specs.Prelude.{◌≡◌};
ghost use Rattle.host.specs.Fields.{no_fields, length_of, requested_of, bulk_refused, fields_refused};

use cutting::transfer_type::TransferType;
use transfers::begin::fields_refusal;
use transfers::host_controller::{DataPhase, TransferExtras};
use transfers::refusal::Refusal;
use transfers::state::endpoint_good;
use transfers::wire::SetupPacket;

#[derive(Clone, Copy)]
pub struct ControlFields {
    pub address: u8,
    pub extras: TransferExtras,
    pub size: u8,
    pub setup: SetupPacket,
    pub phase: DataPhase,
    pub length: usize,
}

#[derive(Clone, Copy)]
pub struct BulkFields {
    pub address: u8,
    pub endpoint: u8,
    pub size: u16,
    pub kind: TransferType,
    pub toggle: bool,
    pub length: usize,
}

// One kind for each start.
#[derive(Clone, Copy)]
pub enum Fields {
    Control(ControlFields),
    BulkIn(BulkFields),
    BulkOut(BulkFields),
}

// A caller that never came: an address, a size and a length of 0.
pub(crate) fn no_fields() -> Fields
    ensures { result ≡ no_fields }
{
    Fields::Control(ControlFields {
        address: 0,
        extras: TransferExtras::Normal,
        size: 0,
        setup: SetupPacket {
            bmRequestType: 0,
            bRequest: 0,
            wValue: 0,
            wIndex: 0,
            wLength: 0,
        },
        phase: DataPhase::In,
        length: 0,
    })
}

impl BulkFields {
    fn refused(self) -> Result<(), Refusal>
        ensures { result ≡ bulk_refused self }
    {
        fields_refusal(
            self.address,
            endpoint_good(self.endpoint),
            self.size,
            self.length <= 0xFFFF,
        )
    }
}

impl Fields {
    // Its buffer's length.
    pub(crate) fn length(self) -> usize
        ensures { result ≡ length_of self }
    {
        match self {
            Fields::Control(x) => x.length,
            Fields::BulkIn(x) | Fields::BulkOut(x) => x.length,
        }
    }

    // What the transfer is charged: wLength, or the bulk buffer's length.
    pub(crate) fn requested(self) -> usize
        ensures { result ≡ requested_of self }
    {
        match self {
            Fields::Control(x) => x.setup.wLength as usize,
            Fields::BulkIn(x) | Fields::BulkOut(x) => x.length,
        }
    }

    // Whether a coming refuses these fields, as begin does: 12, 11, 13, 14. A control has no 11 and 14.
    pub(crate) fn refused(self) -> Result<(), Refusal>
        ensures { result ≡ fields_refused self }
    {
        match self {
            Fields::Control(x) => fields_refusal(x.address, true, x.size as u16, true),
            Fields::BulkIn(x) | Fields::BulkOut(x) => x.refused(),
        }
    }
}
