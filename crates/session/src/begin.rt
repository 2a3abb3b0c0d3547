// What a begin is given. No `From`: the types on both sides are of other crates.
use cutting::transfer_type::TransferType;
use script::command::Setup;
use transfers::host_controller::TransferExtras;
use transfers::wire::SetupPacket;

pub fn extras_of(preamble: bool) -> TransferExtras {
    if preamble {
        TransferExtras::WithPreamble
    } else {
        TransferExtras::Normal
    }
}

pub fn packet_of(s: Setup) -> SetupPacket {
    SetupPacket {
        bmRequestType: s.kind,
        bRequest: s.request,
        wValue: s.value,
        wIndex: s.index,
        wLength: s.length,
    }
}

pub fn kind_of(variable: bool) -> TransferType {
    if variable {
        TransferType::VariableSize
    } else {
        TransferType::FixedSize
    }
}
