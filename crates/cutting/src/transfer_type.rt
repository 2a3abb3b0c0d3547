// Whether the receiver knows a transfer's size (`TransferType` of host_controller.rs).
#[derive(Clone, Copy)]
pub enum TransferType {
    FixedSize,
    VariableSize,
}
