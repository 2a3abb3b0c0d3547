// What a line of a script asks for.

// SETUP as USB 2.0 table 9-2 has it.
#[derive(Clone, Copy)]
pub struct Setup {
    pub kind: u8,
    pub request: u8,
    pub value: u16,
    pub index: u16,
    pub length: u16,
}

// `count` is LEN, or how many bytes BYTES has; the bytes stand at the start of those lent.
#[derive(Clone, Copy)]
pub struct Control {
    pub address: u8,
    pub preamble: bool,
    pub size: u8,
    pub setup: Setup,
    pub count: usize,
}

#[derive(Clone, Copy)]
pub struct Bulk {
    pub address: u8,
    pub endpoint: u8,
    pub size: u16,
    pub variable: bool,
    pub toggle: bool,
    pub count: usize,
}

// The lengths of packet memory and log.
#[derive(Clone, Copy)]
pub struct Lent {
    pub memory: usize,
    pub words: usize,
}

#[derive(Clone, Copy)]
pub struct Stored {
    pub offset: usize,
    pub count: usize,
}

#[derive(Clone, Copy)]
pub struct Stepping {
    pub status: u32,
    pub intr: u32,
    pub buffers: u32,
}

#[derive(Clone, Copy)]
pub struct Opening {
    pub address: u8,
    pub preamble: bool,
    pub endpoint: u8,
    pub size: u16,
    pub interval: u8,
}

#[derive(Clone, Copy)]
pub struct Polling {
    pub pipe: u8,
    pub buffer: u32,
    pub target: u32,
}

#[derive(Clone, Copy)]
pub struct Interrupt {
    pub ints: u32,
    pub status: u32,
}

#[derive(Clone, Copy)]
pub enum Rule {
    One,
    Two,
}

// A line that begins no transfer. `Skipped` is an empty line or a comment, `Wrong` a line that can't be read: calls too, since `parse`'s definition `line_of` (docs/CONTRACTS.md) answers them so.
#[derive(Clone, Copy)]
pub enum Call {
    Skipped,
    Wrong,
    Fresh,
    Rule(Rule),
    Lend(Lent),
    Memory(Stored),
    Buffer(usize),
    StepIn(Stepping),
    StepOut(Stepping),
    Cancel,
    Open(Opening),
    Close(u8),
    Poll(Polling),
    Irq(Interrupt),
    Detect(u32),
    Record,
}

#[derive(Clone, Copy)]
pub enum Command {
    ControlIn(Control),
    ControlOut(Control),
    ControlNone(Control),
    BulkIn(Bulk),
    BulkOut(Bulk),
    Other(Call),
}
