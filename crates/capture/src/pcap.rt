// The heads of a pcap file, link type 288 (LINKTYPE_USB_2_0).
ghost use Rattle.std.specs.Prelude.{◌≡◌, ◌+◌, ◌≤◌, length};
ghost use Rattle.std.proofs.lemmas.List.Edits.{sets};
ghost use Rattle.capture.specs.Pcap.{low32, frame_head};

// Mark, version 2.4, no time zone, no accuracy, at most 65,535 bytes a packet, link type.
pub(crate) const FILE_HEAD: [u8; 24] = [
    0xd4, 0xc3, 0xb2, 0xa1, 0x02, 0x00, 0x04, 0x00, 0x00, 0x00, 0x00, 0x00, 0x00, 0x00, 0x00, 0x00,
    0xff, 0xff, 0x00, 0x00, 0x20, 0x01, 0x00, 0x00,
];

// 32 bits, low byte first.
#[tactic(auto, using(pool::proofs::Stores::put_sets))]
fn put_four(head: &mut [u8], at: usize, n: usize)
    requires { at + 4 ≤ length head.old }
    ensures { head.new ≡ sets head.old at (low32 n) }
{
    head[at..at + 4].copy_from_slice(&n.to_le_bytes()[..4]);
}

// The head of packet i, of n bytes: its number stands for the time, in microseconds.
pub(crate) fn frame_head(i: usize, n: usize) -> [u8; 16]
    ensures { result ≡ frame_head i n }
{
    let mut head = [0u8; 16];
    put_four(&mut head, 0, i / 1000000);
    put_four(&mut head, 4, i % 1000000);
    put_four(&mut head, 8, n);
    put_four(&mut head, 12, n);
    head
}
