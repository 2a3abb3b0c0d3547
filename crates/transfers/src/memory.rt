// Packet memory and the caller's buffer: what is lent, where a slot lies, and the copies.
ghost use Rattle.std.specs.Prelude.{◌≡◌, ◌+◌, ◌<◌, ◌≤◌, length, take, drop};
ghost use Rattle.std.proofs.lemmas.List.Edits.{sets};
ghost use Rattle.transfers.specs.Memory.{log_fits, lent_fits, slot_address};

// Packet memory: what is lent is taken as this once its length is checked.
pub(crate) type PacketMemory = [u8; 4096];

pub(crate) fn log_fits(log: &[u32]) -> bool
    ensures { result ≡ log_fits log.now }
{
    192 <= log.len()
}

pub fn lent_fits(pm: &[u8], log: &[u32]) -> bool
    ensures { result ≡ lent_fits pm.now log.now }
{
    pm.len() == 4096 && log_fits(log)
}

// The address of a slot in packet memory.
pub fn slot_address(slot: bool) -> usize
    ensures { result ≡ slot_address slot }
{
    0x180 + 64 * slot as usize
}

// A packet's bytes, the first n of a part of the caller's buffer, go into a slot.
pub(crate) fn fill_slot(pm: &mut PacketMemory, slot: bool, part: &[u8], n: usize)
    requires { (n ≤ 64) × (n ≤ length part.now) }
    ensures { pm.new ≡ sets pm.old (slot_address slot) (take n part.now) }
{
    let at = slot_address(slot);
    pm[at..at + n].copy_from_slice(&part[..n]);
}

// The first n bytes of a slot go into the caller's buffer from an offset on.
pub(crate) fn take_slot(buf: &mut [u8], offset: usize, pm: &PacketMemory, slot: bool, n: usize)
    requires { (n ≤ 64) × (offset + n ≤ length buf.old) }
    ensures { buf.new ≡ sets buf.old offset (take n (drop (slot_address slot) pm.now)) }
{
    let at = slot_address(slot);
    buf[offset..offset + n].copy_from_slice(&pm[at..at + n]);
}
