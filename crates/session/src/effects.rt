// What a begin or a step wrote, armed, and changed in packet memory.
use crate::armed::print_armed;
use crate::log::Log;
use crate::output::Output;
use crate::runs::print_runs;
use transfers::answers::Armed;

pub(crate) fn print_effects(
    out: &mut Output,
    log: &Log,
    writes: usize,
    armed: Armed,
    old: &[u8; 4096],
    pm: &[u8; 4096],
) {
    log.print(out, writes);
    print_armed(out, armed, pm);
    print_runs(out, "pm", old, pm)
}
