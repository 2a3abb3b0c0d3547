// One line of a script.
use crate::line::{Command, parse};
use crate::state::Callers;
use script::command::Call;
use session::output::Output;
use session::player::PlayScript;
use session::print::print_ok;

impl Callers {
    // `fresh` and `rule` bring a fresh dispatcher too, of these shares.
    fn run(&mut self, number: usize, call: Call, quota: [u32; 8], out: &mut Output) {
        self.session.run(number, call, out);
        if matches!(call, Call::Fresh | Call::Rule(_)) {
            self.refresh(quota);
        }
    }
}

impl PlayScript for Callers {
    fn play(&mut self, number: usize, text: &[u8], out: &mut Output) {
        match parse(text, &mut self.session.bytes) {
            Command::ComeControl(caller, phase, c) => self.come_control(caller, phase, c, out),
            Command::ComeBulk(caller, direction, b) => self.come_bulk(caller, direction, b, out),
            Command::Look => self.look(out),
            Command::Start(kind, n) => self.start(kind, n, out),
            Command::Frame(n) => {
                self.frame = n;
                print_ok(out)
            }
            Command::Shares(quota) => self.run(number, Call::Fresh, quota, out),
            Command::Other(call) => self.run(number, call, self.quota(), out),
        }
    }
}
