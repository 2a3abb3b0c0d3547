// One line of a script.
use crate::begin::Begin;
use script::command::Command;
use script::line::parse;
use session::output::Output;
use session::play::Session;
use session::player::PlayScript;
use transfers::host_controller::DataPhase;
use transfers::wire::Direction;

#[derive(Drop)]
pub struct Replay {
    session: Session,
}

impl Replay {
    #[inline(always)]
    pub(crate) fn new() -> Replay {
        Replay {
            session: Session::new(),
        }
    }
}

impl PlayScript for Replay {
    fn play(&mut self, number: usize, text: &[u8], out: &mut Output) {
        let begin = match parse(text, &mut self.session.bytes) {
            Command::ControlIn(c) => Begin::Control(DataPhase::In, c),
            Command::ControlOut(c) => Begin::Control(DataPhase::Out, c),
            Command::ControlNone(c) => Begin::Control(DataPhase::None, c),
            Command::BulkIn(b) => Begin::Bulk(Direction::In, b),
            Command::BulkOut(b) => Begin::Bulk(Direction::Out, b),
            Command::Other(call) => return self.session.run(number, call, out),
        };
        begin.play(&mut self.session, out)
    }
}
