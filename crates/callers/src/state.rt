// What a script's lines leave behind: the session, what a host holds beside its driver, the callers' shares, and the frame number that the next calls bring.
use dispatcher::Dispatcher;
use host::controller::HostController;
use host::fields::Fields;
use session::play::Session;
use transfers::driver::DeskRule;

#[derive(Clone, Copy)]
pub struct Callers {
    pub session: Session,
    pub dispatcher: Dispatcher,
    pub submissions: [Fields; 8],
    quota: [u32; 8],
    pub frame: u32,
}

impl Callers {
    #[inline(always)]
    pub(crate) fn new() -> Callers {
        let quota = [u32::MAX; 8];
        let HostController {
            driver: _,
            dispatcher,
            submissions,
        } = HostController::new(DeskRule::One, quota);
        Callers {
            session: Session::new(),
            dispatcher,
            submissions,
            quota,
            frame: 0,
        }
    }

    pub(crate) fn host(&self) -> HostController {
        HostController {
            driver: self.session.state.driver,
            dispatcher: self.dispatcher,
            submissions: self.submissions,
        }
    }

    // After a host's call.
    pub(crate) fn set_host(&mut self, host: HostController) {
        let HostController {
            driver,
            dispatcher,
            submissions,
        } = host;
        self.session.state.driver = driver;
        self.dispatcher = dispatcher;
        self.submissions = submissions;
    }

    // After a fresh start: nobody has come yet, and the frame number is 0.
    pub(crate) fn refresh(&mut self, quota: [u32; 8]) {
        self.set_host(HostController::new(self.session.state.driver.rule, quota));
        self.quota = quota;
        self.frame = 0;
    }

    pub(crate) fn quota(&self) -> [u32; 8] {
        self.quota
    }
}
