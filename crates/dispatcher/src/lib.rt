// Whose turn it is on the control pipe: eight callers, each with at most one transfer waiting, and with so many bytes a frame.
// Nothing here knows what a transfer is: whether one is under way is said with each call, `idle` if none is, and how many bytes it asks for with its coming.
// Steps and cancels don't touch a dispatcher. The turn that passes when a transfer ends is handed out by the next call here, as of that end.
#![tactic(auto)]

ghost use Rattle.std.specs.Prelude.{◌≡◌, cond, ◌+◌, leb};
ghost use Rattle.dispatcher.specs.Dispatcher.{caller_at, with_caller, pending_at, quota_at, has_room, fits, after, next_turn, settled, current, whose, fresh, in_frame, submits, observes, starts};

// What is kept of a caller: whether a transfer of it waits, what that transfer will be charged, its share, in bytes a frame, and its spent count.
#[derive(Clone, Copy)]
pub struct Caller {
    pub pending: bool,
    pub requested: usize,
    pub quota: u32,
    pub used: u32,
}

// `turn` is the caller whose turn it is, 8 if nobody's; `last` the last that started; `frame` the frame number last seen.
#[derive(Clone, Copy)]
pub struct Dispatcher {
    pub callers: [Caller; 8],
    pub turn: u8,
    pub last: u8,
    pub frame: u32,
}

// Every number above 7 is nobody's turn too. It stays a number: as an `Option<u8>` nobody's would be `None` and every `Some` above 7 as well, as `edges` forges 9 and 255.
const NOBODY: u8 = 8;

// A caller that has no share and doesn't wait.
const NO_CALLER: Caller = Caller {
    pending: false,
    requested: 0,
    quota: 0,
    used: 0,
};

// "the next higher number .., going round after 7"
fn after(i: u8) -> u8
    ensures { result ≡ after i }
{
    if i >= 7 { 0 } else { i + 1 }
}

impl Caller {
    // n more bytes are within the share.
    fn has_room(self, n: usize) -> bool
        ensures { result ≡ leb (self.used + n) self.quota }
    {
        self.used <= self.quota && n <= (self.quota - self.used) as usize
    }

    // The spent count with n bytes more, as far as the share reaches.
    fn charged(self, n: usize) -> u32
        ensures { result ≡ cond (leb (self.used + n) self.quota) (self.used + n) self.used }
    {
        if self.has_room(n) {
            self.used + n as u32
        } else {
            self.used
        }
    }
}

impl Dispatcher {
    // Nobody waits.
    pub fn new(quota: [u32; 8]) -> Dispatcher
        ensures { result ≡ fresh quota }
    {
        Dispatcher {
            callers: quota.map(|quota| Caller { quota, ..NO_CALLER }),
            turn: NOBODY,
            last: 7,
            frame: 0,
        }
    }

    // Of a number above 7 nothing is kept.
    fn caller(&self, c: u8) -> Caller
        ensures { result ≡ caller_at self.now c }
    {
        self.callers.get(c as usize).copied().unwrap_or(NO_CALLER)
    }

    fn with_caller(&mut self, c: u8, caller: Caller)
        ensures { self.new ≡ with_caller self.old c caller }
    {
        let i = c as usize;
        if i < self.callers.len() {
            self.callers[i] = caller;
        }
    }

    // Whether a transfer of c waits; of nobody above 7.
    pub fn pending_at(self, c: u8) -> bool
        ensures { result ≡ pending_at self c }
    {
        self.caller(c).pending
    }

    // The share of c; 0 above 7.
    pub fn quota_at(self, c: u8) -> u32
        ensures { result ≡ quota_at self c }
    {
        self.caller(c).quota
    }

    // Whether the remainder of c is large enough for n bytes.
    pub fn has_room(self, c: u8, n: usize) -> bool
        ensures { result ≡ has_room self c n }
    {
        self.caller(c).has_room(n)
    }

    // Whether c may have the turn: it waits, and its remainder is large enough.
    fn fits(&self, c: u8) -> bool
        ensures { result ≡ fits self.now c }
    {
        let caller = self.caller(c);
        caller.pending && caller.has_room(caller.requested)
    }

    // The next after the last that started, itself at the end, that fits. It goes round by `after`, from any last above 7 too; nothing is indexed.
    fn next_turn(&self) -> u8
        ensures { result ≡ next_turn self.now }
    {
        let mut i = self.last;
        for _ in 0..8usize {
            i = after(i);
            if self.fits(i) {
                return i;
            }
        }
        NOBODY
    }

    // With none under way and nobody's turn, the next that fits has it.
    fn settled(&mut self, idle: bool)
        ensures { self.new ≡ settled idle self.old }
    {
        if idle && self.turn >= NOBODY {
            self.turn = self.next_turn();
        }
    }

    // A frame number other than the last seen sets every spent count to 0; before that the turn passes if the transfer ended meanwhile.
    fn in_frame(&mut self, idle: bool, frame: u32)
        ensures { self.new ≡ in_frame (current idle self.old) frame }
    {
        self.settled(idle);
        if frame != self.frame {
            for caller in &mut self.callers {
                caller.used = 0;
            }
        }
        self.frame = frame;
    }

    // Whose turn it is, 8 if nobody's.
    pub fn whose(self, idle: bool) -> u8
        ensures { result ≡ whose idle self }
    {
        if idle { self.turn } else { NOBODY }
    }

    // A transfer of c comes, of n bytes.
    pub fn submits(self, idle: bool, c: u8, n: usize, frame: u32) -> Dispatcher
        ensures { result ≡ submits idle (current idle self) c n frame }
    {
        let mut next = self;
        next.in_frame(idle, frame);
        let mut caller = next.caller(c);
        caller.pending = true;
        caller.requested = n;
        next.with_caller(c, caller);
        next.settled(idle);
        next
    }

    // A look; a start begins with one.
    pub fn observes(self, idle: bool, frame: u32) -> Dispatcher
        ensures { result ≡ observes idle (current idle self) frame }
    {
        let mut next = self;
        next.in_frame(idle, frame);
        next.settled(idle);
        next
    }

    // The transfer of c starts, and is charged n bytes.
    pub fn starts(mut self, c: u8, n: usize) -> Dispatcher
        ensures { result ≡ starts self c n }
    {
        let mut caller = self.caller(c);
        caller.pending = false;
        caller.used = caller.charged(n);
        self.with_caller(c, caller);
        self.turn = NOBODY;
        self.last = c;
        self
    }
}
