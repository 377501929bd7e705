//! The progress of `make`, on standard error where that is a terminal.
use hollow_top::Progress;
use std::io::IsTerminal;
use std::time::Instant;

/// How many milliseconds pass at least from one line to the next.
const PAUSE: u128 = 200;

/// Shows on standard error how far `make` is, where that is a terminal: no line of a cycle before the command has
/// taken a while, and then five a second at most.
#[derive(Clone, Copy)]
pub struct Shown {
    rt: HostRuntime,
    /// When the last line was shown, or the command began; none where nothing is shown.
    last: Option<Instant>,
    /// Whether a line was shown.
    has_shown: bool,
}

impl Shown {
    /// Shows what comes from now on.
    pub fn new(rt: HostRuntime) -> Shown {
        let last = if rt.stderr().is_terminal() {
            Instant::now(&rt).ok()
        } else {
            None
        };
        Shown {
            rt,
            last,
            has_shown: false,
        }
    }

    // Whether a line is due. If it is, it counts as shown now.
    fn is_due(&mut self) -> bool {
        let Some(last) = self.last else {
            return false;
        };
        let Ok(now) = Instant::now(&self.rt) else {
            return false;
        };
        if now.duration_since(last).as_millis() < PAUSE {
            return false;
        }
        self.last = Some(now);
        self.has_shown = true;
        true
    }
}

impl Progress for Shown {
    fn cycle(&mut self, cycle: u32, cycles: u32) {
        if self.is_due() {
            let rt = self.rt;
            let _shown = eprintln!(rt; "cycle {cycle} of {cycles}");
        }
    }

    fn walk(&mut self, states: u64) {
        if self.has_shown || self.is_due() {
            let rt = self.rt;
            let _shown = eprintln!(rt; "check over {states} states");
        }
    }
}
