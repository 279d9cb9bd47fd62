//! How a tightener rests.
use sc_outside::Gate;
use std::sync::Wait;
use std::thread::Parker;
use std::time::Duration;

/// For so many milliseconds a tightener rests that has heard nothing.
const REST: u64 = 2;

/// A gate at which a tightener that has heard nothing rests a little, so that a server without loads leaves its processors to
/// others.
#[derive(Drop)]
pub(crate) struct IdleGate<'r, R> {
    rt: &'r R,
    parker: Parker,
}

impl<'r, R: Wait> IdleGate<'r, R> {
    /// The gate of a tightener that waits by this.
    pub fn new(rt: &'r R) -> IdleGate<'r, R> {
        IdleGate {
            rt,
            parker: Parker::new(),
        }
    }
}

impl<'r, R: Wait> Gate for IdleGate<'r, R> {
    fn point(&mut self, n: u8) {
        if n == 3 {
            let rest = Duration::from_millis(REST);
            self.parker.park_timeout(self.rt, rest);
        }
    }
}
