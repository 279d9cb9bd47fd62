use std::thread;

/// Places at which whoever runs a connection or a worker may look at it or hold it up. What is done there changes nothing of
/// what the connection or the worker does.
pub trait Gate {
    /// Place 1 is after a snapshot and before the answer, place 2 between the look at a part and the install of its bounds,
    /// place 3 a turn of a worker that had nothing to do.
    fn point(&mut self, n: u8);
}

/// A gate that does nothing.
#[derive(Clone, Copy, Debug, Default)]
pub struct OpenGate;

impl Gate for OpenGate {
    fn point(&mut self, _: u8) {}
}

/// A gate that lets other threads run first, so that a worker with nothing to do leaves the processor to those that have.
#[derive(Clone, Copy, Debug, Default)]
pub struct RestGate;

impl Gate for RestGate {
    fn point(&mut self, _: u8) {
        thread::yield_now();
    }
}
