/// What each call passes before it is made, while its worker has no turn. It may hold a worker, as tests do.
pub trait Gate {
    /// The worker of this number comes to its call of that number, counted from 1. Worker 0 is the one that looks after the value,
    /// and each of its looks counts, whatever it finds.
    fn pass(&self, worker: u32, call: u64);
}

/// A gate that holds nobody.
#[derive(Clone, Copy)]
pub struct OpenGate;

impl Gate for OpenGate {
    fn pass(&self, _worker: u32, _call: u64) {}
}
