// Gates that hold calls until another worker has got on.
use std::sync::{Mutex, Wait};
use std::thread;
use std::time::{Clock, Duration};
use turn_workers::Gate;

/// How often a held worker looks before the gate gives up.
const TURNS: u32 = 100_000;

/// Between two looks, in microseconds.
const PAUSE: u64 = 100;

/// What has come to a gate so far.
#[derive(Clone, Copy)]
struct Seen {
    first: u32,
    answered: bool,
    came: bool,
    looks: u64,
    gave_up: bool,
}

const NOTHING: Seen = Seen {
    first: 0,
    answered: false,
    came: false,
    looks: 0,
    gave_up: false,
};

/// Holds the first call that comes until the first call of the other worker was answered. Worker 0 passes.
#[derive(Drop)]
pub struct HoldsTheFirst<'a, R: Wait + Clock> {
    rt: &'a R,
    seen: Mutex<Seen>,
}

impl<'a, R: Wait + Clock> HoldsTheFirst<'a, R> {
    pub fn new(rt: &'a R) -> Self {
        HoldsTheFirst {
            rt,
            seen: Mutex::new(NOTHING),
        }
    }

    /// It held a worker for too long.
    pub fn gave_up(&self) -> bool {
        self.seen.lock(self.rt).gave_up
    }
}

// Notes a call, and says whether it is held until the other worker's first call was answered.
fn is_held<R: Wait>(rt: &R, seen: &Mutex<Seen>, worker: u32, call: u64) -> bool {
    let mut seen = seen.lock(rt);
    if seen.first == 0 {
        seen.first = worker;
        return true;
    }
    if worker != seen.first && call >= 2 {
        seen.answered = true;
    }
    false
}

impl<R: Wait + Clock> Gate for HoldsTheFirst<'_, R> {
    fn pass(&self, worker: u32, call: u64) {
        if worker == 0 || !is_held(self.rt, &self.seen, worker, call) {
            return;
        }
        for _ in 0..TURNS {
            if self.seen.lock(self.rt).answered {
                return;
            }
            thread::sleep(self.rt, Duration::from_micros(PAUSE));
        }
        self.seen.lock(self.rt).gave_up = true;
    }
}

/// Holds the second call of each worker until worker 0 comes to its second look, and the other worker to its first call: so each of two
/// workers serves one of two connections.
#[derive(Drop)]
pub struct HoldsForLooks<'a, R: Wait + Clock> {
    rt: &'a R,
    seen: Mutex<Seen>,
}

impl<'a, R: Wait + Clock> HoldsForLooks<'a, R> {
    pub fn new(rt: &'a R) -> Self {
        HoldsForLooks {
            rt,
            seen: Mutex::new(NOTHING),
        }
    }

    /// It held a worker for too long.
    pub fn gave_up(&self) -> bool {
        self.seen.lock(self.rt).gave_up
    }
}

// Notes that a worker came, and whether another one had come before.
fn note_worker<R: Wait>(rt: &R, seen: &Mutex<Seen>, worker: u32) {
    let mut seen = seen.lock(rt);
    if seen.first == 0 {
        seen.first = worker;
    }
    if worker != seen.first {
        seen.came = true;
    }
}

// Worker 0 has come to its second look, and two other workers have come.
fn may_go_on<R: Wait>(rt: &R, seen: &Mutex<Seen>) -> bool {
    let seen = seen.lock(rt);
    seen.looks >= 2 && seen.came
}

impl<R: Wait + Clock> Gate for HoldsForLooks<'_, R> {
    fn pass(&self, worker: u32, call: u64) {
        if worker == 0 {
            self.seen.lock(self.rt).looks = call;
            return;
        }
        note_worker(self.rt, &self.seen, worker);
        if call != 2 {
            return;
        }
        for _ in 0..TURNS {
            if may_go_on(self.rt, &self.seen) {
                return;
            }
            thread::sleep(self.rt, Duration::from_micros(PAUSE));
        }
        self.seen.lock(self.rt).gave_up = true;
    }
}
