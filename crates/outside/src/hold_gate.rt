use crate::Gate;
use std::sync::atomic::{AtomicBool, AtomicU64, Ordering};
use std::thread;

/// A gate that shows by a test that two workers run beside each other. It holds the first pass of
/// worker 0 and the first of worker 1, each until the other worker has begun a pass, for at most
/// so many turns.
#[derive(Drop)]
pub struct HoldGate {
    limit: u64,
    passes: AtomicU64,
    first_has_begun: AtomicBool,
    second_has_begun: AtomicBool,
    gave_up: AtomicBool,
}

impl HoldGate {
    /// A gate that holds a worker for at most `limit` turns.
    pub fn new(limit: u64) -> HoldGate {
        HoldGate {
            limit,
            passes: AtomicU64::new(0),
            first_has_begun: AtomicBool::new(false),
            second_has_begun: AtomicBool::new(false),
            gave_up: AtomicBool::new(false),
        }
    }

    /// How many passes were begun.
    pub fn passes(&self) -> u64 {
        self.passes.load(Ordering::SeqCst)
    }

    /// Whether a worker was held for as many turns as the limit says.
    pub fn gave_up(&self) -> bool {
        self.gave_up.load(Ordering::SeqCst)
    }

    // Waits for the other worker, in the first pass of this one.
    fn hold(&self, own: &AtomicBool, other: &AtomicBool) {
        if own.swap(true, Ordering::SeqCst) {
            return;
        }
        for _ in 0..self.limit {
            if other.load(Ordering::SeqCst) {
                return;
            }
            thread::yield_now();
        }
        self.gave_up.store(true, Ordering::SeqCst);
    }
}

impl Gate for HoldGate {
    fn pass(&self, worker: u8, gauge: u16, block: u64) {
        let _ = (gauge, block);
        self.passes.fetch_add(1, Ordering::SeqCst);
        match worker {
            0 => self.hold(&self.first_has_begun, &self.second_has_begun),
            1 => self.hold(&self.second_has_begun, &self.first_has_begun),
            _ => {}
        }
    }
}
