use std::sync::Wait;
use std::sync::atomic::Ordering::SeqCst;
use std::sync::atomic::{AtomicBool, AtomicU64};

// The low half of a word, by which it is slept.
const HALF: u64 = 1 << 32;

/// What threads without work sleep by, and what says that they have begun, and that no more will
/// come.
#[derive(Drop)]
pub(crate) struct Bell {
    rings: AtomicU64,
    sleepers: AtomicU64,
    begun: AtomicBool,
    over: AtomicBool,
}

impl Bell {
    pub(crate) fn new() -> Bell {
        Bell {
            rings: AtomicU64::new(0),
            sleepers: AtomicU64::new(0),
            begun: AtomicBool::new(false),
            over: AtomicBool::new(false),
        }
    }

    /// Wakes who sleeps.
    pub(crate) fn ring(&self) {
        self.rings.fetch_add(1, SeqCst);
        if self.sleepers.load(SeqCst) > 0 {
            self.rings.wake_all();
        }
    }

    /// A thread is there that answers the bell.
    pub(crate) fn begin(&self) {
        self.begun.store(true, SeqCst);
    }

    pub(crate) fn has_begun(&self) -> bool {
        self.begun.load(SeqCst)
    }

    /// No more will come.
    pub(crate) fn end(&self) {
        self.over.store(true, SeqCst);
        self.ring();
    }

    pub(crate) fn is_over(&self) -> bool {
        self.over.load(SeqCst)
    }

    /// How often it was rung.
    pub(crate) fn rings(&self) -> u64 {
        self.rings.load(SeqCst)
    }

    /// Sleeps, unless it was rung since so many rings were heard.
    pub(crate) fn sleep(&self, rt: &impl Wait, heard: u64) {
        self.sleepers.fetch_add(1, SeqCst);
        self.rings.park(rt, (heard % HALF) as u32);
        self.sleepers.fetch_sub(1, SeqCst);
    }
}
