use std::sync::Wait;
use std::sync::atomic::{AtomicBool, AtomicU64, Ordering};

/// What wakes a watcher. It is rung behind each show, and when the puts are done.
#[derive(Drop)]
pub struct Bell {
    rings: AtomicU64,
    done: AtomicBool,
}

impl Bell {
    /// A bell that was not rung.
    pub fn new() -> Bell {
        Bell {
            rings: AtomicU64::new(0),
            done: AtomicBool::new(false),
        }
    }

    /// Wakes the watcher.
    pub fn ring(&self) {
        let _before = self.rings.fetch_add(1, Ordering::SeqCst);
        self.rings.wake_one();
    }

    /// Says that the puts are done, and wakes the watcher.
    pub fn end(&self) {
        self.done.store(true, Ordering::SeqCst);
        self.ring();
    }

    /// How often it was rung.
    pub fn rings(&self) -> u64 {
        self.rings.load(Ordering::SeqCst)
    }

    /// Whether the puts are done.
    pub fn has_ended(&self) -> bool {
        self.done.load(Ordering::SeqCst)
    }

    /// Sleeps until it is rung once more than so often. It may also return for no reason.
    pub fn wait<R: Wait>(&self, rt: &R, rings: u64) {
        // A sleep compares the lower half of the count. So 2^32 rings, or a multiple, that came
        // since the count was read would not end it, and the next ring would.
        self.rings.park(rt, (rings % (1 << 32)) as u32);
    }
}
