use crate::held_samples::PutHook;
use crate::watching::bell::Bell;
use live_view::Shower;
use segment::Segment;
use std::alloc::Global;
use std::marker::{Brand, PhantomData};
use std::sync::Wait;

/// Which live view it is whose shows are made behind puts. It is said in types alone, and each call
/// of the rounds picks one.
pub trait OneView {
    ghost use Rattle.logbook.specs.Pages.{Book};

    ghost book: { Book };
}

// Any number serves here: the proof of a call that is handed a live view puts that one in its
// place.
impl OneView for Brand {
    ghost book = { record { number = 0; log_name = 0; cells_name = 0 } };
}

/// Each held segment is shown, and the watcher is woken. A show that was refused is remembered.
pub struct PutShower<'a, R: Wait, V: OneView> {
    pub rt: &'a R,
    pub alloc: Global,
    pub bell: &'a Bell,
    pub shower: Shower,
    pub refused: bool,
    pub of: PhantomData<V>,
}

impl<R: Wait, V: OneView> PutHook for PutShower<'_, R, V> {
    ghost use Rattle.count_command.specs.watching.Watching.{ShowsHeld};

    ghost follows = { λ h grid ends. ShowsHeld V.book h.shower grid ends };

    fn stored(&mut self, held: &Segment) {
        if self.shower.show(self.rt, self.alloc, held).is_err() {
            self.refused = true;
        }
        self.bell.ring();
    }

    fn end(&self) {
        self.bell.end();
    }
}
