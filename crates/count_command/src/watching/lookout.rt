ghost use Rattle.std.specs.Prelude.{◌≡◌};
ghost use Rattle.live_view.specs.View.{AreAlike};

use crate::watching::bell::Bell;
use crate::watching::ends::{MOST_ENDS, MOST_ENDS_BESIDE, SeenEnds};
use live_view::{Shower, View, Watcher};
use std::marker::Model;
use std::sync::Wait;

/// A watcher with what it saw: a copy of the view, and the ends that are kept. Its value says of
/// which live view it is, and where the gauges ended before.
#[derive(Drop)]
pub struct Lookout {
    pub watcher: Watcher,
    pub copy: View,
    pub ends: SeenEnds,
}

impl Model for Lookout {
    ghost use Rattle.live_view.specs.View.{AreAlike};
    ghost use Rattle.count_command.specs.watching.Watching.{LookoutValue};

    ghost Value = { LookoutValue };

    ghost view = { λ l. record { of = l.watcher.of; starts = l.ends } };

    ghost invariant = { λ l. AreAlike l.copy l.watcher.first };
}

impl Lookout {
    // Looks, and keeps of each gauge at most so many different ends.
    fn look(&mut self, most: usize)
        ensures { self.new ≡ self.old }
    {
        // While the shower lives each look is true; one that isn't leaves the copy as it was.
        let _shown = self.watcher.look(&mut self.copy);
        self.ends.keep(&self.copy, most);
    }

    /// Looks behind each ring, until the puts are done.
    pub fn watch<R: Wait>(&mut self, rt: &R, bell: &Bell)
        ensures { self.new ≡ self.old }
    {
        for _ in rt.forever() {
            let rings = bell.rings();
            if bell.has_ended() {
                return;
            }
            self.look(MOST_ENDS_BESIDE);
            bell.wait(rt, rings);
        }
    }

    /// Looks at all that was shown, and ends both ends of the live view.
    pub fn end<R: Wait>(mut self, rt: &R, shower: Shower) -> SeenEnds
        requires { self.of ≡ shower.of }
        ensures { result ≡ self.starts }
    {
        self.watcher.learn(shower.note());
        self.look(MOST_ENDS);
        let Self {
            watcher,
            copy,
            ends,
        } = self;
        drop(copy);
        shower.end(rt, watcher);
        ends
    }
}
