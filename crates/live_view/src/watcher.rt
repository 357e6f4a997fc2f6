ghost use Rattle.std.specs.Bool.{OnTrue, OnFalse};
ghost use Rattle.std.specs.Prelude.{◌≡◌, ◌≤◌, ℕ};
ghost use mathlib.Core.List.{IsPrefix};
ghost use Rattle.live_view.specs.Ends.{IsSameWatcher};
ghost use Rattle.live_view.specs.View.{AreAlike, end_at};
ghost use Rattle.live_view.specs.Shows.{IsRising, after};
ghost use Rattle.live_view.specs.Rule.{IsSound};

use crate::display::Display;
use crate::history::Front;
use crate::rule::{DisplayReader, Looks};
use crate::shower::Note;
use crate::view::View;
use std::marker::Model;

/// The end of a live view that looks at what was shown. It may go to another thread.
#[derive(Drop)]
pub struct Watcher {
    pub(crate) reader: Option<DisplayReader>,
    pub(crate) first: View,
    pub(crate) front: Front,
}

impl Model for Watcher {
    ghost use Rattle.std.specs.Option.{ForSome};
    ghost use Rattle.left_right.specs.Sides.{view as known_by};
    ghost use Rattle.live_view.specs.Ends.{WatcherValue};
    ghost use Rattle.live_view.specs.Rule.{IsOf};

    ghost Value = { WatcherValue };

    ghost view = { λ w.
        record { of = w.front.of; first = w.first; known = w.front.shows } };

    ghost invariant = { λ w.
        ForSome w.reader (λ r. IsOf (known_by r.place) w.first w.front.of) };
}

// Makes the copy what a display shows, if it has as many shows as are known, or more.
fn copy_shown(display: &Display, front: &mut Front, copy: &mut View) -> bool
    requires sound { IsSound display.now }
    requires one { display.now.front.of ≡ front.old.of }
    requires alike { AreAlike copy.old display.now.first }
    ensures view { OnTrue result
        (copy.new ≡ after display.now.first front.new.shows) }
    ensures rising { OnTrue result (IsRising display.now.first front.new.shows) }
    ensures begins { OnTrue result (IsPrefix front.old.shows front.new.shows) }
    ensures later { OnTrue result ((g : ℕ) →
        end_at (after display.now.first front.old.shows) g ≤ end_at copy.new g) }
    ensures alike { AreAlike copy.new display.now.first }
    ensures same { front.new.of ≡ front.old.of }
    ensures unchanged { OnFalse result ((front.new ≡ front.old) × (copy.new ≡ copy.old)) }
{
    if !display.front.covers(front) {
        return false;
    }
    *front = display.front.again();
    copy.copy(&display.view);
    true
}

impl Watcher {
    /// Learns the shows of a note: its later looks show no less.
    pub fn learn(&mut self, note: Note)
        requires { note.of ≡ self.old.of }
        ensures note { IsPrefix note.shows self.new.known }
        ensures known { IsPrefix self.old.known self.new.known }
        ensures same { IsSameWatcher self.old self.new }
    {
        self.front.learn(&note.front);
    }

    /// Makes `copy` what is shown: the first view after a list of shows that begins with all that
    /// the watcher knew of, by its looks and by the notes. It waits for nothing and takes no
    /// memory. False, and nothing is changed, where the shower has ended.
    pub fn look(&mut self, copy: &mut View) -> bool
        requires { AreAlike copy.old self.old.first }
        ensures view { OnTrue result (copy.new ≡ after self.old.first self.new.known) }
        ensures rising { OnTrue result (IsRising self.old.first self.new.known) }
        ensures begins { OnTrue result (IsPrefix self.old.known self.new.known) }
        // So no gauge's end is below that after the shows that it knew of.
        ensures later { OnTrue result ((g : ℕ) →
            end_at (after self.old.first self.old.known) g ≤ end_at copy.new g) }
        ensures alike { AreAlike copy.new self.old.first }
        ensures same { IsSameWatcher self.old self.new }
        ensures unchanged { OnFalse result ((self.new ≡ self.old) × (copy.new ≡ copy.old)) }
    {
        let Some(reader) = self.reader.take() else {
            return false;
        };
        let reading = match reader.enter_as::<Looks>() {
            Ok(reading) => reading,
            Err(reader) => {
                self.reader = Some(reader);
                return false;
            }
        };
        let looked = copy_shown(reading.get(), &mut self.front, copy);
        self.reader = Some(reading.leave());
        looked
    }
}
