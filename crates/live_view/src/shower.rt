ghost use Rattle.std.specs.Prelude.{◌≡◌, [], ◌∷◌, ◌++◌, OnOk, OnErr};
ghost use Rattle.live_view.specs.Shows.{replaced, show_of};
ghost use Rattle.live_view.specs.Ends.{MayShow};

use crate::OutOfMemory;
use crate::display::Addition;
use crate::history::{Front, History};
use crate::rule::{DisplayWriter, publish_next};
use crate::show::make_show;
use crate::watcher::Watcher;
use segment::Segment;
use std::alloc::Global;
use std::marker::Model;
use std::sync::Wait;

/// The end of a live view that makes shows. It is not `Drop`: end it by `end`.
pub struct Shower {
    pub(crate) writer: DisplayWriter,
    pub(crate) history: History,
}

impl Model for Shower {
    ghost use Rattle.std.specs.Prelude.{◌≡◌, [], drop};
    ghost use Rattle.live_view.specs.Ends.{ShowerValue};

    ghost Value = { ShowerValue };

    ghost view = { λ s. record {
      of = s.history;
      first = s.writer.desk.shown.value.first;
      shows = s.writer.desk.shown.value.front.shows;
      view = s.writer.desk.shown.value.view;
    } };

    ghost invariant = { λ s. (drop s.writer.behind s.writer.log.items ≡ [])
        × (s.writer.desk.shown.value.front.of ≡ s.history) };
}

/// The shows that were made up to some point, for the watcher to learn. It has their number, and
/// no copy of them.
#[derive(Drop)]
pub struct Note {
    pub(crate) front: Front,
}

impl Model for Note {
    ghost use Rattle.live_view.specs.History.{FrontValue};

    ghost Value = { FrontValue };

    ghost view = { λ n. n.front };
}

impl Shower {
    /// Shows a segment: it is appended to the shows, and each look from then on sees it. It may
    /// wait for a look. After a refusal shows and view are as before.
    pub fn show<R: Wait>(
        &mut self,
        rt: &R,
        alloc: Global,
        segment: &Segment,
    ) -> Result<(), OutOfMemory>
        requires { MayShow self.old.view segment.now }
        ensures shows { OnOk result
            (self.new.shows ≡ self.old.shows ++ show_of segment.now ∷ []) }
        ensures view { OnOk result
            (self.new.view ≡ replaced self.old.view (show_of segment.now)) }
        ensures unchanged { OnErr result (self.new ≡ self.old) }
        ensures same { (self.new.of ≡ self.old.of) × (self.new.first ≡ self.old.first) }
    {
        let show = make_show(alloc, segment)?;
        let mut front = self.writer.published().front.again();
        if !front.add(&self.history, &show) {
            return Err(OutOfMemory);
        }
        publish_next(rt, &mut self.writer, Addition { show, front })
    }

    /// The shows made so far.
    pub fn note(&self) -> Note
        ensures { (result.of ≡ self.now.of) × (result.shows ≡ self.now.shows) }
    {
        Note {
            front: self.writer.published().front.again(),
        }
    }

    /// Ends both ends of a live view. It takes no memory.
    pub fn end<R: Wait>(self, rt: &R, watcher: Watcher)
        requires { watcher.of ≡ self.of }
    {
        drop(watcher);
        let Self {
            writer,
            history: _history,
        } = self;
        drop(writer.take(rt));
    }
}
