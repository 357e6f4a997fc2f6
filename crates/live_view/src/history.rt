ghost use Rattle.std.specs.Bool.{OnTrue};
ghost use Rattle.std.specs.Prelude.{◌≡◌, [], ◌∷◌, ◌++◌, MatchBool};
ghost use mathlib.Core.List.{IsPrefix};

use crate::show::Show;
use logbook::{Gain, Offer, Plain, Play, Rule, Seen, Start, Word};
use std::marker::{Model, PhantomData};

/// The rule of a history: its word is the number of its shows.
pub struct ShowRule;

impl Rule<Show, u64> for ShowRule {
    ghost use Rattle.std.specs.Prelude.{[]};
    ghost use base.Fml.{ftrue};
    ghost use Rattle.live_view.specs.History.{IsNumbered};

    ghost holds = { λ cells log. IsNumbered cells log };

    ghost first = { [] };

    ghost hinted = { λ n log. Unit {0} };

    ghost shows = { λ log. [] };

    ghost keeps = { λ names log. ftrue };

    ghost moves = { λ ask before after answer. Unit {0} };
}

// A step gains nothing.
struct NoGain;

impl Gain<Show, u64> for NoGain {
    ghost use base.Fml.{ftrue};

    ghost after = { λ names about answer. ftrue };
}

// A step adds a show.
struct AddShow;

impl Play<Show, u64> for AddShow {
    ghost use Rattle.live_view.specs.History.{Adds};

    ghost then = { Adds };
}

impl Plain<Show, Show, u64> for AddShow {
    ghost use Rattle.std.specs.Prelude.{None};

    ghost ask = { λ show. show };

    ghost state = { λ show. None };
}

/// The shows that were made, as a history that only grows. Of them their number is kept alone.
#[derive(Drop)]
pub struct History {
    head: Word<Show, u64, ShowRule>,
}

impl Model for History {
    ghost use Rattle.std.specs.Prelude.{◌≡◌, true};
    ghost use Rattle.logbook.specs.Pages.{Book};

    ghost Value = { Book };

    ghost view = { λ h. h.head.book };

    ghost invariant = { λ h. (h.head.tracked ≡ true) × (h.head.key ≡ 0) };
}

/// A front of a history that was seen: so many of its first shows.
#[derive(Drop)]
pub struct Front {
    count: u64,
    seen: Seen<Show, u64, ShowRule>,
}

impl Model for Front {
    ghost use Rattle.std.specs.Prelude.{◌≡◌, length};
    ghost use Rattle.live_view.specs.History.{FrontValue};

    ghost Value = { FrontValue };

    ghost view = { λ f. record { of = f.seen.book; shows = f.seen.log } };

    ghost invariant = { λ f. f.count ≡ length f.seen.log };
}

/// A new history, and its front: no show was made.
pub fn open_history() -> (History, Front)
    ensures one { result.1.of ≡ result.0 }
    ensures none { result.1.shows ≡ [] }
{
    let (seen, mut first, _second) = Seen::open(Start::alone(), 0, 0);
    (
        History {
            head: Word::tracked(0, &mut first),
        },
        Front { count: 0, seen },
    )
}

impl Front {
    /// The same front once more.
    pub fn again(&self) -> Front
        ensures { result ≡ self.now }
    {
        Front {
            count: self.count,
            seen: self.seen.again(),
        }
    }

    /// Whether it has as many shows as another front of its history, or more: then it begins with
    /// that one, and else that one begins with it.
    pub fn covers(&self, other: &Front) -> bool
        requires { other.now.of ≡ self.now.of }
        ensures { MatchBool result (IsPrefix other.now.shows self.now.shows)
            (IsPrefix self.now.shows other.now.shows) }
    {
        let mut both = self.seen.again();
        both.learn(&other.seen);
        other.count <= self.count
    }

    /// It becomes the longer of the two, which begins with each.
    pub fn learn(&mut self, other: &Front)
        requires { other.now.of ≡ self.old.of }
        ensures same { self.new.of ≡ self.old.of }
        ensures this { IsPrefix self.old.shows self.new.shows }
        ensures that { IsPrefix other.now.shows self.new.shows }
    {
        if self.covers(other) {
            return;
        }
        *self = other.again();
    }

    /// Adds a show to the history behind this front, and says whether it did. It does not where the
    /// history is longer.
    pub fn add(&mut self, history: &History, show: &Show) -> bool
        requires { self.old.of ≡ history.now }
        ensures same { self.new.of ≡ self.old.of }
        ensures added { OnTrue result (self.new.shows ≡ self.old.shows ++ show.now ∷ []) }
    {
        if self.count == u64::MAX {
            return false;
        }
        let mut offer: Offer<Show, u64, ShowRule, NoGain> = self
            .seen
            .plain::<NoGain, Show, AddShow>(show);
        let mut pen = self.seen.no_pen();
        let count = self.count;
        let found = history
            .head
            .compare_exchange::<AddShow, NoGain>(
                count,
                count + 1,
                &mut self.seen,
                &mut offer,
                &mut pen,
            );
        self.count = if found == count { count + 1 } else { found };
        found == count
    }
}
