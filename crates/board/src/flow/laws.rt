//! The law of the flow, for all blocks, workers, recordings and lists of events; and the window of
//! a round in numbers.

ghost use Rattle.std.specs.Prelude.{◌≡◌};
ghost use Rattle.board.specs.flow.Kept.{EachEventKeeps, EachScheduleKeeps, StoredNeverFalls, AllIsStored};
ghost use Rattle.board.specs.declared.flow.TheConstants.{BLOCKS_PER_WINDOW};

/// In every order of events the names of a gauge in rings, counted and placed lists cover what is
/// read and not stored, once each, and each ring ascends. Each event keeps this from every state
/// that meets it; a run starts in one. So what is stored of a gauge is a front of its recording and
/// never falls, also where the run stops. Where nothing of a gauge is unread, in a ring or counted,
/// all of its recording is stored or one commit may store it.
pub fn flow()
    ensures event { EachEventKeeps }
    ensures schedule { EachScheduleKeeps }
    ensures stored { StoredNeverFalls }
    ensures through { AllIsStored }
{}

/// A window has 16 blocks.
pub fn window()
    ensures blocks { BLOCKS_PER_WINDOW ≡ 16 }
{}
