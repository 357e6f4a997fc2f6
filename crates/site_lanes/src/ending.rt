ghost use Rattle.std.specs.Prelude.{
  ◌≡◌,
  ◌≤◌,
  ◌<◌,
  ◌+◌,
  ◌↔◌,
  ℕ,
  length,
  vec_len,
  slice_index_or,
  IsTrue,
};
ghost use Rattle.std.specs.List.{All};
ghost use Rattle.outside.specs.Fault.{CountRose};
ghost use Rattle.outside.specs.Site.{AsksNothing};
ghost use Rattle.recording.specs.declared.lane_ends.end.End.TheVariants.{ReadFault};
ghost use Rattle.site_lanes.specs.Lanes.{HasSource, HasNoFaults, HasEnded, IsFaulty, HasNotFailed};
ghost use Rattle.site_lanes.specs.Ending.{FirstFault};

use count_workers::lane_loans::Lane;
use outside::{Site, Source};
use recording::lane_ends::End;
use status::Status;

/// Whether no lane goes on.
pub fn have_ended<C: Source>(lanes: &[Lane<C>]) -> bool
    ensures { IsTrue result ↔ All HasEnded lanes.now }
{
    lanes.iter().all(|lane| lane.end != End::More)
}

/// The answer of the lowest lane that has not ended soundly, where one has not.
pub fn first_fault<C: Source>(lanes: &[Lane<C>]) -> Option<Status>
    requires gauges { (g : ℕ) (d : _) → g < length lanes.now →
        (slice_index_or lanes.now g d).gauge ≡ g }
    ensures { FirstFault lanes.now result }
{
    for lane in lanes {
        match lane.end {
            End::More => {}
            End::Ended => {}
            End::Torn(bytes) => {
                return Some(Status::Torn {
                    gauge: lane.gauge,
                    bytes,
                });
            }
            End::ReadFault => return Some(Status::ReadFault),
            End::TooLong => return Some(Status::TooLong { gauge: lane.gauge }),
        }
    }
    None
}

/// Gives every source back to the site. Where its count didn't rise, no lane ended by a read fault;
/// where no call of any source failed, it doesn't rise.
pub fn give_back<T: Site>(site: &mut T, mut lanes: Vec<Lane<T::Src>>)
    requires out { T.out site.old ≡ vec_len lanes }
    requires sources { All HasSource lanes.items }
    requires faulty { All (IsFaulty T.Src.faults) lanes.items }
    ensures back { T.out site.new ≡ 0 }
    ensures asked { AsksNothing (T.names_asked site.old) (T.names_asked site.new) }
    ensures files { T.tells → T.files site.new ≡ T.files site.old }
    ensures cause { (CountRose (T.faults site.old) (T.faults site.new) → ⊥) →
        All HasNotFailed lanes.items }
    ensures steady { All (HasNoFaults T.Src.faults) lanes.items →
        T.faults site.new ≡ T.faults site.old }
    ensures later { T.faults site.old ≤ T.faults site.new }
{
    for _ in 0..lanes.len() {
        let Some(lane) = lanes.pop() else {
            return;
        };
        give_back_one(site, lane);
    }
}

fn give_back_one<T: Site>(site: &mut T, lane: Lane<T::Src>)
    requires out { 0 < T.out site.old }
    requires source { HasSource lane }
    requires faulty { IsFaulty T.Src.faults lane }
    ensures back { T.out site.new + 1 ≡ T.out site.old }
    ensures asked { AsksNothing (T.names_asked site.old) (T.names_asked site.new) }
    ensures files { T.tells → T.files site.new ≡ T.files site.old }
    ensures cause { lane.end ≡ ReadFault → CountRose (T.faults site.old) (T.faults site.new) }
    ensures steady { HasNoFaults T.Src.faults lane → T.faults site.new ≡ T.faults site.old }
    ensures later { T.faults site.old ≤ T.faults site.new }
{
    match lane.src {
        Some(src) => site.give_back(src),
        None => unreachable!(),
    }
}
