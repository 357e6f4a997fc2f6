ghost use Rattle.std.specs.Prelude.{
  ◌≡◌,
  ◌≢◌,
  ◌≤◌,
  ◌<◌,
  ◌+◌,
  length,
  vec_len,
  vec_capacity,
  slice_index,
  IfOk,
  IfErr,
  OnOk,
  OnErr,
  Err,
  [],
  ◌∷◌,
};
ghost use Rattle.std.specs.List.{All};
ghost use Rattle.outside.specs.Fault.{CountRose};
ghost use Rattle.outside.specs.Site.{Asks};
ghost use Rattle.count_workers.specs.lane_loans.Lent.{CanRound};
ghost use Rattle.segment_store.specs.Held.{ends_of};
ghost use Rattle.site_config.specs.Valid.{IsConfig, file_of};
ghost use Rattle.site_config.specs.recorded.Recorded.{recordings};
ghost use Rattle.site_config.specs.recorded.Asked.{file_names};
ghost use Rattle.site_lanes.specs.Lanes.{IsLane, AreLanes, AreHeldTo, HasSource, HasNoFaults, IsNew};
ghost use Rattle.site_lanes.specs.Answers.{IsOpening, GaugeAnswers, OpenAnswers};
ghost use Rattle.site_lanes.specs.Asked.{IsOfGauge, OpeningAsks};
ghost use Rattle.site_lanes.specs.Opening.{opened_status};
ghost use Rattle.status.specs.declared.status.Status.TheVariants.{ReadFault};
ghost use Rattle.outside.specs.declared.site.TheConstants.{MAX_SOURCES_OUT};

use crate::opening::{OpenFault, open_recording};
use count_workers::lane_loans::Lane;
use outside::Site;
use recording::lane_ends::End;
use segment_store::Store;
use site_config::Config;
use status::Status;

/// The answer for a recording of this gauge that was not opened.
pub fn opened_status(gauge: u16, fault: OpenFault) -> Status
    ensures { result ≡ opened_status gauge fault }
{
    match fault {
        OpenFault::Recording(fault) => Status::Recording { gauge, fault },
        OpenFault::ReadFault => Status::ReadFault,
    }
}

// Opens the recording of a gauge behind what is held of it. Where it refuses, its source goes back.
fn open_lane<T: Site>(
    config: &Config,
    store: &Store,
    gauge: u16,
    site: &mut T,
) -> Result<Lane<T::Src>, Status>
    requires config { IsConfig config.now }
    requires known { gauge < length config.now.gauges }
    requires held { length store.now.held ≡ length config.now.gauges }
    requires heads { length store.now.head.heads ≡ length config.now.gauges }
    requires few { T.out site.old < MAX_SOURCES_OUT }
    ensures lane { T.tells → IfOk result (IsLane T.Src.tells T.Src.left
        (recordings config.now (T.files site.old)) gauge) }
    ensures held { IfOk result (λ l. CanRound gauge l
        × (slice_index (ends_of store.now.held) gauge ≡ l.at)) }
    ensures source { IfOk result HasSource }
    ensures new { IfOk result IsNew }
    ensures source_tells { T.tells → OnOk result T.Src.tells }
    ensures answer { T.tells → GaugeAnswers config.now store.now.head.heads
        (slice_index (ends_of store.now.held)) (T.files site.old) gauge result }
    ensures opening { IfErr result IsOpening }
    ensures own { IfErr result (IsOfGauge gauge) }
    ensures one_more { OnOk result (T.out site.new ≡ T.out site.old + 1) }
    ensures no_more { OnErr result (T.out site.new ≡ T.out site.old) }
    ensures asked { Asks (T.names_asked site.old) (T.names_asked site.new)
        (file_of config.now gauge ∷ []) }
    ensures files { T.tells → T.files site.new ≡ T.files site.old }
    ensures cause { result ≡ Err ReadFault → CountRose (T.faults site.old) (T.faults site.new) }
    ensures steady { result ≢ Err ReadFault → T.faults site.new ≡ T.faults site.old }
    ensures fresh { IfOk result (HasNoFaults T.Src.faults) }
    ensures later { T.faults site.old ≤ T.faults site.new }
{
    let name = config.gauges.as_slice()[gauge as usize].file.as_str();
    let mut src = match site.fetch(name) {
        Ok(src) => src,
        Err(_) => return Err(Status::ReadFault),
    };
    let held = store.held(gauge).name().to;
    match open_recording(
        &mut src,
        &store.head().heads.as_slice()[gauge as usize],
        held,
    ) {
        Ok(()) => Ok(Lane {
            gauge,
            gain: config.setup.gains.as_slice()[gauge as usize],
            at: held,
            end: End::More,
            src: Some(src),
        }),
        Err(fault) => {
            site.give_back(src);
            Err(opened_status(gauge, fault))
        }
    }
}

/// Puts a lane for each gauge into `lanes`, behind what is held of it. Where it refuses, the lanes
/// that were opened before are left in `lanes`, so that the caller gives them back.
pub fn open_lanes<T: Site>(
    config: &Config,
    store: &Store,
    site: &mut T,
    lanes: &mut Vec<Lane<T::Src>>,
) -> Result<(), Status>
    requires config { IsConfig config.now }
    requires held { length store.now.held ≡ length config.now.gauges }
    requires heads { length store.now.head.heads ≡ length config.now.gauges }
    requires home { T.out site.old ≡ 0 }
    requires none { vec_len lanes.old ≡ 0 }
    requires room { length config.now.gauges ≤ vec_capacity lanes.old }
    ensures all { OnOk result (vec_len lanes.new ≡ length config.now.gauges) }
    ensures lanes { T.tells → AreLanes T.Src.tells T.Src.left
        (recordings config.now (T.files site.old)) lanes.new.items }
    ensures held { AreHeldTo (ends_of store.now.held) lanes.new.items }
    ensures sources { All HasSource lanes.new.items }
    ensures new { All IsNew lanes.new.items }
    ensures source_tells { T.tells → OnOk result T.Src.tells }
    ensures answer { T.tells → OpenAnswers config.now store.now.head.heads
        (slice_index (ends_of store.now.held)) (T.files site.old) result }
    ensures opening { IfErr result IsOpening }
    ensures out { T.out site.new ≡ vec_len lanes.new }
    // Where a recording is refused no later file is asked for.
    ensures asked { OpeningAsks result (T.names_asked site.old) (T.names_asked site.new)
        (file_names config.now) }
    ensures files { T.tells → T.files site.new ≡ T.files site.old }
    ensures cause { result ≡ Err ReadFault → CountRose (T.faults site.old) (T.faults site.new) }
    // A call of the site or of a source that fails ends the opening, as a read fault.
    ensures steady { result ≢ Err ReadFault → T.faults site.new ≡ T.faults site.old }
    ensures fresh { All (HasNoFaults T.Src.faults) lanes.new.items }
    ensures later { T.faults site.old ≤ T.faults site.new }
{
    for gauge in 0..config.gauges.as_slice().len() {
        match open_lane(config, store, gauge as u16, site) {
            Ok(lane) => lanes.push_reserved(lane),
            Err(status) => return Err(status),
        }
    }
    Ok(())
}
