ghost use Rattle.std.specs.Prelude.{◌≡◌, ◌≢◌, ◌<◌, ◌≤◌, ℤ, List, [], ◌∷◌, Some, Err, IfOk, IfErr, OnOk, length, take, slice_index, vec_len, vec_capacity};
ghost use Rattle.outside.specs.Fault.{CountRose};
ghost use Rattle.outside.specs.Site.{Asks};
ghost use Rattle.recording.specs.Samples.{samples as samples_of};
ghost use Rattle.calibration.specs.declared.limits.TheConstants.{MAX_SAMPLES};
ghost use Rattle.recount.specs.Counted.{IsRecount};
ghost use Rattle.segment_store.specs.Held.{ends_of};
ghost use Rattle.site_config.specs.Valid.{IsConfig, file_of};
ghost use Rattle.site_config.specs.recorded.Recorded.{body_in, recordings};
ghost use Rattle.site_config.specs.recorded.Asked.{file_names};
ghost use Rattle.site_lanes.specs.Answers.{GaugeAnswers, OpenAnswers};
ghost use Rattle.site_lanes.specs.Asked.{IsOfGauge, OpeningAsks};
ghost use Rattle.site_lanes.specs.Opening.{fault_of};
ghost use Rattle.status.specs.declared.status.Status.TheVariants.{ReadFault};
ghost use Rattle.audit_command.specs.Recounted.{
  AreRecounts,
  IsOfFirst,
  IsRecounting,
  SourceAnswers,
  recounted_status as recounted_status_of,
};

use calibration::{Gain, Grid};
use outside::{Site, Source};
use recording::Head;
use recount::{Recount, RecountFault, count_again};
use segment_store::Store;
use site_config::Config;
use site_lanes::{open_recording, opened_status};
use status::{RecordingFault, Status};
use std::alloc::Global;

/// Counts the held samples of all recordings again, in order of gauge. Where it refuses, the
/// recounts so far are left in `recounts`. Every source is back at the site.
pub(crate) fn recount_all<T: Site>(
    alloc: Global,
    config: &Config,
    store: &Store,
    site: &mut T,
    recounts: &mut Vec<Recount>,
) -> Result<(), Status>
    requires config { IsConfig config.now }
    requires setup { store.now.head.setup ≡ config.now.setup }
    requires held { length store.now.held ≡ length config.now.gauges }
    requires heads { length store.now.head.heads ≡ length config.now.gauges }
    requires home { T.out site.old ≡ 0 }
    requires none { vec_len recounts.old ≡ 0 }
    requires room { length config.now.gauges ≤ vec_capacity recounts.old }
    ensures all { OnOk result (vec_len recounts.new ≡ length config.now.gauges) }
    ensures counted { AreRecounts config.now T.tells
        (recordings config.now (T.files site.old)).samples
        (slice_index (ends_of store.now.held)) recounts.new.items }
    ensures answer { T.tells → OpenAnswers config.now store.now.head.heads
        (slice_index (ends_of store.now.held)) (T.files site.old) result }
    ensures kind { IfErr result IsRecounting }
    ensures asked { OpeningAsks result (T.names_asked site.old) (T.names_asked site.new)
        (file_names config.now) }
    ensures back { T.out site.new ≡ 0 }
    ensures files { T.tells → T.files site.new ≡ T.files site.old }
    ensures cause { result ≡ Err ReadFault → CountRose (T.faults site.old) (T.faults site.new) }
    ensures steady { result ≢ Err ReadFault → T.faults site.new ≡ T.faults site.old }
    ensures later { T.faults site.old ≤ T.faults site.new }
{
    for gauge in 0..config.gauges.as_slice().len() {
        match recount_gauge(alloc, config, store, gauge as u16, site) {
            Ok(recount) => recounts.push_reserved(recount),
            Err(status) => return Err(status),
        }
    }
    Ok(())
}

// Counts the held samples of the recording of a gauge again.
fn recount_gauge<T: Site>(
    alloc: Global,
    config: &Config,
    store: &Store,
    gauge: u16,
    site: &mut T,
) -> Result<Recount, Status>
    requires config { IsConfig config.now }
    requires known { gauge < length config.now.gauges }
    requires held { length store.now.held ≡ length config.now.gauges }
    requires heads { length store.now.head.heads ≡ length config.now.gauges }
    requires home { T.out site.old ≡ 0 }
    ensures counted { IfOk result (IsOfFirst config.now T.tells
        (recordings config.now (T.files site.old)).samples
        (slice_index (ends_of store.now.held)) gauge) }
    ensures answer { T.tells → GaugeAnswers config.now store.now.head.heads
        (slice_index (ends_of store.now.held)) (T.files site.old) gauge result }
    ensures kind { IfErr result IsRecounting }
    ensures own { IfErr result (IsOfGauge gauge) }
    ensures asked { Asks (T.names_asked site.old) (T.names_asked site.new)
        (file_of config.now gauge ∷ []) }
    ensures back { T.out site.new ≡ 0 }
    ensures files { T.tells → T.files site.new ≡ T.files site.old }
    ensures cause { result ≡ Err ReadFault → CountRose (T.faults site.old) (T.faults site.new) }
    ensures steady { result ≢ Err ReadFault → T.faults site.new ≡ T.faults site.old }
    ensures later { T.faults site.old ≤ T.faults site.new }
{
    let name = config.gauges.as_slice()[gauge as usize].file.as_str();
    let mut src = match site.fetch(name) {
        Ok(src) => src,
        Err(_) => return Err(Status::ReadFault),
    };
    let answer = recount_source(
        alloc,
        &mut src,
        &store.head().heads.as_slice()[gauge as usize],
        &config.setup.gains.as_slice()[gauge as usize],
        &config.setup.grid,
        gauge,
        store.held(gauge).name().to,
    );
    site.give_back(src);
    answer
}

// Opens a recording, and counts its first samples again.
fn recount_source<S: Source>(
    alloc: Global,
    src: &mut S,
    kept: &Head,
    gain: &Gain,
    grid: &Grid,
    gauge: u16,
    held: u64,
) -> Result<Recount, Status>
    requires few { held ≤ MAX_SAMPLES }
    ensures counted { IfOk result (λ found. (w : List ℤ) × (IsRecount grid.now gain.now found w ×
        (S.tells → w ≡ take held (samples_of (body_in (Some (S.left src.old))))))) }
    ensures answer { S.tells → SourceAnswers (fault_of kept.now held (S.left src.old)) gauge
        result }
    ensures kind { IfErr result IsRecounting }
    ensures own { IfErr result (IsOfGauge gauge) }
    ensures cause { result ≡ Err ReadFault → CountRose (S.faults src.old) (S.faults src.new) }
    ensures steady { result ≢ Err ReadFault → S.faults src.new ≡ S.faults src.old }
    ensures later { S.faults src.old ≤ S.faults src.new }
{
    match open_recording(src, kept, 0) {
        Ok(()) => match count_again(alloc, src, gain, grid, held) {
            Ok(recount) => Ok(recount),
            Err(fault) => Err(recounted_status(gauge, held, fault)),
        },
        Err(fault) => Err(opened_status(gauge, fault)),
    }
}

fn recounted_status(gauge: u16, held: u64, fault: RecountFault) -> Status
    ensures { result ≡ recounted_status_of gauge held fault }
{
    match fault {
        RecountFault::Fewer { there } => Status::Recording {
            gauge,
            fault: RecordingFault::Fewer { held, there },
        },
        RecountFault::ReadFault => Status::ReadFault,
        RecountFault::OutOfMemory => Status::OutOfMemory,
    }
}
