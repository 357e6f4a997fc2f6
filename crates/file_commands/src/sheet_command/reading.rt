ghost use Rattle.std.specs.Prelude.{◌≡◌, ◌≢◌, ◌≤◌, ℕ, [], ◌∷◌, Err, IfOk, IfErr, OnOk, MatchResult, drop, length, map};
ghost use Rattle.outside.specs.Fault.{CountRose};
ghost use Rattle.outside.specs.Site.{Asks};
ghost use Rattle.recording.specs.Samples.{samples};
ghost use Rattle.site_config.specs.Valid.{IsConfig};
ghost use Rattle.site_config.specs.recorded.Asked.{file_names};
ghost use Rattle.site_config.specs.recorded.Recorded.{body_in};
ghost use Rattle.file_commands.specs.file_tasks.FileState.{Sound, body_state, file_state, state_of};
ghost use Rattle.file_commands.specs.file_tasks.Answer.{MayAnswer as MayAnswerFor, MayGive};
ghost use Rattle.file_commands.specs.declared.file_tasks.refusal.Refusal.TheVariants as refusal;
ghost use Rattle.status.specs.declared.status.Status.TheVariants.{Done, ReadFault};
ghost use Rattle.file_commands.specs.sheet_command.Sheet.{
  recordings_of,
  answer_over,
  MayAnswer,
  IsReadStatus,
  IsOfGauge,
  SheetAsks,
};
ghost use Rattle.recording.specs.declared.TheConstants.{PIECE};
ghost use Rattle.recording.specs.declared.head.TheConstants.{HEAD_LENGTH};

use crate::file_tasks::Refusal;
use calibration::MAX_SAMPLES;
use csv_recording::Samples;
use outside::{Site, Source};
use recording::{FillEnd, PIECE, fill, read_head};
use site_config::{Config, Gauge};
use status::Status;
use std::alloc::{AllocError, Global};

/// Reads all recordings whole, in order of gauge.
pub(crate) fn read_recordings<T: Site>(
    alloc: Global,
    config: &Config,
    site: &mut T,
) -> Result<Vec<Samples>, Status>
    requires config { IsConfig config.now }
    requires home { T.out site.old ≡ 0 }
    ensures samples { T.tells → IfOk result (λ recordings.
        map (λ w. w.items) recordings.items ≡ recordings_of config.now.gauges (T.files site.old)) }
    ensures many { IfOk result (λ recordings.
        length recordings.items ≡ length config.now.gauges) }
    ensures sound { T.tells → OnOk result (answer_over config.now (T.files site.old) ≡ Done) }
    ensures refused { T.tells → IfErr result
        (MayAnswer (answer_over config.now (T.files site.old))) }
    ensures kind { IfErr result IsReadStatus }
    ensures cause { result ≡ Err ReadFault → CountRose (T.faults site.old) (T.faults site.new) }
    ensures steady { result ≢ Err ReadFault → T.faults site.new ≡ T.faults site.old }
    ensures later { T.faults site.old ≤ T.faults site.new }
    // Where a recording is refused no later file is asked for.
    ensures asked { MatchResult result (λ recordings. Asks (T.names_asked site.old)
        (T.names_asked site.new) (file_names config.now))
        (λ status. SheetAsks status (T.names_asked site.old) (T.names_asked site.new)
        (file_names config.now)) }
    ensures back { T.out site.new ≡ 0 }
    ensures files { T.tells → T.files site.new ≡ T.files site.old }
{
    let gauges = config.gauges.as_slice();
    let Ok(mut recordings) = Vec::with_capacity(alloc, gauges.len()) else {
        return Err(Status::OutOfMemory);
    };
    for number in 0..gauges.len() {
        match read_recording(alloc, number as u16, &gauges[number], site) {
            Ok(samples) => recordings.push_reserved(samples),
            Err(status) => return Err(status),
        }
    }
    Ok(recordings)
}

// The samples of the recording of the gauge with this number.
#[tactic(auto, using(crate::proofs::on_sheet_command::Recordings::given_kind, crate::proofs::on_sheet_command::Asking::given_own))]
fn read_recording<T: Site>(
    alloc: Global,
    number: u16,
    gauge: &Gauge,
    site: &mut T,
) -> Result<Samples, Status>
    requires home { T.out site.old ≡ 0 }
    ensures samples { T.tells → IfOk result (λ w.
        w.items ≡ samples (body_in (T.files site.old gauge.now.file))) }
    ensures sound { T.tells → OnOk result (file_state (T.files site.old gauge.now.file) ≡ Sound) }
    ensures refused { T.tells → IfErr result (λ status.
        MayAnswerFor number status (file_state (T.files site.old gauge.now.file))) }
    ensures kind { IfErr result IsReadStatus }
    ensures own { IfErr result (IsOfGauge number) }
    ensures cause { result ≡ Err ReadFault → CountRose (T.faults site.old) (T.faults site.new) }
    ensures steady { result ≢ Err ReadFault → T.faults site.new ≡ T.faults site.old }
    ensures later { T.faults site.old ≤ T.faults site.new }
    ensures asked { Asks (T.names_asked site.old) (T.names_asked site.new)
        (gauge.now.file ∷ []) }
    ensures back { T.out site.new ≡ 0 }
    ensures files { T.tells → T.files site.new ≡ T.files site.old }
{
    let Ok(mut src) = site.fetch(gauge.file.as_str()) else {
        return Err(Status::ReadFault);
    };
    let read = read_samples(alloc, &mut src);
    site.give_back(src);
    match read {
        Ok(samples) => Ok(samples),
        Err(refusal) => Err(refusal.status(number)),
    }
}

// All samples of a recording.
fn read_samples<S: Source>(alloc: Global, src: &mut S) -> Result<Samples, Refusal>
    ensures samples { S.tells →
        IfOk result (λ w. w.items ≡ samples (drop HEAD_LENGTH (S.left src.old))) }
    ensures answer { S.tells → (gauge : ℕ) → MayGive gauge result (state_of (S.left src.old)) }
    ensures cause { result ≡ Err refusal.ReadFault →
        CountRose (S.faults src.old) (S.faults src.new) }
    ensures steady { result ≢ Err refusal.ReadFault → S.faults src.new ≡ S.faults src.old }
    ensures later { S.faults src.old ≤ S.faults src.new }
{
    read_head(src)?;
    let mut piece = piece(alloc)?;
    read_body(alloc, src, piece.as_mut_slice())
}

// Room for the samples that are read at once.
fn piece(alloc: Global) -> Result<Samples, AllocError>
    ensures { IfOk result (λ piece. length piece.items ≡ PIECE) }
{
    vec![in alloc; 0; PIECE]
}

// All samples of a body, piece by piece.
fn read_body<S: Source>(alloc: Global, src: &mut S, piece: &mut [i32]) -> Result<Samples, Refusal>
    requires { length piece.old ≡ PIECE }
    ensures samples { S.tells → IfOk result (λ w. w.items ≡ samples (S.left src.old)) }
    ensures answer { S.tells → (gauge : ℕ) → MayGive gauge result (body_state (S.left src.old)) }
    ensures cause { result ≡ Err refusal.ReadFault →
        CountRose (S.faults src.old) (S.faults src.new) }
    ensures steady { result ≢ Err refusal.ReadFault → S.faults src.new ≡ S.faults src.old }
    ensures later { S.faults src.old ≤ S.faults src.new }
{
    let mut samples = Vec::new(alloc);
    for _ in 0..u64::MAX {
        let filled = fill(src, piece);
        if filled.end == FillEnd::Failed {
            return Err(Refusal::ReadFault);
        }
        samples.extend_from_slice(&piece[..filled.n])?;
        if samples.len() as u64 > MAX_SAMPLES {
            return Err(Refusal::TooLong);
        }
        match filled.end {
            FillEnd::More => {}
            FillEnd::Ended => return Ok(samples),
            FillEnd::Torn(bytes) => return Err(Refusal::Torn(bytes)),
            FillEnd::Failed => unreachable!(),
        }
    }
    unreachable!()
}
