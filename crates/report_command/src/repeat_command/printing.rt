ghost use Rattle.std.specs.Prelude.{◌≡◌, ◌<◌, ◌≤◌, ◌++◌, ℕ, ℤ, List, length, OnOk, OnErr};
ghost use Rattle.outside.specs.Fault.{CountRose, HasCause};
ghost use Rattle.outside.specs.Sink.{AppendsPrefix};
ghost use Rattle.calibration.specs.Gain.{GainValue};
ghost use Rattle.calibration.specs.History.{history};
ghost use Rattle.repeating.specs.Repeating.{repeating_cycles};
ghost use Rattle.report.specs.Repeat as texts;
ghost use Rattle.segment.specs.Segment.{Stands};
ghost use Rattle.site_config.specs.Valid.{IsConfig};
ghost use Rattle.status.specs.declared.status.Status.TheVariants.{WriteFault};
ghost use Rattle.status.specs.Printing.{IsPrinting};
ghost use Rattle.report_command.specs.repeat_command.Printing.{AllHeldStand, Prints, repeat_texts};
ghost use Rattle.calibration.specs.declared.limits.TheConstants.{MAX_NAME_BYTES};

use outside::{Failed, Sink};
use repeating::Repeating;
use report::{Page, repeat_text};
use segment::Segment;
use segment_store::Store;
use site_config::Config;
use status::Status;

/// Prints what is held of each gauge as a history that repeats.
pub(crate) fn print_held<O: Sink>(
    config: &Config,
    store: &Store,
    count: &mut Repeating,
    page: &mut Page,
    out: &mut O,
) -> Status
    requires config { IsConfig config.now }
    requires setup { store.now.head.setup ≡ config.now.setup }
    requires gauges { length store.now.held ≡ length config.now.gauges }
    requires grid { count.old.grid ≡ config.now.setup.grid }
    requires classes { config.now.setup.grid.classes ≤ page.old.classes }
    ensures prints { O.tells → (w : ℕ → List ℤ) → AllHeldStand config.now store.now.held w →
        Prints result config.now w (O.written out.old) (O.written out.new) }
    ensures kind { IsPrinting result }
    ensures write { result ≡ WriteFault → CountRose (O.faults out.old) (O.faults out.new) }
{
    match print_repeats(config, store, count, page, out) {
        Ok(()) => Status::Done,
        Err(_) => Status::WriteFault,
    }
}

fn print_repeats<O: Sink>(
    config: &Config,
    store: &Store,
    count: &mut Repeating,
    page: &mut Page,
    out: &mut O,
) -> Result<(), Failed>
    requires config { IsConfig config.now }
    requires setup { store.now.head.setup ≡ config.now.setup }
    requires gauges { length store.now.held ≡ length config.now.gauges }
    requires grid { count.old.grid ≡ config.now.setup.grid }
    requires classes { config.now.setup.grid.classes ≤ page.old.classes }
    ensures ok { O.tells → (w : ℕ → List ℤ) → AllHeldStand config.now store.now.held w →
        OnOk result (O.written out.new ≡ O.written out.old ++ repeat_texts config.now w) }
    ensures failed { O.tells → (w : ℕ → List ℤ) → AllHeldStand config.now store.now.held w →
        OnErr result (AppendsPrefix (O.written out.old) (O.written out.new)
        (repeat_texts config.now w)) }
    ensures cause { HasCause (O.faults out.old) (O.faults out.new) result }
{
    for gauge in 0..config.gauges.as_slice().len() {
        let name = config.gauges.as_slice()[gauge].name.as_str();
        print_repeat(name, store.held(gauge as u16), count, page, out)?;
    }
    Ok(())
}

// Prints the text of a gauge by its segment.
fn print_repeat<O: Sink>(
    name: &str,
    segment: &Segment,
    count: &mut Repeating,
    page: &mut Page,
    out: &mut O,
) -> Result<(), Failed>
    requires name { length name.now ≤ MAX_NAME_BYTES }
    requires grid { count.old.grid ≡ segment.now.grid }
    requires classes { segment.now.grid.classes ≤ page.old.classes }
    ensures ok { O.tells → (gain : GainValue) (w : List ℤ) → Stands segment.now gain w →
        OnOk result (O.written out.new ≡ O.written out.old ++
        texts.repeat_text segment.now.grid name.now
        (repeating_cycles (history segment.now.grid gain w))) }
    ensures failed { O.tells → (gain : GainValue) (w : List ℤ) → Stands segment.now gain w →
        OnErr result (AppendsPrefix (O.written out.old) (O.written out.new)
        (texts.repeat_text segment.now.grid name.now
        (repeating_cycles (history segment.now.grid gain w)))) }
    ensures cause { HasCause (O.faults out.old) (O.faults out.new) result }
    ensures grid { count.new.grid ≡ count.old.grid }
    ensures classes { page.new.classes ≡ page.old.classes }
{
    count.of(segment);
    repeat_text(page, name, count);
    out.put(page.bytes())
}
