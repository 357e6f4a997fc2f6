ghost use Rattle.std.specs.Prelude.{◌≡◌, ◌<◌, ◌≤◌, ◌++◌, ℕ, All, length, OnOk, OnErr};
ghost use Rattle.outside.specs.Fault.{HasCause};
ghost use Rattle.outside.specs.Sink.{AppendsPrefix};
ghost use Rattle.damage.specs.declared.miner.TheConstants.{MAX_HALF_CYCLES};
ghost use Rattle.calibration.specs.declared.limits.TheConstants.{MAX_NAME_BYTES};
ghost use Rattle.report.specs.Figures.{Agree, Figures, figures_of};
ghost use Rattle.report.specs.Texts as texts;
ghost use Rattle.segment.specs.Segment.{IsSegment};
ghost use Rattle.site_config.specs.Valid.{IsConfig};
ghost use Rattle.report_command.specs.site_report.Report.{Agrees, AreOver, gauge_lines, detail_lines};

use damage::exact_frac::Frac;
use outside::{Failed, Sink};
use report::{Page, detail_text, gauge_text};
use segment::Segment;
use site_config::Config;

/// Prints the text of each gauge.
pub fn print_gauges<O: Sink>(
    config: &Config,
    segments: &[Segment],
    page: &mut Page,
    out: &mut O,
) -> Result<(), Failed>
    requires config { IsConfig config.now }
    requires setup { AreOver config.now.setup.grid segments.now }
    requires gauges { length segments.now ≡ length config.now.gauges }
    requires classes { config.now.setup.grid.classes ≤ page.old.classes }
    ensures ok { O.tells → (figures : ℕ → Figures) → Agrees config.now segments.now figures →
        OnOk result (O.written out.new ≡ O.written out.old ++ gauge_lines config.now figures) }
    ensures failed { O.tells → (figures : ℕ → Figures) → Agrees config.now segments.now figures →
        OnErr result (AppendsPrefix (O.written out.old) (O.written out.new)
        (gauge_lines config.now figures)) }
    ensures cause { HasCause (O.faults out.old) (O.faults out.new) result }
    ensures classes { page.new.classes ≡ page.old.classes }
{
    for gauge in 0..config.gauges.as_slice().len() {
        let name = config.gauges.as_slice()[gauge].name.as_str();
        print_gauge(name, &segments[gauge], page, out)?;
    }
    Ok(())
}

// Prints the text of a gauge by its segment.
pub(crate) fn print_gauge<O: Sink>(
    name: &str,
    segment: &Segment,
    page: &mut Page,
    out: &mut O,
) -> Result<(), Failed>
    requires name { length name.now ≤ MAX_NAME_BYTES }
    requires classes { segment.now.grid.classes ≤ page.old.classes }
    ensures ok { O.tells → (figures : Figures) →
        Agree segment.now.grid (figures_of segment.now) figures →
        OnOk result (O.written out.new ≡
        O.written out.old ++ texts.gauge_text segment.now.grid name.now figures) }
    ensures failed { O.tells → (figures : Figures) →
        Agree segment.now.grid (figures_of segment.now) figures →
        OnErr result (AppendsPrefix (O.written out.old) (O.written out.new)
        (texts.gauge_text segment.now.grid name.now figures)) }
    ensures cause { HasCause (O.faults out.old) (O.faults out.new) result }
    ensures classes { page.new.classes ≡ page.old.classes }
    ensures rules { IsSegment segment.now }
{
    // What a segment keeps: its rules.
    let _grid = segment.grid();
    gauge_text(page, name, segment);
    out.put(page.bytes())
}

/// Prints the line of each detail, whose damages are in order.
pub fn print_details<O: Sink>(
    config: &Config,
    damages: &[Frac],
    page: &mut Page,
    out: &mut O,
) -> Result<(), Failed>
    requires config { IsConfig config.now }
    requires one_each { length damages.now ≡ length config.now.details }
    requires few { All (λ damage. damage.whole ≤ MAX_HALF_CYCLES) damages.now }
    ensures ok { O.tells → OnOk result (O.written out.new ≡
        O.written out.old ++ detail_lines config.now config.now.details damages.now) }
    ensures failed { O.tells → OnErr result (AppendsPrefix (O.written out.old)
        (O.written out.new) (detail_lines config.now config.now.details damages.now)) }
    ensures cause { HasCause (O.faults out.old) (O.faults out.new) result }
    ensures classes { page.new.classes ≡ page.old.classes }
{
    for i in 0..damages.len() {
        let detail = &config.details.as_slice()[i];
        let gauge = config.gauges.as_slice()[usize::from(detail.gauge)]
            .name
            .as_str();
        detail_text(page, detail.name.as_str(), gauge, &damages[i]);
        out.put(page.bytes())?;
    }
    Ok(())
}
