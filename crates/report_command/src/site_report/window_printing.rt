ghost use Rattle.std.specs.Prelude.{◌≡◌, ◌≤◌, ◌++◌, ℕ, length, OnOk, OnErr};
ghost use Rattle.outside.specs.Fault.{HasCause};
ghost use Rattle.outside.specs.Sink.{AppendsPrefix};
ghost use Rattle.calibration.specs.declared.limits.TheConstants.{MAX_NAME_BYTES};
ghost use Rattle.report.specs.Figures.{Agree, Figures, figures_of};
ghost use Rattle.report.specs.Texts as texts;
ghost use Rattle.report.specs.Window as line;
ghost use Rattle.segment.specs.Segment.{IsSegment};
ghost use Rattle.site_config.specs.Valid.{IsConfig};
ghost use Rattle.report_command.specs.site_report.Report.{Agrees, AreOver, names_of, window_lines};

use crate::site_report::printing::print_gauge;
use outside::{Failed, Sink};
use report::{Page, window_line};
use segment::Segment;
use site_config::Config;

/// Prints the line of each gauge's window, and the gauge's text behind it.
pub fn print_windows<O: Sink>(
    config: &Config,
    segments: &[Segment],
    page: &mut Page,
    out: &mut O,
) -> Result<(), Failed>
    requires config { IsConfig config.now }
    requires setup { AreOver config.now.setup.grid segments.now }
    requires gauges { length segments.now ≡ length config.now.gauges }
    requires classes { config.now.setup.grid.classes ≤ page.old.classes }
    ensures ok { O.tells → (figures : ℕ → Figures) → Agrees config.now segments.now figures →
        OnOk result (O.written out.new ≡
        O.written out.old ++ window_lines config.now (names_of segments.now) figures) }
    ensures failed { O.tells → (figures : ℕ → Figures) → Agrees config.now segments.now figures →
        OnErr result (AppendsPrefix (O.written out.old) (O.written out.new)
        (window_lines config.now (names_of segments.now) figures)) }
    ensures cause { HasCause (O.faults out.old) (O.faults out.new) result }
    ensures classes { page.new.classes ≡ page.old.classes }
{
    for gauge in 0..config.gauges.as_slice().len() {
        let name = config.gauges.as_slice()[gauge].name.as_str();
        print_window(name, &segments[gauge], page, out)?;
    }
    Ok(())
}

// Prints the line of a gauge's window, and the text of its segment.
fn print_window<O: Sink>(
    name: &str,
    segment: &Segment,
    page: &mut Page,
    out: &mut O,
) -> Result<(), Failed>
    requires name { length name.now ≤ MAX_NAME_BYTES }
    requires classes { segment.now.grid.classes ≤ page.old.classes }
    ensures ok { O.tells → (figures : Figures) →
        Agree segment.now.grid (figures_of segment.now) figures →
        OnOk result (O.written out.new ≡ O.written out.old ++
        (line.window_line name.now segment.now.from segment.now.to
        ++ texts.gauge_text segment.now.grid name.now figures)) }
    ensures failed { O.tells → (figures : Figures) →
        Agree segment.now.grid (figures_of segment.now) figures →
        OnErr result (AppendsPrefix (O.written out.old) (O.written out.new)
        (line.window_line name.now segment.now.from segment.now.to
        ++ texts.gauge_text segment.now.grid name.now figures)) }
    ensures cause { HasCause (O.faults out.old) (O.faults out.new) result }
    ensures classes { page.new.classes ≡ page.old.classes }
    ensures rules { IsSegment segment.now }
{
    let window = segment.name();
    window_line(page, name, window.from, window.to);
    out.put(page.bytes())?;
    print_gauge(name, segment, page, out)
}
