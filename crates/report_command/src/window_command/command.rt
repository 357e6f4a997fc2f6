ghost use Rattle.std.specs.Prelude.{◌≡◌, ℕ, length};
ghost use Rattle.outside.specs.Fault.{CountRose};
ghost use Rattle.report.specs.Figures.{Figures};
ghost use Rattle.site_config.specs.Valid.{IsConfig};
ghost use Rattle.status.specs.declared.status.Status.TheVariants.{WriteFault};
ghost use Rattle.status.specs.Printing.{IsPrinting};
ghost use Rattle.report_command.specs.site_report.Report.{Agrees, AreOver, names_of};
ghost use Rattle.report_command.specs.site_report.Room.{HasRoom};
ghost use Rattle.report_command.specs.StoreRun.{StoreRuns, store_shown};
ghost use Rattle.report_command.specs.window_counts.Windows.{AreInstants};
ghost use Rattle.report_command.specs.window_command.Printing.{Prints, WritesWindow};

use crate::over_store::{StoreWriter, run_over_store};
use crate::site_report::Report;
use crate::window_counts::{Times, count_windows};
use outside::station::Station;
use outside::{Sink, Source};
use segment::Segment;
use site_config::Config;
use status::{Status, status_of};
use std::alloc::Global;

/// Prints the counts of the bodies of a site's store that lie inside a window of time. Whatever
/// else than `Done` is answered is told by its line.
pub fn window_command<C: Source, K: Station, O: Sink>(
    alloc: Global,
    times: Times,
    config: &mut C,
    station: &mut K,
    out: &mut O,
) -> Status
    requires times { AreInstants times }
    // What it did, by what is shown before and after: `specs/StoreRun.antt`; what it writes:
    // `specs/window_command/Printing.antt`.
    ensures run { StoreRuns (WritesWindow times)
        (store_shown ⟦<C as Source>⟧ ⟦<K as Station>⟧ ⟦<O as Sink>⟧ config.old station.old out.old)
        (store_shown ⟦<C as Source>⟧ ⟦<K as Station>⟧ ⟦<O as Sink>⟧ config.new station.new out.new)
        result }
{
    run_over_store(alloc, &WindowText { times }, config, station, out)
}

// The report of a window.
#[derive(Drop)]
struct WindowText {
    times: Times,
}

impl StoreWriter for WindowText {
    ghost use Rattle.report_command.specs.window_counts.Windows.{AreInstants};
    ghost use Rattle.report_command.specs.window_command.Printing.{WritesWindow};

    ghost sound = { λ w. AreInstants w.times };

    ghost writes = { λ w. WritesWindow w.times };

    fn write<K: Station, O: Sink>(
        &self,
        alloc: Global,
        config: &Config,
        station: &mut K,
        out: &mut O,
    ) -> Status {
        let Ok(mut report) = Report::new(alloc, config) else {
            return Status::OutOfMemory;
        };
        match count_windows(alloc, station, &config.setup, self.times) {
            Ok(windows) => print_counted(config, windows.joined(), &mut report, out),
            Err(fault) => status_of(fault),
        }
    }
}

// Prints the report of the segments of a window.
fn print_counted<O: Sink>(
    config: &Config,
    segments: &[Segment],
    report: &mut Report,
    out: &mut O,
) -> Status
    requires config { IsConfig config.now }
    requires setup { AreOver config.now.setup.grid segments.now }
    requires gauges { length segments.now ≡ length config.now.gauges }
    requires room { HasRoom config.now report.old }
    ensures prints { O.tells → (figures : ℕ → Figures) → Agrees config.now segments.now figures →
        Prints result config.now (names_of segments.now) figures (O.written out.old)
        (O.written out.new) }
    ensures kind { IsPrinting result }
    ensures write { result ≡ WriteFault → CountRose (O.faults out.old) (O.faults out.new) }
{
    match report.print_window(config, segments, out) {
        Ok(()) => Status::Done,
        Err(_) => Status::WriteFault,
    }
}
