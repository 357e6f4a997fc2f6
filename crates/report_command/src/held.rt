ghost use Rattle.std.specs.Prelude.{◌≡◌, ℕ, length};
ghost use Rattle.outside.specs.Fault.{CountRose};
ghost use Rattle.report.specs.Figures.{Figures};
ghost use Rattle.site_config.specs.Valid.{IsConfig};
ghost use Rattle.report_command.specs.site_report.Report.{Agrees};
ghost use Rattle.report_command.specs.site_report.Room.{HasRoom};
ghost use Rattle.status.specs.declared.status.Status.TheVariants.{WriteFault};
ghost use Rattle.status.specs.Printing.{IsPrinting};
ghost use Rattle.report_command.specs.Printing.{Prints};

use crate::site_report::Report;
use outside::Sink;
use segment_store::Store;
use site_config::Config;
use status::Status;

/// Prints the report of what is held.
pub(crate) fn print_held<O: Sink>(
    config: &Config,
    store: &Store,
    report: &mut Report,
    out: &mut O,
) -> Status
    requires config { IsConfig config.now }
    requires setup { store.now.head.setup ≡ config.now.setup }
    requires gauges { length store.now.held ≡ length config.now.gauges }
    requires room { HasRoom config.now report.old }
    ensures prints { O.tells → (figures : ℕ → Figures) → Agrees config.now store.now.held figures →
        Prints result config.now figures (O.written out.old) (O.written out.new) }
    ensures kind { IsPrinting result }
    ensures write { result ≡ WriteFault → CountRose (O.faults out.old) (O.faults out.new) }
{
    match report.print(config, store.segments(), out) {
        Ok(()) => Status::Done,
        Err(_) => Status::WriteFault,
    }
}
