ghost use Rattle.std.specs.Prelude.{◌≡◌, ◌++◌, ℕ, List, length, IfOk, OnOk, OnErr};
ghost use Rattle.outside.specs.Fault.{HasCause};
ghost use Rattle.outside.specs.Sink.{AppendsPrefix};
ghost use Rattle.report.specs.Figures.{Figures};
ghost use Rattle.site_config.specs.Valid.{IsConfig};
ghost use Rattle.report_command.specs.site_report.Report.{Agrees, AreOver, IsReport, IsWindowReport, names_of};
ghost use Rattle.report_command.specs.site_report.Room.{HasRoom};

use crate::site_report::damages::sum_damages;
use crate::site_report::printing::{print_details, print_gauges};
use crate::site_report::window_printing::print_windows;
use damage::exact_frac::Frac;
use outside::{Failed, Sink};
use report::Page;
use segment::Segment;
use site_config::Config;
use std::alloc::{AllocError, Global};
use std::marker::Model;

/// The memory of a report: a page, and a place for the damage of each detail.
#[derive(Drop)]
pub struct Report {
    page: Page,
    damages: Vec<Frac>,
}

impl Model for Report {
    ghost use Rattle.std.specs.Prelude.{vec_capacity};
    ghost use Rattle.report_command.specs.site_report.Room.{RoomValue};

    ghost Value = { RoomValue };

    ghost view = { λ r. record { classes = r.page.classes; details = vec_capacity r.damages } };
}

impl Report {
    /// Takes all memory that printing the report of this site takes.
    pub fn new(alloc: Global, config: &Config) -> Result<Report, AllocError>
        requires { IsConfig config.now }
        ensures { IfOk result (HasRoom config.now) }
    {
        Ok(Report {
            page: Page::new(alloc, config.setup.grid.classes())?,
            damages: Vec::with_capacity(alloc, config.details.as_slice().len())?,
        })
    }

    /// Prints the report of the segments of a site's gauges: the text of each gauge, then the line
    /// of each detail. Takes no memory. Where a put fails, a front of the report is written.
    pub fn print<O: Sink>(
        &mut self,
        config: &Config,
        segments: &[Segment],
        out: &mut O,
    ) -> Result<(), Failed>
        requires config { IsConfig config.now }
        requires setup { AreOver config.now.setup.grid segments.now }
        requires gauges { length segments.now ≡ length config.now.gauges }
        requires room { HasRoom config.now self.old }
        ensures ok { O.tells → (figures : ℕ → Figures) → Agrees config.now segments.now figures →
            OnOk result ((text : List ℕ) × IsReport config.now figures text ×
            (O.written out.new ≡ O.written out.old ++ text)) }
        ensures failed { O.tells → (figures : ℕ → Figures) →
            Agrees config.now segments.now figures →
            OnErr result ((text : List ℕ) × IsReport config.now figures text ×
            AppendsPrefix (O.written out.old) (O.written out.new) text) }
        ensures cause { HasCause (O.faults out.old) (O.faults out.new) result }
        ensures room { HasRoom config.now self.new }
    {
        sum_damages(config, segments, &mut self.damages);
        print_gauges(config, segments, &mut self.page, out)?;
        print_details(config, &self.damages, &mut self.page, out)
    }

    /// Prints the report of a window of time: before the text of each gauge the line of its window,
    /// which its segment names. Takes no memory. Where a put fails, a front of it is written.
    pub fn print_window<O: Sink>(
        &mut self,
        config: &Config,
        segments: &[Segment],
        out: &mut O,
    ) -> Result<(), Failed>
        requires config { IsConfig config.now }
        requires setup { AreOver config.now.setup.grid segments.now }
        requires gauges { length segments.now ≡ length config.now.gauges }
        requires room { HasRoom config.now self.old }
        ensures ok { O.tells → (figures : ℕ → Figures) → Agrees config.now segments.now figures →
            OnOk result ((text : List ℕ) ×
            IsWindowReport config.now (names_of segments.now) figures text ×
            (O.written out.new ≡ O.written out.old ++ text)) }
        ensures failed { O.tells → (figures : ℕ → Figures) →
            Agrees config.now segments.now figures →
            OnErr result ((text : List ℕ) ×
            IsWindowReport config.now (names_of segments.now) figures text ×
            AppendsPrefix (O.written out.old) (O.written out.new) text) }
        ensures cause { HasCause (O.faults out.old) (O.faults out.new) result }
        ensures room { HasRoom config.now self.new }
    {
        sum_damages(config, segments, &mut self.damages);
        print_windows(config, segments, &mut self.page, out)?;
        print_details(config, &self.damages, &mut self.page, out)
    }
}
