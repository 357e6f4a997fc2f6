ghost use Rattle.std.specs.Prelude.{◌≡◌};
ghost use Rattle.monitor.specs.Run.{IsRun};
ghost use Rattle.status.specs.Shown.{shown_by};

use crate::column::told_column;
use crate::demo::told_demo;
use crate::refused::usage;
use crate::table::told_table;
use audit_command::audit_command;
use command_words::{Command, read_words};
use count_command::{count_command, watch_command};
use file_commands::sheet_command::sheet_command;
use init_command::init_command;
use outside::station::Station;
use outside::{Gate, Sink, Site, Source};
use recording::Head;
use report_command::compact_command::compact_command;
use report_command::repeat_command::repeat_command;
use report_command::report_command;
use report_command::window_command::window_command;
use report_command::window_counts::Times;
use status::Status;
use status::fault_lines::tell_no_memory;
use std::sync::Wait;
use std::thread::Threads;

/// Does what the words of the command line say.
///
/// `table FILE` prints the rainflow table of a recording: the three-point count of ASTM E1049-85,
/// 5.4.4, over its whole level history. `init` makes the store of a site, `count` counts what is
/// new of its recordings and stores it, and `report` prints the report of what is held. `audit`
/// counts the held samples again, and compares. `demo` counts recordings that are made from a seed.
/// `repeat` prints what is held of each gauge as a history that repeats (5.4.5). `column` writes a
/// column of a CSV file as a recording, and `sheet` the recordings of a site as a CSV text.
/// `window` prints the report of the bodies that lie inside a window of time, and `compact` writes
/// a copy of the store with one body for each gauge. `watch` does what `count` does, beside a
/// watcher that sees what is held, and tells how far it saw each gauge. `count`, `watch` and `demo`
/// wait for the threads that they start; a worker passes the gate before each block. Each answer
/// but `Done` is told to the station, by its line. Where memory runs out while the words are read,
/// nothing is asked for and nothing printed.
pub fn monitor<
    R: AllocGlobal + Threads + Wait + Sync,
    C: Source,
    T: Site,
    K: Station,
    O: Sink,
    G: Gate + Sync,
>(
    rt: &R,
    words: &[String],
    config: &mut C,
    site: &mut T,
    station: &mut K,
    out: &mut O,
    gate: &G,
) -> Status
    requires home { T.out site.old ≡ 0 }
    // What the command of the words did, by what is shown before and after: `specs/Run.antt`.
    ensures run { IsRun words.now (config.new ≡ config.old)
        (shown_by ⟦<C as Source>⟧ ⟦<T as Site>⟧ ⟦<K as Station>⟧ ⟦<O as Sink>⟧
        config.old site.old station.old out.old)
        (shown_by ⟦<C as Source>⟧ ⟦<T as Site>⟧ ⟦<K as Station>⟧ ⟦<O as Sink>⟧
        config.new site.new station.new out.new) result }
{
    match read_words(rt.alloc(), words) {
        Ok(Some(Command::Table { file })) => told_table(rt.alloc(), file, site, station, out),
        Ok(Some(Command::Init)) => init_command(rt.alloc(), config, site, station),
        Ok(Some(Command::Count { workers })) => {
            count_command(rt, workers, config, site, station, out, gate)
        }
        Ok(Some(Command::Report)) => report_command(rt.alloc(), config, station, out),
        Ok(Some(Command::Audit)) => audit_command(rt.alloc(), config, site, station, out),
        Ok(
            Some(
                Command::Demo {
                    seed,
                    samples,
                    workers,
                },
            ),
        ) => told_demo(rt, seed, samples, workers, station, out, gate),
        Ok(Some(Command::Repeat)) => repeat_command(rt.alloc(), config, station, out),
        Ok(
            Some(
                Command::Column {
                    file,
                    name,
                    id,
                    period_us,
                },
            ),
        ) => {
            let head = Head { id, period_us };
            told_column(rt.alloc(), file, name, &head, site, station, out)
        }
        Ok(Some(Command::Sheet)) => sheet_command(rt.alloc(), config, site, station, out),
        Ok(Some(Command::Window { start, from, to })) => {
            let times = Times { start, from, to };
            window_command(rt.alloc(), times, config, station, out)
        }
        Ok(Some(Command::Compact)) => compact_command(rt.alloc(), config, station, out),
        Ok(Some(Command::Watch { workers })) => {
            watch_command(rt, workers, config, site, station, out, gate)
        }
        Ok(None) => usage(rt.alloc(), station),
        Err(_) => {
            tell_no_memory(station);
            Status::OutOfMemory
        }
    }
}
