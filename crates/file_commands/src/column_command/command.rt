ghost use Rattle.std.specs.Prelude.{◌≡◌, ◌≢◌};
ghost use Rattle.file_commands.specs.file_tasks.Run.{Runs, outside};
ghost use Rattle.file_commands.specs.column_command.Task.{column_task};

use crate::column_command::reading::read_text;
use crate::column_command::writing::write_column;
use outside::{Sink, Site};
use recording::Head;
use status::Status;
use std::alloc::Global;

/// Writes a column of a CSV file as a recording with this head.
///
/// The file has at most [`MAX_FILE_BYTES`](crate::MAX_FILE_BYTES) bytes. Nothing is written before
/// all samples are known. All sources are back at the site when the call returns.
pub fn column_command<T: Site, O: Sink>(
    alloc: Global,
    file: &str,
    name: &str,
    head: &Head,
    site: &mut T,
    out: &mut O,
) -> Status
    requires home { T.out site.old ≡ 0 }
    ensures run { Runs (column_task file.now name.now head.now (T.files site.old))
        (outside ⟦<T as Site>⟧ ⟦<O as Sink>⟧ site.old out.old)
        (outside ⟦<T as Site>⟧ ⟦<O as Sink>⟧ site.new out.new) result }
    ensures named { result ≢ Status.Usage }
{
    let Ok(mut src) = site.fetch(file) else {
        return Status::ReadFault;
    };
    let read = read_text(alloc, &mut src);
    site.give_back(src);
    match read {
        Ok(text) => write_column(alloc, text.as_slice(), name.as_bytes(), head, out),
        Err(refusal) => refusal.status(0),
    }
}
