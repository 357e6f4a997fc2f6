ghost use Rattle.std.specs.Prelude.{◌≡◌, ◌≤◌, ◌+◌, ◌++◌, IfOk, OnOk, OnErr, length};
ghost use Rattle.outside.specs.Fault.{HasCause};
ghost use Rattle.outside.specs.Sink.{AppendsPrefix};
ghost use Rattle.site_config.specs.Valid.{IsConfig};
ghost use Rattle.site_config.specs.declared.limits.TheConstants.{MAX_NAME_BYTES};
ghost use Rattle.audit_command.specs.Printing.{same_line, same_lines};
ghost use Rattle.audit_command.specs.declared.same_lines.TheConstants.{MAX_LINE_BYTES};

use outside::{Failed, Sink};
use site_config::{Config, MAX_NAME_BYTES};
use status::line_room::LineRoom;
use std::alloc::{AllocError, Global};

// The bytes of a line, at most: those of `audit NAME same` and its end.
const MAX_LINE_BYTES: usize = MAX_NAME_BYTES + 12;

/// Room for the line of a gauge.
pub(crate) fn line_room(alloc: Global) -> Result<LineRoom, AllocError>
    ensures { IfOk result (λ line. line.room ≡ MAX_LINE_BYTES) }
{
    LineRoom::new(alloc, MAX_LINE_BYTES)
}

/// Prints the line of each gauge.
pub(crate) fn print_same<O: Sink>(
    config: &Config,
    line: &mut LineRoom,
    out: &mut O,
) -> Result<(), Failed>
    requires config { IsConfig config.now }
    requires room { line.old.room ≡ MAX_LINE_BYTES }
    ensures ok { O.tells → OnOk result (O.written out.new ≡ O.written out.old ++
        same_lines config.now) }
    ensures failed { O.tells → OnErr result (AppendsPrefix (O.written out.old) (O.written out.new)
        (same_lines config.now)) }
    ensures cause { HasCause (O.faults out.old) (O.faults out.new) result }
{
    for gauge in 0..config.gauges.as_slice().len() {
        push_same(line, config.gauges.as_slice()[gauge].name.as_str());
        out.put(line.bytes())?;
    }
    Ok(())
}

fn push_same(line: &mut LineRoom, name: &str)
    requires name { length name.now ≤ MAX_NAME_BYTES }
    requires room { line.old.room ≡ MAX_LINE_BYTES }
    ensures { line.new ≡ record { room = MAX_LINE_BYTES; bytes = same_line name.now } }
{
    line.clear();
    line.push(b"audit ");
    line.push(name.as_bytes());
    line.push(b" same\n");
}
