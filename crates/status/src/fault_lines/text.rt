ghost use Rattle.std.specs.Prelude.{◌≡◌, ◌++◌, codes};
ghost use Rattle.std.specs.Fmt.{decimal};
ghost use Rattle.status.specs.line_room.Room.{Fits, with_text, shown_text};
ghost use Rattle.site_config.specs.FaultText.{config_fault_text, place_behind};
ghost use Rattle.site_config.specs.Keys.{key_text};
ghost use Rattle.status.specs.declared.status.RecordingFault.TheVariants.{Id, ShortRow, Cell};
ghost use Rattle.status.specs.fault_lines.FaultLine.{fault_line, recording_line, torn_text, what_text, differs_text};
ghost use Rattle.status.specs.FaultText.{id_digits as id_digits_of, recording_text};

use crate::digits::id_digits;
use crate::fault_lines::store_text::push_store;
use crate::line_room::LineRoom;
use crate::{RecordingFault, Status};
use recount::What;
use site_config::{ConfigFault, Key, KeyName};

const USAGE: &[u8] =
    b"usage: monitor table FILE | init | count [--workers N] | report | audit | demo [--seed N] [--samples N] [--workers N] | repeat | column FILE NAME ID PERIOD | sheet | window START FROM TO | compact | watch [--workers N]\n";

/// Writes the line of a status.
pub(crate) fn push_status(line: &mut LineRoom, status: Status, name: &[u8])
    requires { Fits line.old (fault_line status name.now) }
    ensures { line.new ≡ with_text line.old (fault_line status name.now) }
{
    match status {
        Status::Done => {}
        Status::Usage => line.push(USAGE),
        Status::Config(fault) => push_config(line, fault),
        Status::Store(fault) => push_store(line, fault),
        Status::Recording { fault, .. } => push_recording(line, name, fault),
        Status::Torn { bytes, .. } => push_torn(line, name, bytes),
        Status::ReadFault => line.push(b"read fault\n"),
        Status::WriteFault => line.push(b"write fault\n"),
        Status::DiskFault => line.push(b"station fault\n"),
        Status::OutOfMemory => line.push(b"out of memory\n"),
        Status::TooLong { .. } => push_too_long(line, name),
        Status::Differs {
            what,
            held,
            found,
            ..
        } => push_differs(line, name, what, held, found),
    }
}

fn push_config(line: &mut LineRoom, fault: ConfigFault)
    requires { Fits line.old (codes "config: " ++ config_fault_text fault ++ codes "\n") }
    ensures { line.new ≡ with_text line.old
        (codes "config: " ++ config_fault_text fault ++ codes "\n") }
{
    line.push(b"config: ");
    line.push(fault.words().as_bytes());
    push_place(line, fault);
    line.push(b"\n");
}

// The place of a fault, behind its words.
fn push_place(line: &mut LineRoom, fault: ConfigFault)
    requires { Fits line.old (place_behind fault) }
    ensures { line.new ≡ with_text line.old (place_behind fault) }
{
    match fault {
        ConfigFault::Missing(key) | ConfigFault::Kind(key) | ConfigFault::Limit(key) => {
            line.push(b" ");
            push_key(line, key);
        }
        ConfigFault::Double {
            part,
            first,
            second,
        } => {
            line.push(b" ");
            line.push(part.as_str().as_bytes());
            line.push(b" ");
            line.push_number(first.into());
            line.push(b" ");
            line.push_number(second.into());
        }
        ConfigFault::NoSuchGauge { detail } => {
            line.push(b", detail ");
            line.push_number(detail.into());
        }
        _ => {}
    }
}

fn push_key(line: &mut LineRoom, key: Key)
    requires { Fits line.old (key_text key) }
    ensures { line.new ≡ with_text line.old (key_text key) }
{
    line.push(key.part.as_str().as_bytes());
    if key.has_index() {
        line.push(b" ");
        line.push_number(key.index.into());
    }
    match key.name {
        KeyName::Itself => {}
        name => {
            line.push(b" ");
            line.push(name.as_str().as_bytes());
        }
    }
}

fn push_recording(line: &mut LineRoom, name: &[u8], fault: RecordingFault)
    requires { Fits line.old (recording_line name.now (recording_text fault)) }
    ensures { line.new ≡ with_text line.old (recording_line name.now (recording_text fault)) }
{
    push_name(line, name);
    push_recording_fault(line, fault);
    line.push(b"\n");
}

fn push_name(line: &mut LineRoom, name: &[u8])
    requires { Fits line.old (codes "recording " ++ shown_text name.now ++ codes ": ") }
    ensures { line.new ≡ with_text line.old
        (codes "recording " ++ shown_text name.now ++ codes ": ") }
{
    line.push(b"recording ");
    line.push_shown(name);
    line.push(b": ");
}

fn push_recording_fault(line: &mut LineRoom, fault: RecordingFault)
    requires { Fits line.old (recording_text fault) }
    ensures { line.new ≡ with_text line.old (recording_text fault) }
{
    match fault {
        RecordingFault::Short => line.push(b"short"),
        RecordingFault::Magic => line.push(b"no SGRC"),
        RecordingFault::Version(version) => {
            line.push(b"version ");
            line.push_number(version.into());
        }
        RecordingFault::NotZero => line.push(b"not zero"),
        RecordingFault::Id { kept, found } => push_other_id(line, &kept, &found),
        RecordingFault::Period { kept, found } => {
            line.push(b"period was ");
            line.push_number(kept.into());
            line.push(b", is ");
            line.push_number(found.into());
        }
        RecordingFault::Fewer { held, there } => {
            line.push_number(held);
            line.push(b" held, ");
            line.push_number(there);
            line.push(b" there");
        }
        RecordingFault::NoColumn => line.push(b"no column"),
        RecordingFault::ShortRow { row, fields } => push_short_row(line, row, fields),
        RecordingFault::Cell { row } => push_no_number(line, row),
    }
}

fn push_short_row(line: &mut LineRoom, row: u64, fields: u64)
    requires { Fits line.old (recording_text (ShortRow row fields)) }
    ensures { line.new ≡ with_text line.old (recording_text (ShortRow row fields)) }
{
    push_row(line, row);
    line.push(b" has ");
    line.push_number(fields);
    line.push(b" fields");
}

fn push_no_number(line: &mut LineRoom, row: u64)
    requires { Fits line.old (recording_text (Cell row)) }
    ensures { line.new ≡ with_text line.old (recording_text (Cell row)) }
{
    push_row(line, row);
    line.push(b" is no number");
}

fn push_row(line: &mut LineRoom, row: u64)
    requires { Fits line.old (codes "row " ++ decimal row) }
    ensures { line.new ≡ with_text line.old (codes "row " ++ decimal row) }
{
    line.push(b"row ");
    line.push_number(row);
}

fn push_other_id(line: &mut LineRoom, kept: &[u8; 16], found: &[u8; 16])
    requires { Fits line.old (recording_text (Id kept.now found.now)) }
    ensures { line.new ≡ with_text line.old (recording_text (Id kept.now found.now)) }
{
    line.push(b"id was ");
    push_id(line, kept);
    line.push(b", is ");
    push_id(line, found);
}

// The 32 hexadecimal digits of an id.
fn push_id(line: &mut LineRoom, id: &[u8; 16])
    requires { Fits line.old (id_digits_of id.now) }
    ensures { line.new ≡ with_text line.old (id_digits_of id.now) }
{
    line.push(id_digits(id).as_bytes());
}

fn push_torn(line: &mut LineRoom, name: &[u8], bytes: u8)
    requires { Fits line.old (recording_line name.now (torn_text bytes)) }
    ensures { line.new ≡ with_text line.old (recording_line name.now (torn_text bytes)) }
{
    push_name(line, name);
    line.push(b"ends in ");
    line.push_number(bytes.into());
    line.push(b" odd bytes");
    line.push(b"\n");
}

fn push_too_long(line: &mut LineRoom, name: &[u8])
    requires { Fits line.old (recording_line name.now (codes "too long")) }
    ensures { line.new ≡ with_text line.old (recording_line name.now (codes "too long")) }
{
    push_name(line, name);
    line.push(b"too long");
    line.push(b"\n");
}

fn push_differs(line: &mut LineRoom, name: &[u8], what: What, held: u64, found: u64)
    requires { Fits line.old
        (codes "audit " ++ shown_text name.now ++ codes ": " ++ differs_text what held found
        ++ codes "\n") }
    ensures { line.new ≡ with_text line.old
        (codes "audit " ++ shown_text name.now ++ codes ": " ++ differs_text what held found
        ++ codes "\n") }
{
    line.push(b"audit ");
    line.push_shown(name);
    line.push(b": ");
    push_difference(line, what, held, found);
    line.push(b"\n");
}

fn push_difference(line: &mut LineRoom, what: What, held: u64, found: u64)
    requires { Fits line.old (differs_text what held found) }
    ensures { line.new ≡ with_text line.old (differs_text what held found) }
{
    push_what(line, what);
    line.push(b" held ");
    line.push_number(held);
    line.push(b", recount ");
    line.push_number(found);
}

fn push_what(line: &mut LineRoom, what: What)
    requires { Fits line.old (what_text what) }
    ensures { line.new ≡ with_text line.old (what_text what) }
{
    match what {
        What::Used => line.push(b"used"),
        What::Missing => line.push(b"missing"),
        What::Refused => line.push(b"refused"),
        What::Cell(lo, hi) => {
            line.push(b"cell ");
            line.push_number(lo.into());
            line.push(b" ");
            line.push_number(hi.into());
        }
    }
}
