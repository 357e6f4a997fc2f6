ghost use Rattle.std.specs.Prelude.{◌≡◌, IfOk};

use file_commands::column_command::column_command;
use outside::{MapSite, VecSink};
use recording::Head;
use status::{RecordingFault, Status};
use std::alloc::{AllocError, Global};
use std::collections::BTreeMap;
use std::test::Fail;

const HEAD: Head = Head {
    id: [0x11; 16],
    period_us: 10000,
};

const HEAD_BYTES: &[u8] = &[
    b'S', b'G', b'R', b'C', 1, 0, 0, 0, 0x11, 0x11, 0x11, 0x11, 0x11, 0x11, 0x11, 0x11, 0x11, 0x11,
    0x11, 0x11, 0x11, 0x11, 0x11, 0x11, 0x10, 0x27, 0, 0, 0, 0, 0, 0,
];

const ROWS: &str = "t,G1,G2\n0,5,-2\n1,6,\n2,7, +1\n";

// A site with the one file `d.csv`, whose sources give 7 bytes at a time and fail at these takes.
fn site_of(alloc: Global, text: &str, failing: &[u64]) -> Result<MapSite, AllocError>
    ensures { IfOk result (λ site. site.out ≡ 0) }
{
    let mut files = BTreeMap::new(alloc);
    files.insert(
        String::from_str(alloc, "d.csv")?,
        text.as_bytes().to_vec(alloc)?,
    )?;
    let name = String::from_str(alloc, "d.csv")?;
    let site = MapSite::new(alloc, files, 7, Vec::new(alloc));
    Ok(site.failing_reads(name, failing.to_vec(alloc)?))
}

fn recording(fault: RecordingFault) -> Status {
    Status::Recording { gauge: 0, fault }
}

// An output of which some puts fail.
fn out_of(alloc: Global, failing: &[u64]) -> Result<VecSink, AllocError> {
    VecSink::new(alloc, 100, failing.to_vec(alloc)?)
}

// What the column of this name answers.
fn run(
    alloc: Global,
    text: &str,
    name: &str,
    failing: &[u64],
    out: &mut VecSink,
) -> Result<Status, AllocError> {
    let mut site = site_of(alloc, text, failing)?;
    Ok(column_command(alloc, "d.csv", name, &HEAD, &mut site, out))
}

#[test]
fn a_column_is_a_recording(rt: HostRuntime) -> Result<(), Fail> {
    let alloc = rt.alloc();
    let mut out = out_of(alloc, &[])?;
    let status = run(alloc, ROWS, "G2", &[], &mut out)?;
    let mut bytes = HEAD_BYTES.to_vec(alloc)?;
    for sample in [-2, i32::MIN, 1] {
        bytes.extend_from_slice(&sample.to_le_bytes())?;
    }
    assert_eq!(rt; status, Status::Done);
    assert_eq!(rt; out.written(), bytes.as_slice());
    Ok(())
}

// A text behind the rows, a column, and the answer. Nothing is written.
#[test]
fn what_is_refused(rt: HostRuntime) -> Result<(), Fail> {
    let table = [
        ("", "G3", recording(RecordingFault::NoColumn)),
        (
            "3,8\n",
            "G2",
            recording(RecordingFault::ShortRow { row: 3, fields: 2 }),
        ),
        (
            "3,8,1.5\n",
            "G2",
            recording(RecordingFault::Cell { row: 3 }),
        ),
    ];
    for (more, name, status) in table {
        let mut text = String::from_str(rt.alloc(), ROWS)?;
        text.push_str(more)?;
        let mut out = out_of(rt.alloc(), &[])?;
        let answer = run(rt.alloc(), text.as_str(), name, &[], &mut out)?;
        assert_eq!(rt; answer, status);
        assert_eq!(rt; out.written(), b"".as_slice());
    }
    Ok(())
}

// A take or a put that fails, and how many bytes are written before it.
#[test]
fn faults_of_the_outside(rt: HostRuntime) -> Result<(), Fail> {
    let none: u64 = 99_999;
    let table = [
        (0, none, Status::ReadFault, 0),
        (2, none, Status::ReadFault, 0),
        (none, 0, Status::WriteFault, 0),
        (none, 1, Status::WriteFault, 32),
    ];
    for (take, put, status, written) in table {
        let mut out = out_of(rt.alloc(), &[put])?;
        let answer = run(rt.alloc(), ROWS, "G1", &[take], &mut out)?;
        assert_eq!(rt; answer, status);
        assert_eq!(rt; out.written().len(), written);
    }
    Ok(())
}

#[test]
fn a_missing_file(rt: HostRuntime) -> Result<(), Fail> {
    let mut site = site_of(rt.alloc(), ROWS, &[])?;
    let mut out = out_of(rt.alloc(), &[])?;
    let status = column_command(rt.alloc(), "e.csv", "G1", &HEAD, &mut site, &mut out);
    assert_eq!(rt; status, Status::ReadFault);
    Ok(())
}
