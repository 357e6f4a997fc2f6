use outside::station::MomentStation;
use recount::What;
use segment_store::Damage;
use site_config::{ConfigFault, Key, KeyName, Part};
use status::fault_lines::{FaultLine, tell_fault, tell_no_memory};
use status::{RecordingFault, Status, StoreFault};
use std::alloc::{AllocError, Global};
use std::test::Fail;
use store_bytes::store_head::Field;

fn config(fault: ConfigFault) -> Status {
    Status::Config(fault)
}

fn key(part: Part, index: u16, name: KeyName) -> Key {
    Key { part, index, name }
}

fn differs(field: Field, kept: i64, found: i64) -> Status {
    Status::Store(StoreFault::Differs { field, kept, found })
}

fn damaged(index: u64, damage: Damage) -> Status {
    Status::Store(StoreFault::Damaged { index, damage })
}

fn recording(fault: RecordingFault) -> Status {
    Status::Recording { gauge: 3, fault }
}

fn audit(what: What) -> Status {
    Status::Differs {
        gauge: 3,
        what,
        held: 9,
        found: 10,
    }
}

// The first row whose status is told by another line of the gauge G1.
fn first_other(alloc: Global, rows: &[(Status, &str)]) -> Result<Option<usize>, AllocError> {
    let mut line = FaultLine::new(alloc, 32)?;
    for row in 0..rows.len() {
        let (status, text) = rows[row];
        let told = format!(in alloc; "{text}\n")?;
        line.write(status, "G1");
        if line.bytes() != told.as_bytes() {
            return Ok(Some(row));
        }
    }
    Ok(None)
}

#[test]
fn configurations(rt: HostRuntime) -> Result<(), Fail> {
    let low = key(Part::Grid, 0, KeyName::Low);
    let num = key(Part::Gauge, 0, KeyName::Num);
    let detail = key(Part::Detail, 2, KeyName::Itself);
    let rows = [
        (config(ConfigFault::NotToml), "config: not TOML"),
        (config(ConfigFault::TooLong), "config: too long"),
        (
            config(ConfigFault::Missing(low)),
            "config: missing grid low",
        ),
        (
            config(ConfigFault::Kind(num)),
            "config: wrong kind gauge 0 num",
        ),
        (
            config(ConfigFault::Limit(detail)),
            "config: out of range detail 2",
        ),
        (
            config(ConfigFault::Missing(key(Part::Count, 0, KeyName::Itself))),
            "config: missing count",
        ),
        (
            config(ConfigFault::Double {
                part: Part::Gauge,
                first: 0,
                second: 31,
            }),
            "config: double gauge 0 31",
        ),
        (
            config(ConfigFault::NoSuchGauge { detail: 63 }),
            "config: no such gauge, detail 63",
        ),
    ];
    assert_eq!(rt; first_other(rt.alloc(), &rows)?, None);
    Ok(())
}

// The digests are those of SHA-256 over nothing and over `abc`.
const KEPT: [u8; 32] = [
    0xe3, 0xb0, 0xc4, 0x42, 0x98, 0xfc, 0x1c, 0x14, 0x9a, 0xfb, 0xf4, 0xc8, 0x99, 0x6f, 0xb9, 0x24,
    0x27, 0xae, 0x41, 0xe4, 0x64, 0x9b, 0x93, 0x4c, 0xa4, 0x95, 0x99, 0x1b, 0x78, 0x52, 0xb8, 0x55,
];

const FOUND: [u8; 32] = [
    0xba, 0x78, 0x16, 0xbf, 0x8f, 0x01, 0xcf, 0xea, 0x41, 0x41, 0x40, 0xde, 0x5d, 0xae, 0x22, 0x23,
    0xb0, 0x03, 0x61, 0xa3, 0x96, 0x17, 0x7a, 0x9c, 0xb4, 0x10, 0xff, 0x61, 0xf2, 0x00, 0x15, 0xad,
];

#[test]
fn stores(rt: HostRuntime) -> Result<(), Fail> {
    let rows = [
        (Status::Store(StoreFault::NotAStore), "store: not a store"),
        (Status::Store(StoreFault::Version(3)), "store: version 3"),
        (
            Status::Store(StoreFault::NotEmpty { size: 63 }),
            "store: not empty, 63 bytes",
        ),
        (differs(Field::Gauges, 2, 1), "store: gauges was 2, is 1"),
        (
            differs(Field::Low, -8129, -8000),
            "store: low was -8129, is -8000",
        ),
        (
            differs(Field::Offset(31), i64::MIN, i64::MAX),
            "store: offset 31 was -9223372036854775808, is 9223372036854775807",
        ),
        (damaged(7, Damage::Cut { size: 62 }), "store: damaged at 7"),
        (damaged(7, Damage::Length(9)), "store: damaged at 7"),
        (
            damaged(
                u64::MAX,
                Damage::Digest {
                    kept: KEPT,
                    found: FOUND,
                },
            ),
            "store: damaged at 18446744073709551615, kept \
             e3b0c44298fc1c149afbf4c8996fb92427ae41e4649b934ca495991b7852b855, found \
             ba7816bf8f01cfea414140de5dae2223b00361a396177a9cb410ff61f20015ad",
        ),
    ];
    assert_eq!(rt; first_other(rt.alloc(), &rows)?, None);
    Ok(())
}

#[test]
fn recordings(rt: HostRuntime) -> Result<(), Fail> {
    let rows = [
        (recording(RecordingFault::Short), "recording G1: short"),
        (recording(RecordingFault::Magic), "recording G1: no SGRC"),
        (
            recording(RecordingFault::Version(2)),
            "recording G1: version 2",
        ),
        (recording(RecordingFault::NotZero), "recording G1: not zero"),
        (
            recording(RecordingFault::Id {
                kept: [0x11; 16],
                found: [0xab; 16],
            }),
            "recording G1: id was 11111111111111111111111111111111, is \
             abababababababababababababababab",
        ),
        (
            recording(RecordingFault::Period {
                kept: 10000,
                found: u32::MAX,
            }),
            "recording G1: period was 10000, is 4294967295",
        ),
        (
            recording(RecordingFault::Fewer { held: 9, there: 4 }),
            "recording G1: 9 held, 4 there",
        ),
        (
            recording(RecordingFault::NoColumn),
            "recording G1: no column",
        ),
        (
            recording(RecordingFault::ShortRow { row: 3, fields: 2 }),
            "recording G1: row 3 has 2 fields",
        ),
        (
            recording(RecordingFault::Cell { row: u64::MAX }),
            "recording G1: row 18446744073709551615 is no number",
        ),
        (
            Status::Torn { gauge: 3, bytes: 2 },
            "recording G1: ends in 2 odd bytes",
        ),
        (Status::TooLong { gauge: 3 }, "recording G1: too long"),
        (audit(What::Used), "audit G1: used held 9, recount 10"),
        (audit(What::Missing), "audit G1: missing held 9, recount 10"),
        (audit(What::Refused), "audit G1: refused held 9, recount 10"),
        (
            audit(What::Cell(4, 13)),
            "audit G1: cell 4 13 held 9, recount 10",
        ),
    ];
    assert_eq!(rt; first_other(rt.alloc(), &rows)?, None);
    Ok(())
}

#[test]
fn faults_of_the_outside(rt: HostRuntime) -> Result<(), Fail> {
    let rows = [
        (
            Status::Usage,
            "usage: monitor table FILE | init | count [--workers N] | report | audit | \
             demo [--seed N] [--samples N] [--workers N] | repeat | \
             column FILE NAME ID PERIOD | sheet | window START FROM TO | \
             compact | watch [--workers N]",
        ),
        (Status::ReadFault, "read fault"),
        (Status::WriteFault, "write fault"),
        (Status::DiskFault, "station fault"),
        (Status::OutOfMemory, "out of memory"),
    ];
    assert_eq!(rt; first_other(rt.alloc(), &rows)?, None);
    Ok(())
}

// A file's name can't end the line, and begin another one.
#[test]
fn one_line_is_told(rt: HostRuntime) -> Result<(), Fail> {
    let alloc = rt.alloc();
    let mut station = MomentStation::new(alloc, vec![in alloc]?, vec![in alloc; 1]?);
    let mut line = FaultLine::new(alloc, 12)?;
    let torn = Status::Torn { gauge: 0, bytes: 1 };
    tell_fault(&mut station, &mut line, Status::Done, "");
    tell_fault(&mut station, &mut line, torn, "x\nheld G1 9\n");
    tell_fault(&mut station, &mut line, Status::WriteFault, "");
    tell_no_memory(&mut station);
    let told = b"recording x?held G1 9?: ends in 1 odd bytes\nout of memory\n";
    assert_eq!(rt; station.told(), told.as_slice());
    Ok(())
}
