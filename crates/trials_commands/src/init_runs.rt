use init_command::init_command;
use outside::station::{MomentStation, Torn};
use outside::{MapSite, SteadySource};
use site_config::{ConfigFault, Key, KeyName, Part};
use status::{RecordingFault, Status, StoreFault};
use std::alloc::{AllocError, Global};
use std::collections::BTreeMap;
use std::test::Fail;

const CONFIG: &str = "[grid]\nclasses = 16\nwidth = 2\nlow = -8000\nreference = 8\n\
    [count]\nblock = 4\nworkers = 2\n[[gauge]]\nname = \"G1\"\nfile = \"g1.sgrc\"\nnum = 1000\n";

const HEAD: &[u8] = &[
    b'S', b'G', b'R', b'C', 1, 0, 0, 0, 0x11, 0x11, 0x11, 0x11, 0x11, 0x11, 0x11, 0x11, 0x11, 0x11,
    0x11, 0x11, 0x11, 0x11, 0x11, 0x11, 0x10, 0x27, 0, 0, 0, 0, 0, 0,
];

// The store of this configuration and recording, byte for byte.
const STORE: &[u8] = &[
    1, b'S', b'G', b'S', b'T', 2, 0, 1, 0, 16, 0, 2, 0xff, 0xff, 0xff, 0xff, 0xff, 0xff, 0xe0,
    0xc0, 0, 8, 0x11, 0x11, 0x11, 0x11, 0x11, 0x11, 0x11, 0x11, 0x11, 0x11, 0x11, 0x11, 0x11, 0x11,
    0x11, 0x11, 0, 0, 0x27, 0x10, 0, 0, 0, 0, 0, 0, 3, 0xe8, 0, 0, 0, 1, 0, 0, 0, 0, 0, 0, 0, 0, 0,
];

// A station with these bytes, of which some calls fail.
fn station_of(alloc: Global, image: &[u8], failing: &[u64]) -> Result<MomentStation, AllocError> {
    let image = image.to_vec(alloc)?;
    Ok(MomentStation::new(alloc, image, failing.to_vec(alloc)?))
}

// What a run of `init` answers.
fn init(
    alloc: Global,
    config: &str,
    head: &[u8],
    station: &mut MomentStation,
) -> Result<Status, AllocError> {
    let mut files = BTreeMap::new(alloc);
    files.insert(String::from_str(alloc, "g1.sgrc")?, head.to_vec(alloc)?)?;
    let mut site = MapSite::new(alloc, files, 7, Vec::new(alloc));
    let mut source = SteadySource::new(config.as_bytes().to_vec(alloc)?);
    Ok(init_command(alloc, &mut source, &mut site, station))
}

#[test]
fn a_store_is_made_and_told(rt: HostRuntime) -> Result<(), Fail> {
    let alloc = rt.alloc();
    let mut station = station_of(alloc, &[], &[])?;
    assert_eq!(rt; init(alloc, CONFIG, HEAD, &mut station)?, Status::Done);
    assert_eq!(rt; station.told(), b"init 1\n".as_slice());
    let left = station.crash(alloc, station.calls(), Torn::Old)?;
    assert_eq!(rt; left.as_slice(), STORE);
    Ok(())
}

#[test]
fn what_is_refused_is_told(rt: HostRuntime) -> Result<(), Fail> {
    let alloc = rt.alloc();
    let key = Key {
        part: Part::Grid,
        index: 0,
        name: KeyName::Itself,
    };
    let full = Status::Store(StoreFault::NotEmpty { size: 63 });
    let magic = Status::Recording {
        gauge: 0,
        fault: RecordingFault::Magic,
    };
    let missing = Status::Config(ConfigFault::Missing(key));
    let rows: [(&str, &[u8], &[u8], Status, &str); 4] = [
        (CONFIG, HEAD, STORE, full, "store: not empty, 63 bytes\n"),
        (CONFIG, STORE, STORE, magic, "recording G1: no SGRC\n"),
        ("", STORE, STORE, missing, "config: missing grid\n"),
        (
            "[grid",
            STORE,
            STORE,
            Status::Config(ConfigFault::NotToml),
            "config: not TOML\n",
        ),
    ];
    for (config, head, image, wanted, line) in rows {
        let mut station = station_of(alloc, image, &[])?;
        assert_eq!(rt; init(alloc, config, head, &mut station)?, wanted);
        assert_eq!(rt; station.told(), line.as_bytes());
    }
    Ok(())
}

// The seven calls of the disk, and the telling of the line; then the telling of the fault.
#[test]
fn a_disk_that_fails(rt: HostRuntime) -> Result<(), Fail> {
    let alloc = rt.alloc();
    for call in 0..8u64 {
        let mut station = station_of(alloc, &[], &[call])?;
        let status = init(alloc, CONFIG, HEAD, &mut station)?;
        assert_eq!(rt; status, Status::DiskFault);
        assert_eq!(rt; station.told(), b"station fault\n".as_slice());
    }
    Ok(())
}
