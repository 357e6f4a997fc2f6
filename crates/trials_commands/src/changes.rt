use crate::sites::{
    COMMON, EXAMPLE, EXAMPLE_REPORT, Word, count, image, made, recording_of, run_by, site_of,
};
use audit_command::audit_command;
use outside::station::MomentStation;
use outside::{SteadySource, VecSink};
use recount::What;
use status::{RecordingFault, Status};
use std::alloc::Global;
use std::process::Abort;
use std::sync::Wait;
use std::test::Fail;
use std::thread::Threads;

// A store of this version that holds the standard's example.
fn store_of<R: Abort + AllocGlobal + Threads + Wait + Sync>(
    rt: &R,
    version: u8,
) -> Result<Vec<u8>, Fail> {
    let alloc = rt.alloc();
    let mut bytes = made(rt, alloc)?;
    assert!(rt; bytes.len() == 63);
    bytes[5] = version;
    let run = count(rt, recording_of(alloc, 0x11, EXAMPLE)?, bytes)?;
    assert_eq!(rt; run.status, Status::Done);
    assert_eq!(rt; run.out.written(), EXAMPLE_REPORT.as_bytes());
    let store = image(alloc, &run.station)?;
    assert!(rt; store.len() == 408);
    assert_eq!(rt; store[5], version);
    Ok(store)
}

// What is answered where this byte of the id is turned.
fn id_fault(rt: &impl Abort, byte: usize) -> RecordingFault {
    let mut kept = [0x11; 16];
    assert!(rt; byte < 16);
    kept[byte] = 0xee;
    let found = [0x11; 16];
    RecordingFault::Id { kept, found }
}

// The places of the period of 10000 microseconds, and what it becomes.
const PERIODS: &[(usize, u32)] = &[
    (38, 0xff00_2710),
    (39, 0x00ff_2710),
    (40, 0xd810),
    (41, 0x27ef),
];

fn check_turned<R: Abort + AllocGlobal + Threads + Wait + Sync>(
    rt: &R,
    word: Word,
    store: &[u8],
    place: usize,
    fault: RecordingFault,
) -> Result<(), Fail> {
    let alloc = rt.alloc();
    let mut bytes = store.to_vec(alloc)?;
    assert!(rt; place < bytes.len());
    bytes[place] = !bytes[place];
    let run = run_by(rt, word, recording_of(alloc, 0x11, EXAMPLE)?, bytes)?;
    assert_eq!(rt;
        run.status,
        Status::Recording { gauge: 0, fault },
        "byte {place}"
    );
    assert_eq!(rt; run.out.written(), b"".as_slice());
    Ok(())
}

// The id and the period in a store's head are those of the recording that it was made for. A store
// of version 1 is carried on as such.
fn check_each_turned<R: Abort + AllocGlobal + Threads + Wait + Sync>(
    rt: &R,
    word: Word,
) -> Result<(), Fail> {
    for version in 1..3u8 {
        let store = store_of(rt, version)?;
        for byte in 0..16usize {
            check_turned(rt, word, &store, 22 + byte, id_fault(rt, byte))?;
        }
        for &(place, kept) in PERIODS {
            let found = 10_000;
            check_turned(
                rt,
                word,
                &store,
                place,
                RecordingFault::Period { kept, found },
            )?;
        }
    }
    Ok(())
}

#[test]
fn each_byte_of_the_id_and_the_period_is_turned(rt: HostRuntime) -> Result<(), Fail> {
    check_each_turned(&rt, Word::Count)?;
    check_each_turned(&rt, Word::Watch)
}

fn audit(
    alloc: Global,
    raws: &[i32],
    image: Vec<u8>,
) -> Result<(Status, MomentStation, VecSink), Fail> {
    let mut site = site_of(alloc, recording_of(alloc, 0x11, raws)?)?;
    let mut station = MomentStation::new(alloc, image, Vec::new(alloc));
    let mut config = SteadySource::new(COMMON.as_bytes().to_vec(alloc)?);
    let mut out = VecSink::new(alloc, 200, Vec::new(alloc))?;
    let status = audit_command(alloc, &mut config, &mut site, &mut station, &mut out);
    Ok((status, station, out))
}

// The 5 becomes a 6, and its half cycle to the least level another one.
#[test]
fn a_held_sample_is_rewritten(rt: HostRuntime) -> Result<(), Fail> {
    let alloc = rt.alloc();
    let store = store_of(&rt, 2)?;
    let (status, station, out) = audit(alloc, EXAMPLE, store.as_slice().to_vec(alloc)?)?;
    assert_eq!(rt; status, Status::Done);
    assert_eq!(rt; station.told(), b"".as_slice());
    assert_eq!(rt; out.written(), b"audit G1 same\n".as_slice());
    let (status, station, out) = audit(alloc, &[-2, 1, -3, 6, -1, 3, -4, 4, -2], store)?;
    let other = Status::Differs {
        gauge: 0,
        what: What::Cell(4, 13),
        held: 1,
        found: 0,
    };
    assert_eq!(rt; status, other);
    assert_eq!(rt;
        station.told(),
        b"audit G1: cell 4 13 held 1, recount 0\n".as_slice()
    );
    assert_eq!(rt; out.written(), b"".as_slice());
    Ok(())
}
