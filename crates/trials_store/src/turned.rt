use crate::stores::{WHOLE, held, stored_in};
use segment_store::{Damage, ResumeFault};
use sha2::{Digest, Sha256};
use std::alloc::Global;
use std::process::Abort;
use std::test::Fail;
use store_bytes::store_head::Field;

// The bytes of a store of this version that holds the standard's example: the head, a gate, the
// length 308, the body, its digest from 375 on, and a closed gate.
fn stored_whole(rt: &impl Abort, alloc: Global, version: u8) -> Result<Vec<u8>, Fail> {
    let bytes = stored_in(rt, alloc, version, &[WHOLE])?;
    assert_eq!(rt; bytes.len(), 408);
    Ok(bytes)
}

// A byte of the head, the number in which it stands, what becomes of that number where all bits of
// the byte are turned, and what the setup has.
const NUMBERS: &[(usize, Field, i64, i64)] = &[
    (6, Field::Gauges, 65281, 1),
    (7, Field::Gauges, 254, 1),
    (8, Field::Classes, 65296, 16),
    (9, Field::Classes, 239, 16),
    (10, Field::Width, 65282, 2),
    (11, Field::Width, 253, 2),
    (12, Field::Low, 72057594037919936, -8000),
    (13, Field::Low, -71776119061225280, -8000),
    (14, Field::Low, -280375465090880, -8000),
    (15, Field::Low, -1095216668480, -8000),
    (16, Field::Low, -4278198080, -8000),
    (17, Field::Low, -16719680, -8000),
    (18, Field::Low, -57408, -8000),
    (19, Field::Low, -8129, -8000),
    (20, Field::Reference, 65288, 8),
    (21, Field::Reference, 247, 8),
    (42, Field::Num(0), -72057594037926936, 1000),
    (43, Field::Num(0), 71776119061218280, 1000),
    (44, Field::Num(0), 280375465083880, 1000),
    (45, Field::Num(0), 1095216661480, 1000),
    (46, Field::Num(0), 4278191080, 1000),
    (47, Field::Num(0), 16712680, 1000),
    (48, Field::Num(0), 64744, 1000),
    (49, Field::Num(0), 791, 1000),
    (50, Field::Den(0), 4278190081, 1),
    (51, Field::Den(0), 16711681, 1),
    (52, Field::Den(0), 65281, 1),
    (53, Field::Den(0), 254, 1),
    (54, Field::Offset(0), -72057594037927936, 0),
    (55, Field::Offset(0), 71776119061217280, 0),
    (56, Field::Offset(0), 280375465082880, 0),
    (57, Field::Offset(0), 1095216660480, 0),
    (58, Field::Offset(0), 4278190080, 0),
    (59, Field::Offset(0), 16711680, 0),
    (60, Field::Offset(0), 65280, 0),
    (61, Field::Offset(0), 255, 0),
];

fn differs(place: usize) -> ResumeFault {
    for &(at, field, kept, found) in NUMBERS {
        if at == place {
            return ResumeFault::Differs { field, kept, found };
        }
    }
    ResumeFault::NotAStore
}

// The digest covers the length and the body.
fn digests(rt: &impl Abort, bytes: &[u8]) -> Damage {
    assert!(rt; bytes.len() == 408);
    let mut kept = [0; 32];
    kept.copy_from_slice(&bytes[375..407]);
    let found = Sha256::digest(&bytes[63..375]);
    Damage::Digest { kept, found }
}

fn damage_of(rt: &impl Abort, place: usize, bytes: &[u8]) -> Damage {
    match place {
        63 => Damage::Length(4278190388),
        64 => Damage::Length(16711988),
        65 => Damage::Length(65076),
        66 => Damage::Cut { size: 408 },
        _ => digests(rt, bytes),
    }
}

// What resuming answers to a store of this version with this byte turned. The id and the period are
// those of the recording, and no fault of the store.
fn due(rt: &impl Abort, version: u8, place: usize, bytes: &[u8]) -> Result<u64, ResumeFault> {
    match place {
        0..=4 => Err(ResumeFault::NotAStore),
        5 => Err(ResumeFault::Version(!version)),
        8..=9 if version == 1 => Err(ResumeFault::NotAStore),
        6..=21 | 42..=61 => Err(differs(place)),
        22..=41 | 407 => Ok(9),
        62 => Ok(0),
        _ => Err(ResumeFault::Damaged {
            index: 0,
            damage: damage_of(rt, place, bytes),
        }),
    }
}

fn turned(rt: &impl Abort, alloc: Global, store: &[u8], place: usize) -> Result<Vec<u8>, Fail> {
    let mut bytes = store.to_vec(alloc)?;
    assert!(rt; place < bytes.len());
    bytes[place] = !bytes[place];
    Ok(bytes)
}

#[test]
fn each_byte_of_a_store_is_turned(rt: HostRuntime) -> Result<(), Fail> {
    let alloc = rt.alloc();
    for version in 1..3u8 {
        let store = stored_whole(&rt, alloc, version)?;
        for place in 0..408usize {
            let bytes = turned(&rt, alloc, &store, place)?;
            let answer = due(&rt, version, place, &bytes);
            assert_eq!(rt;
                held(alloc, bytes)?,
                answer,
                "version {version}, byte {place}"
            );
        }
    }
    Ok(())
}
