//! A store that holds the levels 8 13 8 13 of one gauge, and stores that a report refuses.

use outside::station::MomentStation;
use segment_store::Damage;
use status::{Status, StoreFault};
use std::alloc::{AllocError, Global};

/// One gauge, with one detail.
pub const CONFIG: &str = "\
[grid]
classes = 16
width = 2
low = -8000
reference = 8
[[gauge]]
name = \"G1\"
file = \"g1.sgrc\"
num = 1000
[[detail]]
name = \"W1\"
gauge = \"G1\"
kind = \"normal\"
category = 71
gamma = 100
";

/// A store of version 1 up to its first gate, for one gauge with the gain 1000/1.
pub const HEAD: &[u8] = &[
    1, 83, 71, 83, 84, 1, 0, 1, 0, 16, 0, 2, 255, 255, 255, 255, 255, 255, 224, 192, 0, 8, 17, 17,
    17, 17, 17, 17, 17, 17, 17, 17, 17, 17, 17, 17, 17, 17, 0, 0, 39, 16, 0, 0, 0, 0, 0, 0, 3, 232,
    0, 0, 0, 1, 0, 0, 0, 0, 0, 0, 0, 0,
];

/// The levels 8 13 8 13, with length and digest.
pub const BODY: &[u8] = &[
    0, 0, 0, 158, 0, 0, 0, 0, 0, 0, 0, 0, 0, 0, 0, 0, 0, 0, 0, 0, 0, 4, 0, 0, 0, 0, 0, 0, 0, 4, 0,
    0, 0, 0, 0, 0, 0, 0, 0, 0, 0, 0, 0, 0, 0, 0, 0, 0, 0, 0, 0, 0, 0, 4, 0, 8, 0, 13, 0, 8, 0, 13,
    0, 2, 0, 8, 0, 13, 0, 0, 0, 1, 0, 8, 0, 13, 0, 0, 0, 0, 0, 0, 0, 1, 0, 5, 0, 9, 0, 0, 0, 0, 0,
    0, 0, 2, 0, 10, 0, 0, 0, 0, 0, 0, 0, 2, 0, 11, 0, 0, 0, 0, 0, 0, 0, 2, 0, 12, 0, 0, 0, 0, 0, 0,
    0, 2, 0, 13, 0, 0, 0, 0, 0, 0, 0, 2, 0, 1, 0, 13, 0, 0, 0, 0, 0, 0, 0, 1, 0, 0, 0, 1, 0, 5, 0,
    0, 0, 0, 0, 0, 0, 3, 72, 16, 120, 197, 133, 148, 197, 27, 136, 52, 175, 66, 237, 201, 91, 202,
    8, 77, 59, 103, 26, 192, 218, 197, 112, 76, 66, 255, 4, 93, 59, 4,
];

/// A call or a put that never comes.
const NONE: u64 = 99_999;

/// A store, the call of the station and the put of the output that fail, the answer and its line.
pub struct Refused {
    pub parts: &'static [&'static [u8]],
    pub call: u64,
    pub put: u64,
    pub status: Status,
    pub line: &'static str,
}

pub const REFUSED: &[Refused] = &[
    Refused {
        parts: &[],
        call: NONE,
        put: NONE,
        status: Status::Store(StoreFault::NotAStore),
        line: "store: not a store\n",
    },
    Refused {
        parts: &[HEAD, &[1], &[0]],
        call: NONE,
        put: NONE,
        status: Status::Store(StoreFault::Damaged {
            index: 0,
            damage: Damage::Cut { size: 64 },
        }),
        line: "store: damaged at 0\n",
    },
    Refused {
        parts: &[HEAD, &[1], BODY, &[0]],
        call: 1,
        put: NONE,
        status: Status::DiskFault,
        line: "station fault\n",
    },
    Refused {
        parts: &[HEAD, &[1], BODY, &[0]],
        call: NONE,
        put: 0,
        status: Status::WriteFault,
        line: "write fault\n",
    },
];

/// A station over these bytes, of which these calls fail.
pub fn station_of(
    alloc: Global,
    parts: &[&[u8]],
    failing: &[u64],
) -> Result<MomentStation, AllocError> {
    let mut image = Vec::new(alloc);
    for part in parts {
        image.extend_from_slice(part)?;
    }
    Ok(MomentStation::new(alloc, image, failing.to_vec(alloc)?))
}
