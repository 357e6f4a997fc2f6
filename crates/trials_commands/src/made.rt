use crate::sites::recording_of;
use outside::Source;
use recording::Synth;
use std::alloc::Global;
use std::process::Abort;
use std::test::Fail;

/// The report of the recording below, by an independent count.
pub const MADE_REPORT: &str = "gauge G1
samples 100 used 17 missing 0 refused 83
rainflow
14.0 1.0
13.0 0.5
11.0 1.0
8.0 1.0
7.0 1.0
5.0 1.0
1.0 1.0
matrix
1 15 1.0
2 9 1.0
2 13 1.0
2 15 0.5
3 11 1.0
7 12 1.0
8 9 1.0
crossings
2 1
3 4
4 5
5 5
6 5
7 5
8 5
9 6
10 4
11 4
12 3
13 2
14 1
15 1
peaks
9 2
11 1
12 1
13 1
15 1
valleys
1 1
2 2
3 1
7 1
ranges
14.0 0.5
13.0 0.5
12.0 0.5
11.0 0.5
10.0 0.5
9.0 0.5
8.0 1.0
7.0 0.5
5.0 1.0
2.0 0.5
1.0 0.5
detail W1 G1 0 0/100431314774943243998824192000000000 0.000000000
";

/// A recording of a hundred samples that are made from the number 0.
pub fn made_recording(rt: &impl Abort, alloc: Global) -> Result<Vec<u8>, Fail> {
    let mut body = [0; 400];
    let taken = Synth::new(0, 100).take(&mut body)?;
    assert_eq!(rt; taken, 400);
    let mut file = recording_of(alloc, 0x11, &[])?;
    file.extend_from_slice(&body)?;
    Ok(file)
}
