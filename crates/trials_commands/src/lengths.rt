use crate::sites::{EXAMPLE, Word, held, image, made, recording_of, run_by};
use status::{RecordingFault, Status};
use std::process::Abort;
use std::sync::Wait;
use std::test::Fail;
use std::thread::Threads;

fn status_of(length: u64) -> Status {
    match length {
        0..=31 => Status::Recording {
            gauge: 0,
            fault: RecordingFault::Short,
        },
        _ if length % 4 > 0 => Status::Torn {
            gauge: 0,
            bytes: (length % 4) as u8,
        },
        _ => Status::Done,
    }
}

fn check_cut<R: Abort + AllocGlobal + Threads + Wait + Sync>(
    rt: &R,
    word: Word,
    length: u64,
) -> Result<(), Fail> {
    let alloc = rt.alloc();
    let mut file = recording_of(alloc, 0x11, EXAMPLE)?;
    assert_eq!(rt; file.len(), 68);
    file.truncate(length as usize);
    let run = run_by(rt, word, file, made(rt, alloc)?)?;
    assert_eq!(rt; run.status, status_of(length), "{word:?}, {length} bytes");
    let whole = length.saturating_sub(32) / 4;
    assert_eq!(rt;
        held(alloc, image(alloc, &run.station)?)?,
        whole,
        "{word:?}, {length} bytes"
    );
    let is_printed = !run.out.written().is_empty();
    assert_eq!(rt;
        is_printed,
        run.status == Status::Done,
        "{word:?}, {length} bytes"
    );
    Ok(())
}

#[test]
fn every_length_of_a_recording(rt: HostRuntime) -> Result<(), Fail> {
    for length in 0..68 {
        check_cut(&rt, Word::Count, length)?;
        check_cut(&rt, Word::Watch, length)?;
    }
    Ok(())
}
