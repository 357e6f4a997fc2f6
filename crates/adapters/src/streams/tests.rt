use super::{FileSource, OutputSink};
use crate::reasons::Reasons;
use outside::{Sink, Source};
use std::fs;
use std::fs::File;
use std::io::Cursor;
use std::test::Fail;

const NAME: &str = "a_file_of_the_test";

#[test]
fn a_file_is_read_to_its_end(rt: HostRuntime) -> Result<(), Fail> {
    fs::write(&rt, NAME, "abcde")?;
    let mut source = FileSource::new(File::open(&rt, NAME)?);
    let mut buf = [0u8; 3];
    assert_eq!(rt; source.take(&mut buf), Ok(3));
    assert_eq!(rt; buf, *b"abc");
    assert_eq!(rt; source.take(&mut buf), Ok(2));
    assert_eq!(rt; [buf[0], buf[1]], *b"de");
    assert_eq!(rt; source.take(&mut buf), Ok(0));
    assert_eq!(rt; source.faults, 0);
    fs::remove_file(&rt, NAME)?;
    Ok(())
}

// An output of twelve bytes: the last byte of the second text finds no room.
#[test]
fn an_output_is_written_until_it_is_full(rt: HostRuntime) -> Result<(), Fail> {
    let reasons = Reasons::new(rt.alloc(), Vec::new(rt.alloc()));
    let mut sink = OutputSink::new(Cursor::new([0u8; 12]), "an output", reasons);
    assert!(rt; sink.put(b"written\n").is_ok());
    assert_eq!(rt; sink.faults, 0);
    assert!(rt; sink.put(b"lost\n").is_err());
    assert_eq!(rt; sink.faults, 1);
    assert_eq!(rt; sink.out.into_inner(), *b"written\nlost");
    Ok(())
}
