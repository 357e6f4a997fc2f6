use super::NamedFile;
use crate::reasons::Reasons;
use outside::{Failed, Source};
use std::fs;
use std::test::Fail;

const NAME: &str = "a_configuration_of_the_test";

// A file that is missing fails each time, and is found once it is there.
#[test]
fn a_file_is_opened_when_it_is_read(rt: HostRuntime) -> Result<(), Fail> {
    let mut source = NamedFile::new(&rt, NAME, Reasons::new(rt.alloc(), rt.stderr()));
    let mut buf = [0u8; 3];
    assert_eq!(rt; source.take(&mut buf), Err(Failed));
    assert_eq!(rt; source.faults, 1);
    fs::write(&rt, NAME, "abcde")?;
    assert_eq!(rt; source.take(&mut buf), Ok(3));
    assert_eq!(rt; buf, *b"abc");
    assert_eq!(rt; source.take(&mut buf), Ok(2));
    assert_eq!(rt; source.take(&mut buf), Ok(0));
    assert_eq!(rt; source.faults, 1);
    fs::remove_file(&rt, NAME)?;
    Ok(())
}
