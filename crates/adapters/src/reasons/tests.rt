use super::Reasons;
use std::io;
use std::io::ErrorKind;
use std::test::Fail;

// Each reason of a name is told once, and a name can't end the line.
#[test]
fn a_reason_is_told_once(rt: HostRuntime) -> Result<(), Fail> {
    let mut reasons = Reasons::new(rt.alloc(), Vec::new(rt.alloc()));
    let missing = io::Error::from_raw_os_error(2);
    reasons.tell("a\nb", &missing);
    reasons.tell("c", &missing);
    reasons.tell("a\nb", &io::Error::new(ErrorKind::ResourceBusy, "in use"));
    reasons.tell("a\nb", &missing);
    assert_eq!(rt;
        reasons.line.as_slice(),
        b"monitor: a?b: No such file or directory\nmonitor: c: No such file or directory\nmonitor: a?b: in use\n".as_slice()
    );
    Ok(())
}
