use count_command::held_samples::HeldLine;
use std::test::Fail;

#[test]
fn a_line_has_the_name_and_the_number(rt: HostRuntime) -> Result<(), Fail> {
    let mut line = HeldLine::new(rt.alloc())?;
    for (name, n, text) in [
        ("G1", 1, b"held G1 1\n".as_slice()),
        (
            "pier_3-east",
            65_536,
            b"held pier_3-east 65536\n".as_slice(),
        ),
        (
            "abcdefghijklmnopqrstuvwxyz012345",
            18_446_744_073_709_551_615,
            b"held abcdefghijklmnopqrstuvwxyz012345 18446744073709551615\n".as_slice(),
        ),
    ] {
        assert_eq!(rt; line.held(name, n), text);
    }
    Ok(())
}

#[test]
fn so_has_a_line_of_what_was_seen(rt: HostRuntime) -> Result<(), Fail> {
    let mut line = HeldLine::new(rt.alloc())?;
    for (name, n, text) in [
        ("G1", 0, b"seen G1 0\n".as_slice()),
        (
            "abcdefghijklmnopqrstuvwxyz012345",
            18_446_744_073_709_551_615,
            b"seen abcdefghijklmnopqrstuvwxyz012345 18446744073709551615\n".as_slice(),
        ),
    ] {
        assert_eq!(rt; line.seen(name, n), text);
    }
    assert_eq!(rt; line.held("G1", 9), b"held G1 9\n".as_slice());
    Ok(())
}
