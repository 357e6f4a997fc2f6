use status::line_room::LineRoom;
use std::test::Fail;

#[test]
fn a_line_is_written_in_its_room(rt: HostRuntime) -> Result<(), Fail> {
    let mut line = LineRoom::new(rt.alloc(), 40)?;
    line.push_number(1_099_511_627_775);
    assert_eq!(rt; line.bytes(), b"1099511627775".as_slice());
    line.clear();
    line.push_signed(-8000);
    assert_eq!(rt; line.bytes(), b"-8000".as_slice());
    line.clear();
    line.push(b"held ");
    line.push_shown(b"a\tb\x7f\n\xc3\xa9");
    assert_eq!(rt; line.bytes(), b"held a?b??\xc3\xa9".as_slice());
    Ok(())
}
