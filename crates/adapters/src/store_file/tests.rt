use super::FileStation;
use crate::reasons::Reasons;
use crate::store_access::StoreAccess;
use outside::Failed;
use outside::station::Station;
use std::fs;
use std::test::Fail;

const NAME: &str = "a_store_of_the_test";

fn station_of<'a>(
    rt: &'a HostRuntime,
    name: &'static str,
    access: StoreAccess,
) -> FileStation<'a, HostRuntime, Vec<u8>> {
    let reasons = Reasons::new(rt.alloc(), Vec::new(rt.alloc()));
    FileStation::new(rt, name, access, Vec::new(rt.alloc()), reasons)
}

// A store that is missing has no bytes and can't be read. It is made by a command that makes it.
#[test]
fn a_store_is_a_file(rt: HostRuntime) -> Result<(), Fail> {
    let mut buf = [0u8; 3];
    let mut missing = station_of(&rt, NAME, StoreAccess::Write);
    assert_eq!(rt; missing.size(), Ok(0));
    assert_eq!(rt; missing.read_at(0, &mut buf), Err(Failed));
    assert_eq!(rt; missing.sync(), Ok(()));
    let mut station = station_of(&rt, NAME, StoreAccess::Make);
    assert_eq!(rt; station.size(), Ok(0));
    assert_eq!(rt; station.write_at(0, b"abcde"), Ok(()));
    assert_eq!(rt; station.write_at(1, b"xy"), Ok(()));
    assert_eq!(rt; station.sync(), Ok(()));
    assert_eq!(rt; station.size(), Ok(5));
    assert_eq!(rt; station.read_at(1, &mut buf), Ok(()));
    assert_eq!(rt; buf, *b"xyd");
    assert_eq!(rt; station.read_at(3, &mut buf), Err(Failed));
    assert_eq!(rt; station.tell(b"a line\n"), Ok(()));
    assert_eq!(rt; station.line.as_slice(), b"a line\n".as_slice());
    assert_eq!(rt; station.faults, 1);
    assert_eq!(rt; fs::read(&rt, NAME)?.as_slice(), b"axyde".as_slice());
    fs::remove_file(&rt, NAME)?;
    Ok(())
}

const HELD: &str = "a_store_that_is_held";

// While one writes a store another can't, and anyone reads it. Who reads it can't write it.
#[test]
fn a_store_is_held_by_one_writer(rt: HostRuntime) -> Result<(), Fail> {
    {
        let mut station = station_of(&rt, HELD, StoreAccess::Make);
        assert_eq!(rt; station.write_at(0, b"abc"), Ok(()));
        assert_eq!(rt;
            station_of(&rt, HELD, StoreAccess::Make).size(),
            Err(Failed)
        );
        assert_eq!(rt;
            station_of(&rt, HELD, StoreAccess::Write).sync(),
            Err(Failed)
        );
        let mut reader = station_of(&rt, HELD, StoreAccess::Read);
        assert_eq!(rt; reader.sync(), Ok(()));
        assert_eq!(rt; reader.size(), Ok(3));
        assert_eq!(rt; reader.write_at(0, b"x"), Err(Failed));
    }
    assert_eq!(rt; station_of(&rt, HELD, StoreAccess::Write).size(), Ok(3));
    fs::remove_file(&rt, HELD)?;
    Ok(())
}

// A folder can't be a store, neither to who writes nor to who reads it.
#[test]
fn a_folder_is_no_store(rt: HostRuntime) {
    let mut station = station_of(&rt, ".", StoreAccess::Make);
    assert_eq!(rt; station.size(), Err(Failed));
    assert_eq!(rt; station.write_at(0, b"a"), Err(Failed));
    assert_eq!(rt; station.faults, 2);
    assert_eq!(rt; station_of(&rt, ".", StoreAccess::Read).size(), Err(Failed));
}
