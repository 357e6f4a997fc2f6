use outside::Failed;
use outside::station::{MomentStation, Station, Torn};
use std::alloc::Global;
use std::test::Fail;

// Eight calls over a store of four bytes. The last reads past the end.
fn eight_calls(station: &mut MomentStation) -> [Result<(), Failed>; 8] {
    let mut two = [0; 2];
    [
        station.size().map(|_| ()),
        station.write_at(0, &[9, 8, 7, 6, 5]),
        station.tell(b"one\n"),
        station.sync(),
        station.write_at(0, &[1]),
        station.read_at(0, &mut two),
        station.sync(),
        station.read_at(4, &mut two),
    ]
}

fn four_bytes(alloc: Global, failing: Vec<u64>) -> Result<MomentStation, Fail> {
    Ok(MomentStation::new(alloc, vec![in alloc; 1, 2, 3, 4]?, failing))
}

#[test]
fn a_call_fails_by_its_number_and_past_the_end(rt: HostRuntime) -> Result<(), Fail> {
    let alloc = rt.alloc();
    for k in 0..9u64 {
        let mut station = four_bytes(alloc, vec![in alloc; k]?)?;
        for (call, answer) in (0..8).zip(eight_calls(&mut station)) {
            assert_eq!(rt; answer.is_err(), call == k || call == 7);
        }
        assert_eq!(rt; station.calls(), 8);
        let told: &[u8] = if k == 2 { b"" } else { b"one\n" };
        assert_eq!(rt; station.told(), told);
    }
    Ok(())
}

#[test]
fn a_crash_tears_what_was_not_synced(rt: HostRuntime) -> Result<(), Fail> {
    let alloc = rt.alloc();
    let mut station = four_bytes(alloc, vec![in alloc]?)?;
    let _ = eight_calls(&mut station);
    assert_eq!(rt; station.calls(), 8);
    let first: &[u8] = &[1, 2, 3, 4];
    let second: &[u8] = &[9, 8, 7, 6, 5];
    let third: &[u8] = &[1, 8, 7, 6, 5];
    // After so many calls: the old bytes, the new ones, and 255 in their place.
    let rows: [(u64, [&[u8]; 3]); 9] = [
        (0, [first, first, first]),
        (1, [first, first, first]),
        (2, [first, second, &[255; 5]]),
        (3, [first, second, &[255; 5]]),
        (4, [second, second, second]),
        (5, [second, third, &[255, 8, 7, 6, 5]]),
        (6, [second, third, &[255, 8, 7, 6, 5]]),
        (7, [third, third, third]),
        (8, [third, third, third]),
    ];
    for (calls, images) in rows {
        assert!(rt; calls <= station.calls());
        for (torn, image) in [Torn::Old, Torn::New, Torn::Fill(255)]
            .into_iter()
            .zip(images)
        {
            let left = station.crash(alloc, calls, torn)?;
            assert_eq!(rt; left.as_slice(), image);
        }
    }
    Ok(())
}

// What reads give after the writes, and two told lines one after another.
#[test]
fn reads_give_what_was_written(rt: HostRuntime) -> Result<(), Fail> {
    let alloc = rt.alloc();
    let mut station = four_bytes(alloc, vec![in alloc]?)?;
    let _ = eight_calls(&mut station);
    let mut buf = [0; 5];
    assert_eq!(rt; station.size(), Ok(5));
    assert_eq!(rt; station.read_at(0, &mut buf), Ok(()));
    assert_eq!(rt; buf, [1, 8, 7, 6, 5]);
    let _ = station.tell(b"two\n");
    assert_eq!(rt; station.told(), b"one\ntwo\n".as_slice());
    Ok(())
}
