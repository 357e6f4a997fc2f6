use csv_recording::{Samples, sheet};
use std::alloc::{AllocError, Global};
use std::process::Abort;
use std::test::Fail;

/// What stands before a sheet.
const BEFORE: &[u8] = b"kept\n";

fn names_of(alloc: Global, header: &str) -> Result<Vec<String>, AllocError> {
    let mut names = Vec::new(alloc);
    for name in header.split(',') {
        names.push(String::from_str(alloc, name)?)?;
    }
    Ok(names)
}

fn recordings_of(alloc: Global, recordings: &[&[i32]]) -> Result<Vec<Samples>, AllocError> {
    let mut all = Vec::new(alloc);
    for samples in recordings {
        all.push(samples.to_vec(alloc)?)?;
    }
    Ok(all)
}

// The names are the header's fields. Where memory runs out, what stood there stands there still.
fn check<R: Abort + AllocGlobal>(
    rt: &R,
    header: &str,
    recordings: &[Samples],
    rows: &str,
) -> Result<(), Fail> {
    let alloc = rt.alloc();
    let names = names_of(alloc, header)?;
    let mut out = BEFORE.to_vec(alloc)?;
    let mut expected = BEFORE.to_vec(alloc)?;
    expected.extend_from_slice(header.as_bytes())?;
    expected.push(b'\n')?;
    expected.extend_from_slice(rows.as_bytes())?;
    assert!(rt; !names.is_empty() && recordings.len() == names.len());
    match sheet(alloc, &names, recordings, &mut out) {
        Ok(()) => assert_eq!(rt; out.as_slice(), expected.as_slice()),
        Err(AllocError) => assert_eq!(rt; out.as_slice(), BEFORE),
    }
    Ok(())
}

#[test]
fn sheets_of_few_gauges(rt: HostRuntime) -> Result<(), Fail> {
    let table: [(&str, &[&[i32]], &str); 8] = [
        ("G1,G2", &[&[1, -2], &[7]], "1,7\n-2,NaN\n"),
        ("G1,G2", &[&[7], &[1, -2]], "7,1\nNaN,-2\n"),
        ("G1,G2", &[&[], &[]], ""),
        ("G1,G2", &[&[], &[0]], "NaN,0\n"),
        ("G1", &[&[]], ""),
        (
            "G1",
            &[&[i32::MIN, i32::MAX, -2_147_483_647]],
            "NaN\n2147483647\n-2147483647\n",
        ),
        ("weld-1,north_2", &[&[i32::MIN], &[i32::MIN]], "NaN,NaN\n"),
        (
            "a,b,c",
            &[&[1], &[-10, 20], &[100, -200, 300]],
            "1,-10,100\nNaN,20,-200\nNaN,NaN,300\n",
        ),
    ];
    for (header, recordings, rows) in table {
        check(&rt, header, &recordings_of(rt.alloc(), recordings)?, rows)?;
    }
    Ok(())
}

#[test]
fn the_sheet_of_32_gauges(rt: HostRuntime) -> Result<(), Fail> {
    let alloc = rt.alloc();
    let mut all = Vec::new(alloc);
    for n in 1..33 {
        all.push(vec![in alloc; n, i32::MIN]?)?;
    }
    check(
        &rt,
        "1,2,3,4,5,6,7,8,9,10,11,12,13,14,15,16,17,18,19,20,21,22,23,24,25,26,27,28,29,30,31,32",
        &all,
        "1,2,3,4,5,6,7,8,9,10,11,12,13,14,15,16,17,18,19,20,21,22,23,24,25,26,27,28,29,30,31,32\n\
NaN,NaN,NaN,NaN,NaN,NaN,NaN,NaN,NaN,NaN,NaN,NaN,NaN,NaN,NaN,NaN,NaN,NaN,NaN,NaN,NaN,NaN,NaN,NaN,\
NaN,NaN,NaN,NaN,NaN,NaN,NaN,NaN\n",
    )
}
